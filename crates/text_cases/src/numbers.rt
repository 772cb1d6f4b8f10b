//! The tests of `fixed_num`: exact numbers, and their texts.

use fixed_num::{
    Frac, LIMIT, NumberFault, Text, div, mul, read_digits, read_units, round_half_even, write_units,
};
use std::test::Fail;

#[test]
fn rounds_products_and_quotients(rt: HostRuntime) {
    assert_eq!(rt; mul(LIMIT, LIMIT), None);
    assert_eq!(rt; mul(LIMIT, -10_000_000), Some(-LIMIT));
    assert_eq!(rt; mul(LIMIT, 10_000_001), None);
    assert_eq!(rt; mul(15_000_000, 1), Some(2));
    assert_eq!(rt; mul(25_000_000, -1), Some(-2));
    assert_eq!(rt;
        mul(-12_345_678_901, 98_765_432_109),
        Some(-121_932_631_133_623)
    );
    assert_eq!(rt; div(10_000_000, 30_000_000), Some(3_333_333));
    assert_eq!(rt; div(20_000_000, -30_000_000), Some(-6_666_667));
    assert_eq!(rt; div(LIMIT, 9_999_999), None);
    assert_eq!(rt; div(-1, 20_000_000), Some(0));
    assert_eq!(rt; div(3, 20_000_000), Some(2));
}

#[test]
fn rounds_to_the_nearest_and_ties_to_even(rt: HostRuntime) {
    for (num, den, want) in [
        (5, 2, 2),
        (7, 2, 4),
        (-5, 2, -2),
        (-7, 2, -4),
        (1, 3, 0),
        (2, 3, 1),
        (-2, 3, -1),
        (1, 2, 0),
        (i128::MIN, 1, i128::MIN),
        (i128::MAX, i128::MAX, 1),
        (
            i128::MAX,
            2,
            85_070_591_730_234_615_865_843_651_857_942_052_864,
        ),
        (-1, i128::MAX, 0),
    ] {
        assert_eq!(rt; round_half_even(Frac { num, den }), want, "{num}/{den}");
    }
}

#[test]
fn writes_the_exact_text(rt: HostRuntime) -> Result<(), Fail> {
    for (units, want) in [
        (-25_000_000, "-2.5"),
        (1, "0.0000001"),
        (-1, "-0.0000001"),
        (0, "0"),
        (420_000_000, "42"),
        (333_333_330, "33.333333"),
        (1_000_000, "0.1"),
        (10_000_100, "1.00001"),
        (LIMIT, "10000000000000000000000"),
        (i128::MIN, "-17014118346046923173168730371588.4105728"),
    ] {
        let mut text = Text::from_str(rt.alloc(), "is ")?;
        write_units(&mut text, units)?;
        let mut wanted = Text::from_str(rt.alloc(), "is ")?;
        wanted.push_str(want)?;
        assert_eq!(rt; text.as_str(), wanted.as_str(), "{units}");
    }
    Ok(())
}

#[test]
fn reads_digits(rt: HostRuntime) {
    let huge = b"99999999999999999999999999999999999999999999999999".as_slice();
    for (text, want) in [
        (b"0042".as_slice(), Some(42)),
        (
            b"340282366920938463463374607431768211454",
            Some(u128::MAX - 1),
        ),
        (huge, Some(u128::MAX)),
        (b"", None),
        (b"4x", None),
        (b"+4", None),
    ] {
        assert_eq!(rt; read_digits(text), want, "{text:?}");
    }
}

#[test]
fn reads_what_a_text_says(rt: HostRuntime) {
    let limit = b"10000000000000000000000".as_slice();
    let beyond = b"10000000000000000000000.0000001".as_slice();
    let huge = b"99999999999999999999999999999999999999999999999999".as_slice();
    for (text, want) in [
        (b"0.5".as_slice(), Ok(5_000_000)),
        (b"-2.5", Ok(-25_000_000)),
        (b"+7", Ok(70_000_000)),
        (b"007.0000001", Ok(70_000_001)),
        (b"-0", Ok(0)),
        (limit, Ok(LIMIT)),
        (beyond, Err(NumberFault::TooWide)),
        (huge, Err(NumberFault::TooWide)),
        (b"0.12345678", Err(NumberFault::TooWide)),
        (b"0.00000000", Err(NumberFault::TooWide)),
        (b"1e3", Err(NumberFault::NotANumber)),
        (b"0.12345678x", Err(NumberFault::NotANumber)),
        (b"", Err(NumberFault::NotANumber)),
        (b"-", Err(NumberFault::NotANumber)),
        (b"+-1", Err(NumberFault::NotANumber)),
        (b".5", Err(NumberFault::NotANumber)),
        (b"5.", Err(NumberFault::NotANumber)),
        (b"1.2.3", Err(NumberFault::NotANumber)),
        (b" 1", Err(NumberFault::NotANumber)),
    ] {
        assert_eq!(rt; read_units(text), want, "{text:?}");
    }
}
