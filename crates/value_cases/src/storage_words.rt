//! The tests of `storage_number`: fractions, and the words that they pack to.

mod table;

use fixed_num::Frac;
use storage_number::{Point, is_word, pack, unpack};
use table::TABLE;

/// A whole number of ten-millionths as a fraction.
const ONE: i128 = 10_000_000;

#[test]
fn packs_the_words_of_the_table(rt: HostRuntime) {
    for (num, den, anomalous, reset, word, units) in TABLE {
        let q = Frac { num, den };
        if num.unsigned_abs() <= 1 << 100 && den > 0 && den <= 1 << 80 {
            assert_eq!(rt; pack(q, anomalous, reset), word, "{num}/{den}");
        } else {
            assert!(rt; false, "{num}/{den} is out of range");
        }
        assert!(rt; is_word(word), "{word:08x}");
        let point = Point {
            units,
            anomalous,
            reset,
        };
        assert_eq!(rt; unpack(word), Some(point), "{word:08x}");
    }
}

#[test]
fn packs_and_reads_known_words(rt: HostRuntime) {
    for (num, den, word) in [
        (0, 1, 0x0100_0000),
        (1, 1, 0x3998_9680),
        (-1, 1, 0xB998_9680),
        (1, 3, 0x3932_DCD5),
        (1, 100_000_000, 0x0100_0000),
        (-1, 100_000_000, 0x0100_0000),
        (16_777_215, 1, 0x01FF_FFFF),
        (16_777_216, 1, 0x4919_999A),
        (1_700_000_000_000_000_000_000, 1, 0x7DFF_FFFF),
    ] {
        assert_eq!(rt; pack(Frac { num, den }, false, false), word, "{num}/{den}");
    }
    assert_eq!(rt; pack(Frac { num: 0, den: 1 }, true, false), 0x0400_0000);
    let point = Point {
        units: 16_777_220 * ONE,
        anomalous: false,
        reset: false,
    };
    assert_eq!(rt; unpack(0x4919_999A), Some(point));
}

#[test]
fn tells_words_apart(rt: HostRuntime) {
    for (word, want) in [
        (0, false),
        (0x0100_0000, true),
        (0x0200_0000, true),
        (0x0300_0000, true),
        (0x0400_0000, true),
        (0x0500_0000, false),
        (0x0000_0001, false),
        (0x3900_0000, false),
        (0x3900_0001, true),
        (0x3119_9999, false),
        (0x3119_999A, true),
        (0x4119_999A, false),
        (0x4919_9999, false),
        (0x4919_999A, true),
        (0x6D02_8F5C, true),
        (0x6502_8F5C, false),
        (0x6519_999A, true),
        (0x5D19_999A, false),
        (0x2519_999A, false),
        (0x8100_0000, false),
    ] {
        assert_eq!(rt; is_word(word), want, "{word:08x}");
        assert_eq!(rt; unpack(word).is_some(), want, "{word:08x}");
    }
}
