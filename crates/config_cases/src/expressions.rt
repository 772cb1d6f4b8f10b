//! The tests of `health_expr`: what texts are worth, and the first faults of others.

use fixed_num::{Text, write_units};
use health_expr::{Expr, ExprFault, Value, Vars};
use std::alloc::Global;
use std::test::Fail;

/// Each variable is worth the length of its name.
struct Lengths;

impl Vars for Lengths {
    ghost use Rattle.std.specs.Prelude.{pos, min, ◌*◌, ◌^◌, length};
    ghost use Rattle.std.proofs.Common.{arith};
    ghost use Rattle.health_expr.specs.declared.value.Value.TheVariants.{Fixed};

    ghost worth = { λ _ name. Fixed (pos (min (length name) 100 * 10 ^ 7)) };

    fn value(&self, name: &str) -> Value {
        Value::Fixed(name.len().min(100) as i128 * 10_000_000)
    }

    ghost within = { λ _ name. Prim.grind arith };
}

fn worth(alloc: Global, text: &str) -> Result<Value, ExprFault> {
    Ok(Expr::read(alloc, text)?.eval(&Lengths))
}

fn push_value(out: &mut Text, value: Value) -> Result<(), Fail> {
    match value {
        Value::Nan => out.push_str("nan")?,
        Value::Inf(false) => out.push_str("inf")?,
        Value::Inf(true) => out.push_str("-inf")?,
        Value::Fixed(units) => write_units(out, units)?,
    }
    Ok(())
}

fn push_fault(alloc: Global, out: &mut Text, fault: ExprFault) -> Result<(), Fail> {
    match fault {
        ExprFault::Syntax(place) => out.push_str(format!(in alloc; "syntax {place}")?.as_str())?,
        ExprFault::TooDeep => out.push_str("deep")?,
        ExprFault::NumberTooWide => out.push_str("wide")?,
        ExprFault::Memory => out.push_str("memory")?,
    }
    Ok(())
}

/// What a text is worth, or its fault.
fn shown(alloc: Global, text: &str) -> Result<Text, Fail> {
    let mut out = Text::new(alloc);
    match worth(alloc, text) {
        Ok(value) => push_value(&mut out, value)?,
        Err(fault) => push_fault(alloc, &mut out, fault)?,
    }
    Ok(out)
}

const OPERANDS: [&str; 6] = ["nan", "inf", "-inf", "0", "-2", "3"];

/// What the operator makes of an operand and each on its right.
fn push_row(alloc: Global, out: &mut Text, left: &str, operator: &str) -> Result<(), Fail> {
    for right in OPERANDS {
        let text = format!(in alloc; "{left} {operator} {right}")?;
        out.push_str(" ")?;
        out.push_str(shown(alloc, text.as_str())?.as_str())?;
    }
    Ok(())
}

/// What the operator makes of each operand and each on its right, a row for each on its left.
fn table(alloc: Global, operator: &str) -> Result<Text, Fail> {
    let mut out = Text::new(alloc);
    for left in OPERANDS {
        push_row(alloc, &mut out, left, operator)?;
        out.push_str(";")?;
    }
    Ok(out)
}

/// What the prefix makes of each operand.
fn prefix_row(alloc: Global, prefix: &str) -> Result<Text, Fail> {
    let mut out = Text::new(alloc);
    for operand in OPERANDS {
        let text = format!(in alloc; "{prefix}({operand})")?;
        out.push_str(" ")?;
        out.push_str(shown(alloc, text.as_str())?.as_str())?;
    }
    Ok(out)
}

/// So many prefixes, a middle, and so many backs.
fn nested(
    alloc: Global,
    prefix: &str,
    middle: &str,
    back: &str,
    count: usize,
) -> Result<Text, Fail> {
    let mut out = Text::new(alloc);
    for _ in 0..count {
        out.push_str(prefix)?;
    }
    out.push_str(middle)?;
    for _ in 0..count {
        out.push_str(back)?;
    }
    Ok(out)
}

fn shown_nested(
    alloc: Global,
    prefix: &str,
    middle: &str,
    back: &str,
    count: usize,
) -> Result<Text, Fail> {
    shown(alloc, nested(alloc, prefix, middle, back, count)?.as_str())
}

#[test]
fn adds_up(rt: HostRuntime) -> Result<(), Fail> {
    assert_eq!(rt;
        table(rt.alloc(), "+")?.as_str(),
        " nan nan nan nan nan nan; nan inf nan inf inf inf; nan nan -inf -inf -inf -inf; nan inf -inf 0 -2 3; nan inf -inf -2 -4 1; nan inf -inf 3 1 6;"
    );
    Ok(())
}

#[test]
fn subtracts(rt: HostRuntime) -> Result<(), Fail> {
    assert_eq!(rt;
        table(rt.alloc(), "-")?.as_str(),
        " nan nan nan nan nan nan; nan nan inf inf inf inf; nan -inf nan -inf -inf -inf; nan -inf inf 0 2 -3; nan -inf inf -2 0 -5; nan -inf inf 3 5 0;"
    );
    Ok(())
}

#[test]
fn multiplies(rt: HostRuntime) -> Result<(), Fail> {
    assert_eq!(rt;
        table(rt.alloc(), "*")?.as_str(),
        " nan nan nan nan nan nan; nan inf -inf nan -inf inf; nan -inf inf nan inf -inf; nan nan nan 0 0 0; nan -inf inf 0 4 -6; nan inf -inf 0 -6 9;"
    );
    Ok(())
}

#[test]
fn divides(rt: HostRuntime) -> Result<(), Fail> {
    assert_eq!(rt;
        table(rt.alloc(), "/")?.as_str(),
        " nan nan nan nan nan nan; nan nan nan nan -inf inf; nan nan nan nan inf -inf; nan 0 0 nan 0 0; nan 0 0 -inf 1 -0.6666667; nan 0 0 inf -1.5 1;"
    );
    Ok(())
}

#[test]
fn compares_equal(rt: HostRuntime) -> Result<(), Fail> {
    let equal = " 1 0 0 0 0 0; 0 1 0 0 0 0; 0 0 1 0 0 0; 0 0 0 1 0 0; 0 0 0 0 1 0; 0 0 0 0 0 1;";
    let other = " 0 1 1 1 1 1; 1 0 1 1 1 1; 1 1 0 1 1 1; 1 1 1 0 1 1; 1 1 1 1 0 1; 1 1 1 1 1 0;";
    assert_eq!(rt; table(rt.alloc(), "==")?.as_str(), equal);
    assert_eq!(rt; table(rt.alloc(), "!=")?.as_str(), other);
    assert_eq!(rt; table(rt.alloc(), "<>")?.as_str(), other);
    Ok(())
}

#[test]
fn compares_below(rt: HostRuntime) -> Result<(), Fail> {
    assert_eq!(rt;
        table(rt.alloc(), "<")?.as_str(),
        " 0 0 0 0 0 0; 0 0 0 0 0 0; 0 1 0 1 1 1; 0 1 0 0 0 1; 0 1 0 1 0 1; 0 1 0 0 0 0;"
    );
    assert_eq!(rt;
        table(rt.alloc(), "<=")?.as_str(),
        " 0 0 0 0 0 0; 0 1 0 0 0 0; 0 1 1 1 1 1; 0 1 0 1 0 1; 0 1 0 1 1 1; 0 1 0 0 0 1;"
    );
    Ok(())
}

#[test]
fn compares_above(rt: HostRuntime) -> Result<(), Fail> {
    assert_eq!(rt;
        table(rt.alloc(), ">")?.as_str(),
        " 0 0 0 0 0 0; 0 0 1 1 1 1; 0 0 0 0 0 0; 0 0 1 0 1 0; 0 0 1 0 0 0; 0 0 1 1 1 0;"
    );
    assert_eq!(rt;
        table(rt.alloc(), ">=")?.as_str(),
        " 0 0 0 0 0 0; 0 1 1 1 1 1; 0 0 1 0 0 0; 0 0 1 1 1 0; 0 0 1 0 1 0; 0 0 1 1 1 1;"
    );
    Ok(())
}

#[test]
fn joins_truths(rt: HostRuntime) -> Result<(), Fail> {
    let both = " 0 0 0 0 0 0; 0 1 1 0 1 1; 0 1 1 0 1 1; 0 0 0 0 0 0; 0 1 1 0 1 1; 0 1 1 0 1 1;";
    let either = " 0 1 1 0 1 1; 1 1 1 1 1 1; 1 1 1 1 1 1; 0 1 1 0 1 1; 1 1 1 1 1 1; 1 1 1 1 1 1;";
    assert_eq!(rt; table(rt.alloc(), "&&")?.as_str(), both);
    assert_eq!(rt; table(rt.alloc(), "AND")?.as_str(), both);
    assert_eq!(rt; table(rt.alloc(), "||")?.as_str(), either);
    assert_eq!(rt; table(rt.alloc(), "OR")?.as_str(), either);
    Ok(())
}

#[test]
fn takes_prefixes(rt: HostRuntime) -> Result<(), Fail> {
    assert_eq!(rt; prefix_row(rt.alloc(), "!")?.as_str(), " 1 0 0 1 0 0");
    assert_eq!(rt; prefix_row(rt.alloc(), "NOT")?.as_str(), " 1 0 0 1 0 0");
    assert_eq!(rt;
        prefix_row(rt.alloc(), "-")?.as_str(),
        " nan -inf inf 0 2 -3"
    );
    assert_eq!(rt;
        prefix_row(rt.alloc(), "+")?.as_str(),
        " nan inf -inf 0 -2 3"
    );
    assert_eq!(rt;
        prefix_row(rt.alloc(), "abs")?.as_str(),
        " nan inf inf 0 2 3"
    );
    Ok(())
}

/// The first row of a text and its value, with ` => ` between, whose text has another value.
fn first_wrong<'a>(alloc: Global, rows: &'a str) -> Result<Option<&'a str>, Fail> {
    for row in rows.lines() {
        let Some((text, want)) = row.split_once(" => ") else {
            return Ok(Some(row));
        };
        if shown(alloc, text)?.as_str() != want {
            return Ok(Some(row));
        }
    }
    Ok(None)
}

const PRECEDENCES: &str = "1 + 2 * 3 => 7
(1 + 2) * 3 => 9
1 - 2 - 3 => -4
8 / 4 / 2 => 1
2 * 3 < 7 => 1
1 < 2 == 1 => 1
2 == 2 && 0 => 0
1 || 0 && 0 => 1
0 ? 1 : 0 ? 2 : 3 => 3
1 ? 2 : 0 ? 3 : 4 => 2
1 ? 0 ? 5 : 6 : 7 => 6
0 || 1 ? 2 : 3 => 2
nan ? 1 : 2 => 2
-2 * -3 => 6
!0 + 1 => 2
--2 => 2
- 1 - - 1 => 0";

#[test]
fn reads_by_precedence(rt: HostRuntime) -> Result<(), Fail> {
    assert_eq!(rt; first_wrong(rt.alloc(), PRECEDENCES)?, None);
    Ok(())
}

const WORDS: &str = "1AND 2 => 1
1<>2 => 1
\t1\r\u{b}+\u{c}1  => 2
$a.b_1+1 => 6
$1 => 1
${} => 0
${ a + b } => 7
${größe{} => 8
abs (1 - 3) => 2
007.50 => 7.5
1.5OR 0 => 1";

#[test]
fn cuts_words(rt: HostRuntime) -> Result<(), Fail> {
    assert_eq!(rt; first_wrong(rt.alloc(), WORDS)?, None);
    Ok(())
}

const EXACT: &str = "1 / 3 => 0.3333333
0.0000001 * 0.5 => 0
0.0000003 * 0.5 => 0.0000002
10000000000000000000000 => 10000000000000000000000
10000000000000000000000 + 0.0000001 => inf
-10000000000000000000000 * 2 => -inf
-10000000000000000000000 / 0.1 => -inf";

#[test]
fn is_exact(rt: HostRuntime) -> Result<(), Fail> {
    assert_eq!(rt; first_wrong(rt.alloc(), EXACT)?, None);
    Ok(())
}

const MISFITS: &str = "1 + => syntax 3
1 2 => syntax 2
) => syntax 0
(1 => syntax 2
() => syntax 1
1 ? 2 => syntax 5
1 ? 2 : => syntax 7
1 : 2 => syntax 2
$ a => syntax 0
1 + $ => syntax 4
${abc => syntax 0
abs 1 => syntax 4
foo => syntax 0
1 or 2 => syntax 2
1. => syntax 1
.5 => syntax 0
1.2.3 => syntax 3
1 = 2 => syntax 2
1 & 2 => syntax 2
nan1 => syntax 0
NOTx => syntax 0
1 ! 2 => syntax 2
1 + é => syntax 4
0.12345678 => wide
10000000000000000000000.0000001 => wide
1 0.12345678 => syntax 2
0.12345678 1 => wide";

#[test]
fn tells_the_first_fault(rt: HostRuntime) -> Result<(), Fail> {
    assert_eq!(rt; first_wrong(rt.alloc(), MISFITS)?, None);
    assert_eq!(rt; shown(rt.alloc(), "")?.as_str(), "syntax 0");
    assert_eq!(rt; shown(rt.alloc(), "  ")?.as_str(), "syntax 2");
    assert_eq!(rt; shown(rt.alloc(), "1\n+ 1")?.as_str(), "syntax 1");
    Ok(())
}

#[test]
fn counts_parentheses(rt: HostRuntime) -> Result<(), Fail> {
    assert_eq!(rt; shown_nested(rt.alloc(), "(", "1", ")", 64)?.as_str(), "1");
    assert_eq!(rt;
        shown_nested(rt.alloc(), "(", "1", ")", 65)?.as_str(),
        "deep"
    );
    assert_eq!(rt;
        shown_nested(rt.alloc(), "(", "1", "", 65)?.as_str(),
        "deep"
    );
    assert_eq!(rt;
        shown_nested(rt.alloc(), "(", "1", "", 64)?.as_str(),
        "syntax 65"
    );
    assert_eq!(rt;
        shown_nested(rt.alloc(), "(", "abs 1", "", 64)?.as_str(),
        "syntax 68"
    );
    assert_eq!(rt;
        shown_nested(rt.alloc(), "(", "abs(1)", ")", 64)?.as_str(),
        "deep"
    );
    Ok(())
}

#[test]
fn counts_prefixes_and_choices(rt: HostRuntime) -> Result<(), Fail> {
    assert_eq!(rt; shown_nested(rt.alloc(), "-", "1", "", 64)?.as_str(), "1");
    assert_eq!(rt;
        shown_nested(rt.alloc(), "-", "1", "", 65)?.as_str(),
        "deep"
    );
    assert_eq!(rt;
        shown_nested(rt.alloc(), "-", "", "", 65)?.as_str(),
        "syntax 65"
    );
    assert_eq!(rt;
        shown_nested(rt.alloc(), "-", "0.12345678", "", 65)?.as_str(),
        "deep"
    );
    assert_eq!(rt;
        shown_nested(rt.alloc(), "0 ? 1 : ", "2", "", 64)?.as_str(),
        "2"
    );
    assert_eq!(rt;
        shown_nested(rt.alloc(), "0 ? 1 : ", "2", "", 65)?.as_str(),
        "deep"
    );
    assert_eq!(rt;
        shown_nested(rt.alloc(), "1 ? ", "2", " : 3", 65)?.as_str(),
        "deep"
    );
    Ok(())
}

#[test]
fn reads_a_long_chain(rt: HostRuntime) -> Result<(), Fail> {
    assert_eq!(rt;
        shown_nested(rt.alloc(), "1 + ", "0", " + 1", 50_000)?.as_str(),
        "100000"
    );
    Ok(())
}

const ALARMS: &str = "($this > 10) ? ($green) : (nan) => nan
($a_name_of_twenty_bytes > 10) ? ($green) : (nan) => 5
$used * 100 / ($avail + $used) => 44.4444444
$this > (($status >= $WARNING ) ? (80) : (90)) => 0
$this > (($status >= $status ) ? (3) : (90)) => 1
($this > (($status == $CRITICAL) ? (90) : (98))) && $avail < 5 => 0
($this > (($status == $CRITICAL) ? (90) : (3))) && $avail < 6 => 1";

#[test]
fn reads_alarms(rt: HostRuntime) -> Result<(), Fail> {
    assert_eq!(rt; first_wrong(rt.alloc(), ALARMS)?, None);
    Ok(())
}
