//! The tests of `words`: the words that lines are cut into.

use std::alloc::{AllocError, Global};
use std::test::Fail;
use words::{OpenQuote, Words, is_blank};

// Each word of a line in angle brackets, and `!` where a quote stays open.
fn shown(alloc: Global, line: &str) -> Result<String, AllocError> {
    let mut out = String::new(alloc);
    let mut words = Words::new(line);
    for _ in 0..=line.len() {
        match words.next_word() {
            Ok(Some(word)) => {
                out.push('<')?;
                out.push_str(word)?;
                out.push('>')?;
            }
            Ok(None) => break,
            Err(OpenQuote) => {
                out.push('!')?;
                break;
            }
        }
    }
    Ok(out)
}

#[test]
fn cuts_lines_into_words(rt: HostRuntime) -> Result<(), Fail> {
    let rows = [
        ("", ""),
        ("=", ""),
        (" \t= ", ""),
        ("END", "<END>"),
        ("SET a=5", "<SET><a><5>"),
        ("SET a = 5", "<SET><a><5>"),
        ("\tSET\ta\r=\u{b}5\u{c}A\r", "<SET><a><5><A>"),
        ("=a==b=", "<a><b>"),
        ("''", "<>"),
        ("\"\" ''", "<><>"),
        ("''''", "<><>"),
        ("'a b'", "<a b>"),
        ("\"a=b\" 'c\td'", "<a=b><c\td>"),
        ("'a'b", "<a><b>"),
        ("'a''b'\"c\"", "<a><b><c>"),
        ("a'b c'", "<a'b><c'>"),
        ("it's 5\"", "<it's><5\">"),
        ("'say \"hi\"' \"it's\"", "<say \"hi\"><it's>"),
        ("'a\\' b'", "<a\\><b'>"),
        ("'x", "!"),
        ("a 'x\"", "<a>!"),
        ("'a'\"b", "<a>!"),
        (
            "CHART disk.größe '' \"Größe in µs\" '€ = 日本'",
            "<CHART><disk.größe><><Größe in µs><€ = 日本>",
        ),
        ("\u{a0}a\u{2003}b", "<\u{a0}a\u{2003}b>"),
    ];
    for (line, want) in rows {
        assert_eq!(rt; shown(rt.alloc(), line)?.as_str(), want, "at {line}");
    }
    Ok(())
}

#[test]
fn keeps_what_is_not_cut(rt: HostRuntime) {
    let mut words = Words::new("QUERY 'a b' \"c");
    assert_eq!(rt; words.rest(), "QUERY 'a b' \"c");
    assert_eq!(rt; words.next_word(), Ok(Some("QUERY")));
    assert_eq!(rt; Words::new(words.rest()).next_word(), Ok(Some("a b")));
    assert_eq!(rt; words.next_word(), Ok(Some("a b")));
    assert_eq!(rt; words.next_word(), Err(OpenQuote));
    assert_eq!(rt; words.next_word(), Err(OpenQuote));
    let mut blanks = Words::new(" = ");
    assert_eq!(rt; blanks.next_word(), Ok(None));
    assert_eq!(rt; blanks.rest(), "");
}

#[test]
fn knows_blanks(rt: HostRuntime) -> Result<(), Fail> {
    let alloc = rt.alloc();
    for byte in 0..=255u8 {
        let blank = [9, 11, 12, 13, 32].contains(&byte);
        assert_eq!(rt; is_blank(byte), blank, "at {byte}");
        let character = char::from(byte);
        let cut = shown(alloc, format!(in alloc; "x{character}y")?.as_str())?;
        let separates = blank || byte == 61;
        assert_eq!(rt; cut.as_str() == "<x><y>", separates, "at {byte}");
        let line = format!(in alloc; "{character}x y{character}")?;
        let quotes = byte == 34 || byte == 39;
        let quoted = shown(alloc, line.as_str())?;
        assert_eq!(rt; quoted.as_str() == "<x y>", quotes, "at {byte}");
    }
    Ok(())
}
