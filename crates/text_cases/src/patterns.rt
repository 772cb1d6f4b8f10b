//! The tests of `simple_pattern`: what patterns decide.

use simple_pattern::{Pattern, PatternFault};
use std::alloc::{AllocError, Global};
use std::test::Fail;

// A pattern, a name, and what the pattern decides.
const DECISIONS: &[(&str, &str, Option<bool>)] = &[
    ("!*bad* *", "abad", Some(false)),
    ("!*bad* *", "x", Some(true)),
    ("", "x", None),
    ("", "", None),
    (" \t\r\u{b}\u{c} ", "x", None),
    ("* !x", "x", Some(true)),
    ("!x x", "x", Some(false)),
    ("x !y* *", "yes", Some(false)),
    ("x !y* *", "no", Some(true)),
    ("a b", "c", None),
    ("!", "", Some(false)),
    ("!", "x", None),
    ("!*", "", Some(false)),
    ("!*", "x", Some(false)),
    ("!!a", "!a", Some(false)),
    ("!!a", "a", None),
    ("a!b *!", "a!b", Some(true)),
    ("a!b *!", "x!", Some(true)),
    ("a\tb\rc\u{b}d\u{c}e", "e", Some(true)),
    ("a\nb", "b", None),
    ("\u{a0}a", "a", None),
    ("'a b'", "b'", Some(true)),
    ("a=b", "a=b", Some(true)),
    ("a,b|c", "a,b|c", Some(true)),
    ("a,b|c", "b", None),
];

#[test]
fn decides_by_the_first_word_that_matches(rt: HostRuntime) -> Result<(), Fail> {
    for (text, name, want) in DECISIONS {
        let pattern = Pattern::read(rt.alloc(), text, false)?;
        assert_eq!(rt; pattern.decides(name), *want, "{text} on {name}");
    }
    Ok(())
}

// A pattern of one word, a name, and whether they match.
const MATCHES: &[(&str, &str, bool)] = &[
    ("a", "a", true),
    ("a", "A", false),
    ("a", "ab", false),
    ("ab", "a", false),
    ("a", "", false),
    ("*", "", true),
    ("*", "x", true),
    ("**", "", true),
    ("**", "xy", true),
    ("a*", "a", true),
    ("a*", "abc", true),
    ("a*", "ba", false),
    ("*a", "ba", true),
    ("*a", "ab", false),
    ("a*a", "a", false),
    ("a*a", "aa", true),
    ("a**a", "aba", true),
    ("a*b*c", "abc", true),
    ("a*b*c", "axbxbxc", true),
    ("a*b*c", "acb", false),
    ("*ab*", "aab", true),
    ("*aab", "aaab", true),
    ("*aab*", "aabaab", true),
    ("*ab*ab", "abab", true),
    ("*ab*ab", "ab", false),
    ("a*ab*b", "aabb", true),
    ("a*ab*b", "aab", false),
    ("*b*a*", "abab", true),
    ("*b*a*", "aab", false),
    ("*.cpu?", "system.cpu?", true),
    ("*.cpu?", "system.cpu0", false),
    ("größ*", "größe", true),
    ("*e", "größe", true),
    ("gr*ße", "größe", true),
    ("*ö*", "größe", true),
    ("*ü*", "größe", false),
    ("日*語", "日本語", true),
    ("日*本", "日本語", false),
    ("*本*", "日本語", true),
    ("日本語*", "日本", false),
];

#[test]
fn matches_any_run_at_a_star(rt: HostRuntime) -> Result<(), Fail> {
    for (text, name, want) in MATCHES {
        let pattern = Pattern::read(rt.alloc(), text, false)?;
        assert_eq!(rt; pattern.decides(name).is_some(), *want, "{text} on {name}");
    }
    Ok(())
}

// The same, where commas cut.
const COMMAS: &[(&str, &str, Option<bool>)] = &[
    ("a,b|c", "a", Some(true)),
    ("a,b|c", "b", Some(true)),
    ("a,b|c", "c", Some(true)),
    ("a,b|c", "a,b|c", None),
    ("!a, *", "a", Some(false)),
    ("!a, *", "b", Some(true)),
    (",| ,", "", None),
];

#[test]
fn cuts_at_commas_where_asked(rt: HostRuntime) -> Result<(), Fail> {
    for (text, name, want) in COMMAS {
        let pattern = Pattern::read(rt.alloc(), text, true)?;
        assert_eq!(rt; pattern.decides(name), *want, "{text} on {name}");
    }
    let pattern = Pattern::read(rt.alloc(), " !a,, b*|c", true)?;
    assert_eq!(rt; pattern.words().len(), 3);
    assert_eq!(rt; pattern.words()[1].as_str(), "b*");
    Ok(())
}

/// A text so many times.
fn repeated(alloc: Global, part: &str, count: u32) -> Result<String, AllocError> {
    let mut text = String::new(alloc);
    for _ in 0..count {
        text.push_str(part)?;
    }
    Ok(text)
}

/// What a pattern of 256 words decides on a name of 200 letters and this behind them.
fn decided(alloc: Global, back: &str) -> Result<Option<bool>, Fail> {
    let words = repeated(alloc, "*a*a*a*b ", 256)?;
    let pattern = Pattern::read(alloc, words.as_str(), false)?;
    let mut name = repeated(alloc, "a", 200)?;
    name.push_str(back)?;
    Ok(pattern.decides(name.as_str()))
}

#[test]
fn reads_256_words(rt: HostRuntime) -> Result<(), Fail> {
    assert_eq!(rt; decided(rt.alloc(), "")?, None);
    assert_eq!(rt; decided(rt.alloc(), "b")?, Some(true));
    Ok(())
}

#[test]
fn refuses_257_words(rt: HostRuntime) -> Result<(), Fail> {
    let words = repeated(rt.alloc(), "a ", 257)?;
    let refused = Pattern::read(rt.alloc(), words.as_str(), false).err();
    assert_eq!(rt; refused, Some(PatternFault::TooManyWords));
    Ok(())
}
