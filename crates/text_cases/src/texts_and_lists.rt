//! The tests of `fixed_num`: texts and lists.

use fixed_num::{ByteList, Text, WordsList};
use std::test::Fail;

#[test]
fn a_text_holds_what_was_put_in(rt: HostRuntime) -> Result<(), Fail> {
    let mut text = Text::new(rt.alloc());
    assert!(rt; text.is_empty());
    text.push_str("größ")?;
    text.push_str("er")?;
    assert_eq!(rt; text.as_str(), "größer");
    assert_eq!(rt; text.len(), 8);
    let copy = Text::from_str(rt.alloc(), "größer")?;
    assert_eq!(rt; copy.as_bytes(), text.as_bytes());
    assert!(rt; copy == text);
    assert!(rt; copy == copy.clone()?);
    assert!(rt; copy != Text::new(rt.alloc()));
    text.clear();
    assert!(rt; text.is_empty());
    let again = Text::from_string(copy.into_string());
    assert_eq!(rt; again.as_str(), "größer");
    Ok(())
}

#[test]
fn a_list_holds_what_was_put_in(rt: HostRuntime) -> Result<(), Fail> {
    let mut words = WordsList::new(rt.alloc());
    assert!(rt; words.is_empty());
    words.push(Text::from_str(rt.alloc(), "new")?)?;
    words.push(Text::from_str(rt.alloc(), "7")?)?;
    assert_eq!(rt; words.len(), 2);
    assert_eq!(rt; words.as_slice().len(), 2);
    words.clear();
    assert!(rt; words.is_empty());
    Ok(())
}

#[test]
fn is_made_from_a_vector_and_gives_it_back(rt: HostRuntime) -> Result<(), Fail> {
    let mut bytes = ByteList::from_slice(rt.alloc(), b"ab")?;
    bytes.extend(b"cd")?;
    assert_eq!(rt; bytes.as_slice(), b"abcd".as_slice());
    let again = ByteList::from_vec(bytes.into_vec());
    assert_eq!(rt; again.len(), 4);
    Ok(())
}
