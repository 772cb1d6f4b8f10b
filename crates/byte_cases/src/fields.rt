//! The tests of `field_codec`: a text, and bytes that are none.

use field_codec::{FieldFault, Reader};
use std::test::Fail;

static TEXTS: [(&[u8], Result<&str, FieldFault>); 3] = [
    (b"\x03\0abc", Ok("abc")),
    (b"\x03\0ab", Err(FieldFault::Short)),
    (b"\x01\0\xff", Err(FieldFault::NotText)),
];

#[test]
fn takes_a_text_or_says_why_not(rt: HostRuntime) -> Result<(), Fail> {
    for (bytes, want) in &TEXTS {
        assert_eq!(rt; Reader::new(bytes).take_text(), *want);
    }
    Ok(())
}
