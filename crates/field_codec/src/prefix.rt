//! The field at the start of some bytes, and what follows it.

ghost use Rattle.std.specs.Prelude.{◌≡◌, Ok};
ghost use Rattle.field_codec.specs.Field.{seen};
ghost use Rattle.field_codec.specs.Reading.{read_u8, read_u16, read_u32, read_u64, read_i32, read_i64, read_i128, read_counted, read_flag, read_count, read_text, read_bytes};

use crate::fault::FieldFault;
use byteorder::{ByteOrder, LittleEndian};
use std::str;

#[tactic(auto, unfolding(crate::specs::Reading::read_u8))]
pub(crate) fn u8_at(bytes: &[u8]) -> Result<(u8, &[u8]), FieldFault>
    ensures { seen (λ read. (read.0, read.1.now)) result ≡ read_u8 bytes.now }
{
    match bytes {
        [] => Err(FieldFault::Short),
        [byte, rest @ ..] => Ok((*byte, rest)),
    }
}

#[tactic(auto, unfolding(crate::specs::Reading::read_u16))]
pub(crate) fn u16_at(bytes: &[u8]) -> Result<(u16, &[u8]), FieldFault>
    ensures { seen (λ read. (read.0, read.1.now)) result ≡ read_u16 bytes.now }
{
    if bytes.len() < 2 {
        return Err(FieldFault::Short);
    }
    Ok((LittleEndian::read_u16(bytes), &bytes[2..]))
}

#[tactic(auto, unfolding(crate::specs::Reading::read_u32))]
pub(crate) fn u32_at(bytes: &[u8]) -> Result<(u32, &[u8]), FieldFault>
    ensures { seen (λ read. (read.0, read.1.now)) result ≡ read_u32 bytes.now }
{
    if bytes.len() < 4 {
        return Err(FieldFault::Short);
    }
    Ok((LittleEndian::read_u32(bytes), &bytes[4..]))
}

#[tactic(auto, unfolding(crate::specs::Reading::read_u64))]
pub(crate) fn u64_at(bytes: &[u8]) -> Result<(u64, &[u8]), FieldFault>
    ensures { seen (λ read. (read.0, read.1.now)) result ≡ read_u64 bytes.now }
{
    if bytes.len() < 8 {
        return Err(FieldFault::Short);
    }
    Ok((LittleEndian::read_u64(bytes), &bytes[8..]))
}

#[tactic(auto, unfolding(crate::specs::Reading::read_i32))]
pub(crate) fn i32_at(bytes: &[u8]) -> Result<(i32, &[u8]), FieldFault>
    ensures { seen (λ read. (read.0, read.1.now)) result ≡ read_i32 bytes.now }
{
    if bytes.len() < 4 {
        return Err(FieldFault::Short);
    }
    Ok((LittleEndian::read_i32(bytes), &bytes[4..]))
}

#[tactic(auto, unfolding(crate::specs::Reading::read_i64))]
pub(crate) fn i64_at(bytes: &[u8]) -> Result<(i64, &[u8]), FieldFault>
    ensures { seen (λ read. (read.0, read.1.now)) result ≡ read_i64 bytes.now }
{
    if bytes.len() < 8 {
        return Err(FieldFault::Short);
    }
    Ok((LittleEndian::read_i64(bytes), &bytes[8..]))
}

#[tactic(auto, unfolding(crate::specs::Reading::read_i128))]
pub(crate) fn i128_at(bytes: &[u8]) -> Result<(i128, &[u8]), FieldFault>
    ensures { seen (λ read. (read.0, read.1.now)) result ≡ read_i128 bytes.now }
{
    if bytes.len() < 16 {
        return Err(FieldFault::Short);
    }
    Ok((LittleEndian::read_i128(bytes), &bytes[16..]))
}

#[tactic(auto, unfolding(crate::specs::Reading::read_flag))]
pub(crate) fn flag_at(bytes: &[u8]) -> Result<(bool, &[u8]), FieldFault>
    ensures { seen (λ read. (read.0, read.1.now)) result ≡ read_flag bytes.now }
{
    match bytes {
        [] => Err(FieldFault::Short),
        [0, rest @ ..] => Ok((false, rest)),
        [1, rest @ ..] => Ok((true, rest)),
        [_, ..] => Err(FieldFault::Range),
    }
}

#[tactic(auto, unfolding(crate::specs::Reading::read_count))]
pub(crate) fn count_at(bytes: &[u8], max: u32) -> Result<(u32, &[u8]), FieldFault>
    ensures { seen (λ read. (read.0, read.1.now)) result ≡ read_count max bytes.now }
{
    let (count, rest) = u32_at(bytes)?;
    if count > max {
        return Err(FieldFault::Range);
    }
    Ok((count, rest))
}

/// So many bytes.
fn counted(bytes: &[u8], size: usize) -> Result<(&[u8], &[u8]), FieldFault>
    ensures { seen (λ read. (read.0.now, read.1.now)) result ≡ read_counted (Ok (size, bytes.now)) }
{
    if bytes.len() < size {
        return Err(FieldFault::Short);
    }
    Ok(bytes.split_at(size))
}

#[tactic(auto, unfolding(crate::specs::Reading::read_text))]
pub(crate) fn text_at(bytes: &[u8]) -> Result<(&str, &[u8]), FieldFault>
    ensures { seen (λ read. (read.0.now, read.1.now)) result ≡ read_text bytes.now }
{
    let (size, rest) = u16_at(bytes)?;
    let (text, rest) = counted(rest, size as usize)?;
    match str::from_utf8(text) {
        Ok(text) => Ok((text, rest)),
        Err(_) => Err(FieldFault::NotText),
    }
}

#[tactic(auto, unfolding(crate::specs::Reading::read_bytes))]
pub(crate) fn bytes_at(bytes: &[u8]) -> Result<(&[u8], &[u8]), FieldFault>
    ensures { seen (λ read. (read.0.now, read.1.now)) result ≡ read_bytes bytes.now }
{
    let (size, rest) = u32_at(bytes)?;
    counted(rest, size as usize)
}
