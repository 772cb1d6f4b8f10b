//! The bytes of frames, by their format written once more.

use std::alloc::{AllocError, Global};

/// A Data of one chart, `test.one`, and its dimension `a`, by its other fields.
#[derive(Clone, Copy)]
pub struct Message {
    pub child: u64,
    pub prev: u32,
    pub from: u32,
    pub upto: u32,
    pub floor: u32,
    pub update_every: u32,
    /// The moments and their words.
    pub beats: &'static [(u32, u32)],
}

/// What one end says.
#[derive(Clone, Copy)]
pub enum Says {
    Hello(u64),
    Ask(u64, u32),
    Data(Message),
    Have(u32),
    Bye(u8),
    /// Bytes that need not be a frame.
    Bytes(&'static [u8]),
}

fn put_u32(out: &mut Vec<u8>, number: u32) -> Result<(), AllocError> {
    out.extend_from_slice(&number.to_le_bytes())
}

fn put_u64(out: &mut Vec<u8>, number: u64) -> Result<(), AllocError> {
    out.extend_from_slice(&number.to_le_bytes())
}

fn put_count(out: &mut Vec<u8>, count: usize) -> Result<(), AllocError> {
    put_u32(out, u32::try_from(count).unwrap_or(u32::MAX))
}

fn put_text(out: &mut Vec<u8>, text: &str) -> Result<(), AllocError> {
    let size = u16::try_from(text.len()).unwrap_or(u16::MAX);
    out.extend_from_slice(&size.to_le_bytes())?;
    out.extend_from_slice(text.as_bytes())
}

/// The names: the chart's id, its context and update_every, and the dimension, which is not hidden.
fn put_names(out: &mut Vec<u8>, update_every: u32) -> Result<(), AllocError> {
    put_u32(out, 1)?;
    put_text(out, "test.one")?;
    put_text(out, "test.one")?;
    put_u32(out, update_every)?;
    put_u32(out, 1)?;
    put_u32(out, 0)?;
    put_text(out, "a")?;
    out.extend_from_slice(&[0])
}

/// Each beat has one word, of the dimension at the place 0.
fn put_beats(out: &mut Vec<u8>, beats: &[(u32, u32)]) -> Result<(), AllocError> {
    put_count(out, beats.len())?;
    for (moment, word) in beats {
        put_u32(out, *moment)?;
        put_u32(out, 1)?;
        put_u32(out, 0)?;
        put_u32(out, *word)?;
    }
    Ok(())
}

fn put_message(out: &mut Vec<u8>, message: &Message) -> Result<(), AllocError> {
    put_u64(out, message.child)?;
    put_u32(out, message.prev)?;
    put_u32(out, message.from)?;
    put_u32(out, message.upto)?;
    put_u32(out, message.floor)?;
    put_names(out, message.update_every)?;
    put_beats(out, message.beats)
}

fn put_body(out: &mut Vec<u8>, says: &Says) -> Result<(), AllocError> {
    match says {
        Says::Hello(child) => {
            out.push(1)?;
            put_u64(out, *child)
        }
        Says::Ask(child, last) => {
            out.push(2)?;
            put_u64(out, *child)?;
            put_u32(out, *last)
        }
        Says::Data(message) => {
            out.push(DATA)?;
            put_message(out, message)
        }
        Says::Have(last) => {
            out.push(4)?;
            put_u32(out, *last)
        }
        Says::Bye(reason) => { out.extend_from_slice(&[5, *reason]) }
        Says::Bytes(bytes) => out.extend_from_slice(bytes),
    }
}

/// Puts the frame, or bytes as they are.
fn put(alloc: Global, out: &mut Vec<u8>, says: &Says) -> Result<(), AllocError> {
    let mut body = Vec::new(alloc);
    put_body(&mut body, says)?;
    if !matches!(says, Says::Bytes(_)) {
        put_count(out, body.len())?;
    }
    out.extend_from_slice(body.as_slice())
}

/// All that is said, one after the other.
pub fn bytes_of(alloc: Global, said: &[Says]) -> Result<Vec<u8>, AllocError> {
    let mut out = Vec::new(alloc);
    for says in said {
        put(alloc, &mut out, says)?;
    }
    Ok(out)
}

/// The Hello of the child 7, as the format's page has its bytes.
pub const HELLO: &[u8] = b"\x09\0\0\0\x01\x07\0\0\0\0\0\0\0";

/// The kind of a Data.
const DATA: u8 = 3;

/// The value of a beat of these tests is this and its moment. The word of a whole number from
/// 1,677,722 to 16,777,215 is 2^24 and the number.
pub const VALUE: u32 = 2_000_000;

pub const WORD: u32 = 18_777_216;
