ghost use Rattle.std.specs.Prelude.{◌≡◌, ℕ, List, [], ◌∷◌, ◌++◌, length, IsTrue, ◌↔◌, OnErr};
ghost use Rattle.field_codec.specs.Field.{with_rest, seen};
ghost use Rattle.field_codec.specs.Reading.{read_u8, read_u16, read_u32, read_u64, read_i32, read_i64, read_i128, read_flag, read_count, read_text, read_bytes};

use crate::fault::FieldFault;
use crate::prefix;
use byteorder::{ByteOrder, LittleEndian};
use std::marker::Model;

/// Takes fields from the start of some bytes. Contracts see it as the bytes that are left.
#[derive(Debug, Drop)]
pub struct Reader<'a> {
    bytes: &'a [u8],
}

impl<'a> Model for Reader<'a> {
    ghost use Rattle.std.specs.Prelude.{List, ℕ};

    ghost Value = { List ℕ };

    ghost view = { λ reader. reader.bytes.now };
}

impl<'a> Reader<'a> {
    /// A reader of all of `bytes`.
    pub fn new(bytes: &'a [u8]) -> Reader<'a>
        ensures { result ≡ bytes.now }
    {
        Reader { bytes }
    }

    /// Whether no byte is left.
    pub fn done(&self) -> bool
        ensures { IsTrue result ↔ (self.now ≡ []) }
    {
        self.bytes.is_empty()
    }

    /// How many bytes are left.
    pub fn left(&self) -> usize
        ensures { result ≡ length self.now }
    {
        self.bytes.len()
    }

    pub fn take_u8(&mut self) -> Result<u8, FieldFault>
        ensures taken { with_rest result self.new ≡ read_u8 self.old }
        ensures refused { OnErr result (self.new ≡ self.old) }
    {
        let (value, rest) = prefix::u8_at(self.bytes)?;
        self.bytes = rest;
        Ok(value)
    }

    pub fn take_u16(&mut self) -> Result<u16, FieldFault>
        ensures taken { with_rest result self.new ≡ read_u16 self.old }
        ensures refused { OnErr result (self.new ≡ self.old) }
    {
        let (value, rest) = prefix::u16_at(self.bytes)?;
        self.bytes = rest;
        Ok(value)
    }

    pub fn take_u32(&mut self) -> Result<u32, FieldFault>
        ensures taken { with_rest result self.new ≡ read_u32 self.old }
        ensures refused { OnErr result (self.new ≡ self.old) }
    {
        let (value, rest) = prefix::u32_at(self.bytes)?;
        self.bytes = rest;
        Ok(value)
    }

    pub fn take_u64(&mut self) -> Result<u64, FieldFault>
        ensures taken { with_rest result self.new ≡ read_u64 self.old }
        ensures refused { OnErr result (self.new ≡ self.old) }
    {
        let (value, rest) = prefix::u64_at(self.bytes)?;
        self.bytes = rest;
        Ok(value)
    }

    pub fn take_i32(&mut self) -> Result<i32, FieldFault>
        ensures taken { with_rest result self.new ≡ read_i32 self.old }
        ensures refused { OnErr result (self.new ≡ self.old) }
    {
        let (value, rest) = prefix::i32_at(self.bytes)?;
        self.bytes = rest;
        Ok(value)
    }

    pub fn take_i64(&mut self) -> Result<i64, FieldFault>
        ensures taken { with_rest result self.new ≡ read_i64 self.old }
        ensures refused { OnErr result (self.new ≡ self.old) }
    {
        let (value, rest) = prefix::i64_at(self.bytes)?;
        self.bytes = rest;
        Ok(value)
    }

    pub fn take_i128(&mut self) -> Result<i128, FieldFault>
        ensures taken { with_rest result self.new ≡ read_i128 self.old }
        ensures refused { OnErr result (self.new ≡ self.old) }
    {
        let (value, rest) = prefix::i128_at(self.bytes)?;
        self.bytes = rest;
        Ok(value)
    }

    pub fn take_flag(&mut self) -> Result<bool, FieldFault>
        ensures taken { with_rest result self.new ≡ read_flag self.old }
        ensures refused { OnErr result (self.new ≡ self.old) }
    {
        let (value, rest) = prefix::flag_at(self.bytes)?;
        self.bytes = rest;
        Ok(value)
    }

    /// A u32 of at most `max`.
    pub fn take_count(&mut self, max: u32) -> Result<u32, FieldFault>
        ensures taken { with_rest result self.new ≡ read_count max self.old }
        ensures refused { OnErr result (self.new ≡ self.old) }
    {
        let (value, rest) = prefix::count_at(self.bytes, max)?;
        self.bytes = rest;
        Ok(value)
    }

    pub fn take_text(&mut self) -> Result<&'a str, FieldFault>
        ensures taken { seen (λ text. (text.now, self.new)) result ≡ read_text self.old }
        ensures refused { OnErr result (self.new ≡ self.old) }
    {
        let (text, rest) = prefix::text_at(self.bytes)?;
        self.bytes = rest;
        Ok(text)
    }

    pub fn take_bytes(&mut self) -> Result<&'a [u8], FieldFault>
        ensures taken { seen (λ bytes. (bytes.now, self.new)) result ≡ read_bytes self.old }
        ensures refused { OnErr result (self.new ≡ self.old) }
    {
        let (bytes, rest) = prefix::bytes_at(self.bytes)?;
        self.bytes = rest;
        Ok(bytes)
    }
}
