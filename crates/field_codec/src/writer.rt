ghost use Rattle.std.specs.Prelude.{◌≡◌, ℕ, List, [], ◌∷◌, ◌++◌, length, ◌≤◌, ◌^◌, ◌<◌, OnOk, OnErr, IsOkUnless};
ghost use Rattle.field_codec.specs.Spelling.{u8_bytes, u16_bytes, u32_bytes, u64_bytes, i32_bytes, i64_bytes, i128_bytes, flag_bytes, text_bytes, sized_bytes};

use crate::fault::FieldFault;
use byteorder::{ByteOrder, LittleEndian};
use fixed_num::ByteList;
use std::alloc::{AllocError, Global};
use std::marker::Model;

/// Puts fields one after the other. Contracts see it as the bytes of all that was put.
#[derive(Debug, Drop)]
pub struct Writer {
    bytes: Vec<u8>,
}

impl Model for Writer {
    ghost use Rattle.std.specs.Prelude.{List, ℕ};

    ghost Value = { List ℕ };

    ghost view = { λ writer. writer.bytes.items };
}

/// Adds a size and what has this size, or nothing.
fn add_sized(out: &mut Vec<u8>, size: &[u8], content: &[u8]) -> Result<(), AllocError>
    ensures ok { OnOk result (out.new.items ≡ out.old.items ++ (size.now ++ content.now)) }
    ensures err { OnErr result (out.new.items ≡ out.old.items) }
{
    let before = out.len();
    out.extend_from_slice(size)?;
    let added = out.extend_from_slice(content);
    if added.is_err() {
        out.truncate(before);
    }
    added
}

impl Writer {
    /// A writer to which nothing was put.
    pub fn new(alloc: Global) -> Writer
        ensures { result ≡ [] }
    {
        Writer {
            bytes: Vec::new(alloc),
        }
    }

    /// The bytes of all that was put.
    pub fn into_bytes(self) -> ByteList
        ensures { result ≡ self }
    {
        let Writer { bytes } = self;
        ByteList::from_vec(bytes)
    }

    #[tactic(auto, unfolding(crate::specs::Spelling::u8_bytes))]
    pub fn put_u8(&mut self, v: u8) -> Result<(), FieldFault>
        ensures put { OnOk result (self.new ≡ self.old ++ u8_bytes v) }
        ensures refused { OnErr result (self.new ≡ self.old) }
        ensures memory { IsOkUnless result FieldFault.Memory }
    {
        Ok(self.bytes.extend_from_slice(&[v])?)
    }

    #[tactic(auto, unfolding(crate::specs::Spelling::u16_bytes))]
    pub fn put_u16(&mut self, v: u16) -> Result<(), FieldFault>
        ensures put { OnOk result (self.new ≡ self.old ++ u16_bytes v) }
        ensures refused { OnErr result (self.new ≡ self.old) }
        ensures memory { IsOkUnless result FieldFault.Memory }
    {
        let mut field = [0; 2];
        LittleEndian::write_u16(&mut field, v);
        Ok(self.bytes.extend_from_slice(&field)?)
    }

    #[tactic(auto, unfolding(crate::specs::Spelling::u32_bytes))]
    pub fn put_u32(&mut self, v: u32) -> Result<(), FieldFault>
        ensures put { OnOk result (self.new ≡ self.old ++ u32_bytes v) }
        ensures refused { OnErr result (self.new ≡ self.old) }
        ensures memory { IsOkUnless result FieldFault.Memory }
    {
        let mut field = [0; 4];
        LittleEndian::write_u32(&mut field, v);
        Ok(self.bytes.extend_from_slice(&field)?)
    }

    #[tactic(auto, unfolding(crate::specs::Spelling::u64_bytes))]
    pub fn put_u64(&mut self, v: u64) -> Result<(), FieldFault>
        ensures put { OnOk result (self.new ≡ self.old ++ u64_bytes v) }
        ensures refused { OnErr result (self.new ≡ self.old) }
        ensures memory { IsOkUnless result FieldFault.Memory }
    {
        let mut field = [0; 8];
        LittleEndian::write_u64(&mut field, v);
        Ok(self.bytes.extend_from_slice(&field)?)
    }

    #[tactic(auto, unfolding(crate::specs::Spelling::i32_bytes))]
    pub fn put_i32(&mut self, v: i32) -> Result<(), FieldFault>
        ensures put { OnOk result (self.new ≡ self.old ++ i32_bytes v) }
        ensures refused { OnErr result (self.new ≡ self.old) }
        ensures memory { IsOkUnless result FieldFault.Memory }
    {
        let mut field = [0; 4];
        LittleEndian::write_i32(&mut field, v);
        Ok(self.bytes.extend_from_slice(&field)?)
    }

    #[tactic(auto, unfolding(crate::specs::Spelling::i64_bytes))]
    pub fn put_i64(&mut self, v: i64) -> Result<(), FieldFault>
        ensures put { OnOk result (self.new ≡ self.old ++ i64_bytes v) }
        ensures refused { OnErr result (self.new ≡ self.old) }
        ensures memory { IsOkUnless result FieldFault.Memory }
    {
        let mut field = [0; 8];
        LittleEndian::write_i64(&mut field, v);
        Ok(self.bytes.extend_from_slice(&field)?)
    }

    #[tactic(auto, unfolding(crate::specs::Spelling::i128_bytes))]
    pub fn put_i128(&mut self, v: i128) -> Result<(), FieldFault>
        ensures put { OnOk result (self.new ≡ self.old ++ i128_bytes v) }
        ensures refused { OnErr result (self.new ≡ self.old) }
        ensures memory { IsOkUnless result FieldFault.Memory }
    {
        let mut field = [0; 16];
        LittleEndian::write_i128(&mut field, v);
        Ok(self.bytes.extend_from_slice(&field)?)
    }

    #[tactic(auto, unfolding(crate::specs::Spelling::flag_bytes))]
    pub fn put_flag(&mut self, v: bool) -> Result<(), FieldFault>
        ensures put { OnOk result (self.new ≡ self.old ++ flag_bytes v) }
        ensures refused { OnErr result (self.new ≡ self.old) }
        ensures memory { IsOkUnless result FieldFault.Memory }
    {
        Ok(self.bytes.extend_from_slice(&[u8::from(v)])?)
    }

    /// Puts a text of at most 65,535 bytes.
    #[tactic(auto, unfolding(crate::specs::Spelling::text_bytes, crate::specs::Spelling::u16_bytes))]
    pub fn put_text(&mut self, v: &str) -> Result<(), FieldFault>
        requires { length v.now ≤ 65535 }
        ensures put { OnOk result (self.new ≡ self.old ++ text_bytes v.now) }
        ensures refused { OnErr result (self.new ≡ self.old) }
        ensures memory { IsOkUnless result FieldFault.Memory }
    {
        let mut size = [0; 2];
        LittleEndian::write_u16(&mut size, v.len() as u16);
        Ok(add_sized(&mut self.bytes, &size, v.as_bytes())?)
    }

    /// Puts at most 4,294,967,295 bytes.
    #[tactic(auto, unfolding(crate::specs::Spelling::sized_bytes, crate::specs::Spelling::u32_bytes))]
    pub fn put_bytes(&mut self, v: &[u8]) -> Result<(), FieldFault>
        requires { length v.now < 2 ^ 32 }
        ensures put { OnOk result (self.new ≡ self.old ++ sized_bytes v.now) }
        ensures refused { OnErr result (self.new ≡ self.old) }
        ensures memory { IsOkUnless result FieldFault.Memory }
    {
        let mut size = [0; 4];
        LittleEndian::write_u32(&mut size, v.len() as u32);
        Ok(add_sized(&mut self.bytes, &size, v)?)
    }
}
