ghost use Rattle.std.specs.Prelude.{◌≡◌, ◌++◌, ◌<◌, ◌^◌};
ghost use Rattle.checkpoint.specs.Form.{field, head_in};
ghost use Rattle.checkpoint.specs.Files.{slot_file, later_head};

use byteorder::{ByteOrder, LittleEndian};
use host_model::File;

/// How many bytes stand before the body: the gate, the number and the length.
pub const HEAD: usize = 17;

/// What the head of an open checkpoint file says.
#[derive(Clone, Copy, Debug)]
pub(crate) struct Head {
    pub(crate) number: u64,
    /// The length of the body.
    pub(crate) size: u64,
}

/// The file in which the checkpoint of this number lies.
pub(crate) fn slot_file_of(number: u64) -> File
    ensures { result ≡ slot_file number }
{
    if number % 2 == 0 {
        File::CheckA
    } else {
        File::CheckB
    }
}

/// The bytes of a number and a length.
pub(crate) fn head_bytes(number: u64, size: u64) -> [u8; 16]
    ensures bytes { result ≡ field number ++ field size }
    ensures fits { size < 2 ^ 64 }
{
    let mut bytes = [0; 16];
    LittleEndian::write_u64(&mut bytes, number);
    LittleEndian::write_u64(&mut bytes[8..], size);
    bytes
}

/// What the head of a file says, where it is open. The numbers of the file are odd, or even.
pub(crate) fn head_of(seen: &[u8; HEAD], odd: u64) -> Option<Head>
    ensures { result ≡ head_in odd seen.now }
{
    let number = LittleEndian::read_u64(&seen[1..]);
    let size = LittleEndian::read_u64(&seen[9..]);
    if seen[0] != 1 {
        return None;
    }
    if number % 2 != odd {
        return None;
    }
    Some(Head { number, size })
}

/// The head with the larger number.
pub(crate) fn later(first: Option<Head>, second: Option<Head>) -> Option<Head>
    ensures { result ≡ later_head first second }
{
    let (Some(one), Some(other)) = (first, second) else {
        return first.or(second);
    };
    if one.number < other.number {
        second
    } else {
        first
    }
}
