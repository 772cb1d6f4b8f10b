ghost use Rattle.std.specs.Prelude.{◌≡◌};
ghost use Rattle.journal_core.specs.Form.{header, length_field};

/// The bytes that a journal of this generation begins with.
pub(crate) fn header_of(generation: u64) -> [u8; 16]
    ensures { result ≡ header generation }
{
    let [a, b, c, d, e, f, g, h] = generation.to_le_bytes();
    [
        b'N', b'D', b'A', b'J', b'R', b'N', b'L', b'1', a, b, c, d, e, f, g, h,
    ]
}

/// The bytes in which the length of a record is written.
pub(crate) fn length_bytes(size: u32) -> [u8; 4]
    ensures { result ≡ length_field size }
{
    size.to_le_bytes()
}
