//! Fields to bytes and back: whole numbers, flags, texts, bytes and lists, one after the other.
//!
//! A `Writer` holds the bytes of what was put, and a `Reader` the bytes that are left. A whole number has
//! its lowest byte first, a flag is a byte 0 or 1, a text is a u16 of length and its UTF-8 bytes, and
//! bytes are a u32 of length and themselves. Each kind of field has its spelling, a function of the
//! value, and its reading, a function of the bytes: what is put is the spelling, what is taken is the
//! reading, and the law of both is proved for every value and all that follows. A refused call changes
//! nothing, and reading one takes no memory.
//!
//! `text` puts and takes texts of one's own, and `list` lists: a u32 of how many items there are, and the items. A
//! crate says by a `ListItem` how it spells what it has lists of. A list grows with the items that are read, so
//! that a count takes no memory by itself. The laws of fields one after the other and of lists are in
//! `proofs/Lists`, for the crates whose spellings are made of them.
//!
//! It stands on the kit's `byteorder` for the order of bytes, and on `fixed_num` for texts and lists.
#![tactic(auto)]

mod fault;
mod law;
pub mod list;
mod prefix;
mod reader;
pub mod text;
mod writer;

pub use fault::FieldFault;
pub use fixed_num::ByteList;
pub use law::fields_round_trip;
pub use reader::Reader;
pub use writer::Writer;
