//! Frames of a write-ahead log, both ways. The format is this project's own, and not HBase's.
//!
//! Numbers have their highest byte first.
//!
//! | Field | At | Bytes | Content |
//! |---|---|---|---|
//! | 1 length | 0 | 4 | of the whole frame in bytes, a multiple of 8 from 32 to 8,224 |
//! | 2 kind | 4 | 1 | 1 open marker, 2 close marker, both of 32 bytes; 3 write |
//! | 3 marks | 5 | 1 | 1 to 7 |
//! | 4 origin peer | 6 | 1 | 0, or 1 to 4 |
//! | 5 origin cluster | 7 | 1 | 0, or 1 for a, 2 for b, 3 for c |
//! | 6 region | 8 | 4 | 1 to 4,096 |
//! | 7 origin region | 12 | 4 | 0, or 1 to 4,096 |
//! | 8 sequence id | 16 | 8 | at least 1 |
//! | 9 origin sequence id | 24 | 8 | 0, or at least 1 |
//! | 10 body | 32 | any | nothing for markers, the edit of a write |
//! | 11 padding | | 0 to 7 | zeros |
//!
//! The origin fields are all 0, as in each marker, or all not 0. An edit is its table, its row, the
//! number of cells in one byte, and each cell: family, qualifier, timestamp in eight bytes, and one
//! byte 1 and the value for a put, or one byte 2 for a delete. Names stand behind one byte of
//! length, rows and values behind two.
//!
//! Fields 1 to 9 are one item each. The items of the body are each length, text, number and kind
//! byte; the padding is the last item. An item is judged where all before it stand whole and none
//! of them is broken. It is broken at once where it would end past the frame's end, the padding also
//! where it would have more than 7 bytes; else where it stands whole and isn't one that is allowed
//! after those before it. A length is allowed where a text of that length is: 1 to 16 bytes of a
//! name, 1 to 64 of a row, 0 to 16,384 of a value.
#![tactic(auto)]

mod decode;
mod encode;
mod laws;
mod spell;

pub use decode::{Decoded, Decoder, decode_frame, frame_length};
pub use encode::{encode_frame, entry_length, kind_length};
pub use laws::{pieces_agree, spellings_are_apart};
pub use spell::{cluster_number, cluster_of, push_name, push_text};
