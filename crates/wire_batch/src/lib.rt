//! Batches of forms as they are sent from a cluster to another, both ways. The format is this project's own, and not
//! HBase's.
//!
//! Numbers have their highest byte first.
//!
//! | Field | At | Bytes | Content |
//! |---|---|---|---|
//! | 1 length | 0 | 4 | of the whole batch in bytes, 16 to 65,552 |
//! | 2 source cluster | 4 | 1 | 1 for a, 2 for b, 3 for c |
//! | 3 peer | 5 | 1 | 1 to 4 |
//! | 4 server | 6 | 2 | 1 to 64 |
//! | 5 flight | 8 | 4 | at least 1 |
//! | 6 number of forms | 12 | 2 | 0 to 1,000 |
//! | 7 zero | 14 | 2 | 0 |
//! | 8 forms | 16 | any | so many frames, each of a write without an origin |
//!
//! The items are the fields 1 to 7 and then each form. An item is judged where all before it stand whole and none of
//! them is broken. A field is broken where it stands whole with a value that isn't allowed. A form is broken where its
//! frame is, at the broken item inside it. Any other form is broken, at its first byte, where its length stands and it
//! would end past the batch's length, and where it stands whole and is no write without an origin. An item in which the
//! bytes end is broken where they end. Where the bytes or the batch's length go on after the last item, field 8 is
//! broken at that place.
#![tactic(auto)]

mod batch;
mod decode;
mod encode;
mod heading;
mod laws;

pub use batch::{Batch, BatchError};
pub use decode::decode_batch;
pub use encode::encode_batch;
pub use laws::batches_both_ways;
