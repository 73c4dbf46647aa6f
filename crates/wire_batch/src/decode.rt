ghost use Rattle.std.specs.Prelude.{◌≡◌, IfOk};
ghost use Rattle.wire_batch.specs.Answers.{place, Reads, Answers, IsSpelled, IsUnlessMemory};
ghost use Rattle.wire_batch.specs.Grammar.{verdict_of, nothing_more};
ghost use Rattle.wire_batch.specs.declared.batch.Batch.{Batch};

mod cursor;
mod fields;
mod form;

use crate::{Batch, BatchError};
use cursor::Cursor;
use fields::heading_of;
use form::forms_of;
use std::alloc::Global;

#[tactic(auto, unfolding(crate::specs::Grammar::nothing_more))]
fn nothing_more<'a>(here: Cursor<'a>, end: u32) -> Result<((), Cursor<'a>), BatchError>
    ensures { Reads result (nothing_more end (place here.entry)) }
{
    if here.at == end && here.rest.is_empty() {
        Ok(((), here))
    } else {
        Err(BatchError::BadBatch {
            at: here.at,
            rule: 8,
        })
    }
}

// The batch that the bytes are, from their first on.
#[tactic(auto, unfolding(crate::specs::Grammar::batch))]
fn batch_of(alloc: Global, bytes: &[u8]) -> Result<Batch, BatchError>
    ensures { Answers result (verdict_of bytes.now) }
{
    let first = Cursor { at: 0, rest: bytes };
    let (heading, next) = match heading_of(first) {
        Ok(read) => read,
        Err(stop) => return Err(stop),
    };
    let (forms, next) = match forms_of(alloc, next, heading.length, heading.count) {
        Ok(read) => read,
        Err(stop) => return Err(stop),
    };
    let ((), _) = nothing_more(next, heading.length)?;
    Ok(Batch {
        cluster: heading.cluster,
        peer: heading.peer,
        server: heading.server,
        flight: heading.flight,
        forms,
    })
}

/// The batch that the bytes are. Each form is made once and moved.
pub fn decode_batch(alloc: Global, bytes: &[u8]) -> Result<Batch, BatchError>
    // A batch where all items stand whole and unbroken, else `BadBatch` with the first broken one.
    ensures exact { Answers result (verdict_of bytes.now) }
    // What is decoded is spelled so.
    ensures spelled { IfOk result (IsSpelled bytes.now) }
    // What is spelled so is decoded.
    ensures again { (batch : Batch) → IsSpelled bytes.now batch → IsUnlessMemory result batch }
{
    batch_of(alloc, bytes)
}
