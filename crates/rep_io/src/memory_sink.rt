ghost use Rattle.std.specs.Prelude.{◌≡◌, ◌≤◌, ◌<◌, ◌-◌, ◌↔◌, ◌⊎◌, [], ◌++◌, length, take, min, IsErr, IfOk, OnErr, Some, is_err};

use crate::plan::Plan;
use crate::{Sink, WriteFailed};
use rep_types::{Memory, Words};
use std::alloc::Global;
use std::marker::Model;

/// A sink in memory. One call takes the whole piece, but at most a stated number of bytes and no more than
/// there is room for. The calls that are listed fail, and those that find no room, and no others.
#[derive(Drop)]
pub struct MemSink {
    bytes: Vec<u8>,
    room: usize,
    most: usize,
    plan: Plan,
}

impl Model for MemSink {
    ghost use Rattle.std.specs.Prelude.{◌≤◌, vec_len, vec_capacity};
    ghost use Rattle.rep_io.specs.Memory.{SinkValue};

    ghost Value = { SinkValue };

    ghost view = { λ s. record { held = s.bytes.items; room = s.room; most = s.most; plan = s.plan } };

    ghost invariant = { λ s. (1 ≤ s.most) × (vec_len s.bytes ≤ s.room) × (s.room ≤ vec_capacity s.bytes) };
}

impl MemSink {
    /// Gets the memory for `room` bytes, all that it will ever hold, so that no write needs any: want of memory
    /// is told here and is never a fault. Calls are numbered as a `MemSource` numbers them.
    pub fn new(alloc: Global, room: usize, failing: Words, most: usize) -> Result<MemSink, Memory>
        requires { 1 ≤ most }
        ensures held { IfOk result (λ sink. sink.held ≡ []) }
        ensures room { IfOk result (λ sink. sink.room ≡ room) }
        ensures most { IfOk result (λ sink. sink.most ≡ most) }
        ensures failing { IfOk result (λ sink. sink.plan.failing ≡ failing) }
        ensures calls { IfOk result (λ sink. sink.plan.calls ≡ 0) }
        ensures faults { IfOk result (λ sink. sink.plan.faults.count ≡ 0) }
    {
        let bytes = Vec::with_capacity(alloc, room)?;
        Ok(MemSink {
            bytes,
            room,
            most,
            plan: Plan::new(failing),
        })
    }

    pub fn bytes(&self) -> &[u8]
        ensures { result.now ≡ self.now.held }
    {
        self.bytes.as_slice()
    }
}

impl Sink for MemSink {
    ghost use Rattle.rep_io.specs.Memory.{IsListed, HasNoRoom, Counts};

    ghost held = { λ s. Some s.held };

    ghost fault_count = { λ s. s.plan.faults.count };

    ghost bounded = { λ s. s.plan.faults.fits };

    fn write(&mut self, piece: &[u8]) -> Result<usize, WriteFailed>
        ensures fails { IsErr result
            ↔ (IsListed self.old.plan ⊎ HasNoRoom self.old (length piece.now)) }
        ensures number { IfOk result (λ n.
            n ≡ min (min (length piece.now) self.old.most) (self.old.room - length self.old.held)) }
        ensures adds { IfOk result (λ n. self.new.held ≡ self.old.held ++ take n piece.now) }
        ensures some { IfOk result (λ n. 0 < length piece.now → 0 < n) }

        // What else it leaves.
        ensures err { OnErr result (self.new.held ≡ self.old.held) }
        ensures counts { Counts (is_err result) self.old.plan self.new.plan }
        ensures most { self.new.most ≡ self.old.most }
        ensures room { self.new.room ≡ self.old.room }
    {
        let n = piece.len().min(self.most).min(self.room - self.bytes.len());
        if self.plan.fails(n == 0 && !piece.is_empty()) {
            return Err(WriteFailed);
        }
        let Ok(()) = self.bytes.extend_from_slice(&piece[..n]) else {
            unreachable!()
        };
        Ok(n)
    }

    fn faults(&self) -> u64 {
        self.plan.faults.count
    }
}
