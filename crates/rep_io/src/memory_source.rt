ghost use Rattle.std.specs.Prelude.{◌≡◌, ◌≤◌, ◌<◌, ◌↔◌, [], ◌++◌, length, take, min, IsErr, IfOk, OnErr, Some, is_err};

use crate::plan::Plan;
use crate::{ReadFailed, Source};
use rep_types::{Bytes, Words};
use std::marker::Model;

/// A source in memory. One call gives as many bytes as the buffer takes, but at most a stated number.
/// The calls that are listed fail, and no others.
#[derive(Drop)]
pub struct MemSource {
    bytes: Bytes,
    at: usize,
    most: usize,
    plan: Plan,
}

impl Model for MemSource {
    ghost use Rattle.std.specs.Prelude.{◌≤◌, length, drop};
    ghost use Rattle.rep_io.specs.Memory.{SourceValue};

    ghost Value = { SourceValue };

    ghost view = { λ s. record { left = drop s.at s.bytes; most = s.most; plan = s.plan } };

    ghost invariant = { λ s. (1 ≤ s.most) × (s.at ≤ length s.bytes) };
}

impl MemSource {
    /// Calls are numbered from 1. From the last number of 64 bits on, all have that number.
    pub fn new(bytes: Bytes, failing: Words, most: usize) -> MemSource
        requires { 1 ≤ most }
        ensures left { result.left ≡ bytes }
        ensures most { result.most ≡ most }
        ensures failing { result.plan.failing ≡ failing }
        ensures calls { result.plan.calls ≡ 0 }
        ensures faults { result.plan.faults.count ≡ 0 }
    {
        MemSource {
            bytes,
            at: 0,
            most,
            plan: Plan::new(failing),
        }
    }
}

impl Source for MemSource {
    ghost use Rattle.rep_io.specs.Memory.{IsListed, Counts};

    ghost left = { λ s. Some s.left };

    ghost fault_count = { λ s. s.plan.faults.count };

    ghost bounded = { λ s. s.plan.faults.fits };

    #[tactic(auto, using(crate::proofs::Bytes::given, std::proofs::lemmas::Grind::common_steps))]
    fn read(&mut self, buf: &mut [u8]) -> Result<usize, ReadFailed>
        requires { 0 < length buf.old }
        ensures fails { IsErr result ↔ IsListed self.old.plan }
        ensures number { IfOk result (λ n.
            n ≡ min (min (length buf.new) self.old.most) (length self.old.left)) }
        ensures gives { IfOk result (λ n. self.old.left ≡ take n buf.new ++ self.new.left) }
        ensures end { IfOk result (λ n. n ≡ 0 → self.new.left ≡ []) }

        // What else it leaves.
        ensures err { OnErr result (self.new.left ≡ self.old.left) }
        ensures counts { Counts (is_err result) self.old.plan self.new.plan }
        ensures most { self.new.most ≡ self.old.most }
    {
        if self.plan.fails(false) {
            return Err(ReadFailed);
        }
        let left = &self.bytes.as_slice()[self.at..];
        let n = buf.len().min(self.most).min(left.len());
        buf[..n].copy_from_slice(&left[..n]);
        self.at += n;
        Ok(n)
    }

    fn faults(&self) -> u64 {
        self.plan.faults.count
    }
}
