ghost use Rattle.std.specs.Prelude.{◌≡◌, ◌<◌, ◌≤◌, ◌^◌, ℕ, List, Option, length, take, IfOk, OnErr};
ghost use Rattle.rep_io.specs.Io.{Rose, Appends, Gives, IsAtEnd};

use thiserror::Error;

/// A read failed.
#[derive(Clone, Copy, Debug, Error)]
#[error("read failed")]
pub struct ReadFailed;

/// A write failed.
#[derive(Clone, Copy, Debug, Error)]
#[error("write failed")]
pub struct WriteFailed;

/// Where bytes come from.
pub trait Source {
    /// The bytes that are left, where it tells them.
    ghost left: { Self → Option (List ℕ) };

    /// How many faults there were. At the end of 64 bits it stands still, and counts as risen.
    ghost fault_count: { Self → ℕ };

    /// Gives the next bytes, and says how many. Ok(0) is the end of the input. An Err is a fault.
    fn read(&mut self, buf: &mut [u8]) -> Result<usize, ReadFailed>
        requires { 0 < length buf.old }
        ensures within { IfOk result (λ n. n ≤ length buf.new) }
        ensures gives { IfOk result (λ n. Gives (left self.old) (left self.new) (take n buf.new)) }
        ensures end { IfOk result (λ n. n ≡ 0 → IsAtEnd (left self.new)) }
        ensures err { OnErr result (left self.new ≡ left self.old) }
        ensures never_falls { fault_count self.old ≤ fault_count self.new }
        ensures cause { OnErr result (Rose (fault_count self.old) (fault_count self.new)) };

    fn faults(&self) -> u64
        ensures { result ≡ fault_count self.now };

    /// The count is a number of 64 bits.
    ghost bounded: { (source : Self) → fault_count source < 2 ^ 64 };
}

/// Where bytes go.
pub trait Sink {
    /// The bytes that it holds, where it tells them.
    ghost held: { Self → Option (List ℕ) };

    /// How many faults there were. At the end of 64 bits it stands still, and counts as risen.
    ghost fault_count: { Self → ℕ };

    /// Adds the first bytes of the piece, and says how many. An Err is a fault, and so is an Ok(0) for a piece that
    /// isn't empty.
    fn write(&mut self, piece: &[u8]) -> Result<usize, WriteFailed>
        ensures within { IfOk result (λ n. n ≤ length piece.now) }
        ensures adds { IfOk result (λ n. Appends (held self.old) (held self.new) (take n piece.now)) }
        ensures err { OnErr result (held self.new ≡ held self.old) }
        ensures never_falls { fault_count self.old ≤ fault_count self.new }
        ensures cause { OnErr result (Rose (fault_count self.old) (fault_count self.new)) }
        ensures stuck { IfOk result (λ n. n ≡ 0 → 0 < length piece.now
            → Rose (fault_count self.old) (fault_count self.new)) };

    fn faults(&self) -> u64
        ensures { result ≡ fault_count self.now };

    /// The count is a number of 64 bits.
    ghost bounded: { (sink : Self) → fault_count sink < 2 ^ 64 };
}
