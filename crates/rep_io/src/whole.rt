ghost use Rattle.std.specs.Prelude.{◌≡◌, ◌≤◌, ◌+◌, length, IfOk, OnOk, OnErr, IfSome, IsErrOf};
ghost use Rattle.rep_io.specs.Io.{Rose, Gives, GivesSome, IsAtEnd, Appends, AppendsPart};

use crate::{Sink, Source, WriteFailed};
use rep_types::Bytes;
use std::alloc::Global;
use thiserror::Error;

/// Why an input wasn't read to its end.
#[derive(Debug, Drop, Error)]
pub enum ReadError {
    #[error("read failed")]
    Failed,
    #[error("input too long")]
    TooLong,
    #[error("out of memory")]
    Memory,
}

/// Reads all that is left, at most `most` bytes. It asks for no byte behind the first one too many.
pub fn read_all<S: Source>(alloc: Global, input: &mut S, most: usize) -> Result<Bytes, ReadError>
    ensures text { IfOk result (λ text. IfSome (S.left input.old) (λ left. text ≡ left)) }
    ensures end { OnOk result (IsAtEnd (S.left input.new)) }
    ensures gives { IfOk result (λ text. Gives (S.left input.old) (S.left input.new) text) }
    ensures few { IfOk result (λ text. length text ≤ most) }

    // One byte too many came, or no more than allowed before the reading stopped.
    ensures too_long { IsErrOf result ReadError.TooLong
        → GivesSome (S.left input.old) (S.left input.new) (λ n. n ≡ most + 1) }
    ensures failed { IsErrOf result ReadError.Failed
        → GivesSome (S.left input.old) (S.left input.new) (λ n. n ≤ most) }
    ensures memory { IsErrOf result ReadError.Memory
        → GivesSome (S.left input.old) (S.left input.new) (λ n. n ≤ most) }

    ensures cause { IsErrOf result ReadError.Failed
        → Rose (S.fault_count input.old) (S.fault_count input.new) }
    ensures never_falls { S.fault_count input.old ≤ S.fault_count input.new }
{
    let mut text = Bytes::new(alloc);
    let mut buf = [0u8; 4096];
    loop {
        let allowed = most - text.len();
        let asked = buf.len().min(allowed.saturating_add(1));
        let Ok(n) = input.read(&mut buf[..asked]) else {
            return Err(ReadError::Failed);
        };
        if n == 0 {
            return Ok(text);
        }
        if n > allowed {
            return Err(ReadError::TooLong);
        }
        if text.extend_from_slice(&buf[..n]).is_err() {
            return Err(ReadError::Memory);
        }
    }
}

/// Writes the whole piece.
pub fn write_all<K: Sink>(out: &mut K, piece: &[u8]) -> Result<(), WriteFailed>
    ensures whole { OnOk result (Appends (K.held out.old) (K.held out.new) piece.now) }
    ensures part { OnErr result (AppendsPart (K.held out.old) (K.held out.new) piece.now) }
    ensures cause { OnErr result (Rose (K.fault_count out.old) (K.fault_count out.new)) }
    ensures never_falls { K.fault_count out.old ≤ K.fault_count out.new }
{
    let mut at = 0;
    while at < piece.len() {
        let n = out.write(&piece[at..])?;
        if n == 0 {
            return Err(WriteFailed);
        }
        at += n;
    }
    Ok(())
}
