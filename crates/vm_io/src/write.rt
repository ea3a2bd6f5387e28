// Writes a run of bytes whole, piece by piece, and says how far it came where it could not.
ghost use Rattle.std.specs.Prelude.{◌≡◌, ℕ, ◌<◌, ◌≤◌, length, take, IfErr, OnOk, OnErr};
ghost use Rattle.std.specs.Io.KnownBytes.{Appends};
ghost use Rattle.vm_io.specs.Faults.{Rose};

use crate::errors::Failed;
use crate::sink::Sink;
use thiserror::Error;

// How many bytes are handed over at once.
const PIECE: usize = 65_536;

/// A write failed after the first `written` bytes were taken.
#[derive(Clone, Copy, Debug, PartialEq, Eq, Error)]
#[error("the write failed after {written} bytes")]
pub struct WriteFault {
    pub written: usize,
}

/// Writes all of `bytes`, in pieces of 65,536 bytes. Of no bytes it makes no call.
///
/// # Errors
///
/// `WriteFault` where a write failed, with the number of bytes that were taken before: not all.
pub fn write_all<S: Sink>(sink: &mut S, bytes: &[u8]) -> Result<(), WriteFault>
    ensures ok { OnOk result (Appends (S.taken sink.old) (S.taken sink.new) bytes.now) }
    ensures fault { IfErr result (λ f. (f.written < length bytes.now) ×
        Appends (S.taken sink.old) (S.taken sink.new) (take f.written bytes.now)) }
    ensures cause { OnErr result (Rose (S.faults sink.old) (S.faults sink.new)) }
    ensures grows { S.faults sink.old ≤ S.faults sink.new }
{
    let mut written = 0;
    while written < bytes.len() {
        let end = written + PIECE.min(bytes.len() - written);
        match sink.write(&bytes[written..end]) {
            Ok(count) => written += count,
            Err(Failed) => return Err(WriteFault { written }),
        }
    }
    Ok(())
}
