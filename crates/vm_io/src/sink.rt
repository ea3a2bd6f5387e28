// Where bytes go out, in order. An implementation may tell the bytes that it took.
ghost use Rattle.std.specs.Prelude.{◌≡◌, ℕ, ◌<◌, ◌≤◌, List, Option, length, take, IfOk, OnErr};
ghost use Rattle.std.specs.Io.KnownBytes.{Appends};
ghost use Rattle.vm_io.specs.Faults.{Rose};

use crate::errors::Failed;

/// A taker of bytes, as standard output is.
pub trait Sink {
    // The bytes taken so far, where they are told.
    ghost taken: { Self → Option (List ℕ) };

    // How often a write failed. It never falls.
    ghost faults: { Self → ℕ };

    /// Hands over `piece`, and gives the number of its first bytes that were taken. That may be
    /// fewer than `piece` has, but of a piece that is not empty at least one.
    ///
    /// # Errors
    ///
    /// `Failed` where nothing could be taken.
    fn write(&mut self, piece: &[u8]) -> Result<usize, Failed>
        ensures fits { IfOk result (λ n. n ≤ length piece.now) }
        ensures some { IfOk result (λ n. 0 < length piece.now → 0 < n) }
        ensures ok { IfOk result (λ n. Appends (taken self.old) (taken self.new) (take n piece.now)) }
        ensures failed { OnErr result (taken self.new ≡ taken self.old) }
        ensures cause { OnErr result (Rose (faults self.old) (faults self.new)) }
        ensures grows { faults self.old ≤ faults self.new };
}
