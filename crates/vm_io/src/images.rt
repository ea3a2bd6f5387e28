// Files by name, as the machine reads them. An implementation may tell the bytes of a name, and
// then each read gives those bytes.
ghost use Rattle.std.specs.Prelude.{◌≡◌, ℕ, ◌<◌, ◌≤◌, List, Option, length, take, drop, IfOk, IfSome, OnErr};
ghost use Rattle.vm_io.specs.Faults.{Rose};

use crate::errors::Failed;

/// Files that are read by name and place.
pub trait Images {
    // The bytes of a name, where they are told.
    ghost told: { Self → List ℕ → Option (List ℕ) };

    // How often a read of a name failed. It never falls.
    ghost faults: { Self → List ℕ → ℕ };

    /// Reads bytes of the file `name`, from place `from` on, into the front of `buf`, and gives
    /// their number. It may give fewer than `buf` has room for; none says that the file ends there.
    ///
    /// # Errors
    ///
    /// `Failed` where the name cannot be opened or the read fails. What `buf` holds is then open.
    fn read_at(&mut self, name: &str, from: u64, buf: &mut [u8]) -> Result<usize, Failed>
        ensures fits { IfOk result (λ n. n ≤ length buf.old) }
        ensures bytes { IfOk result (λ n. IfSome (told self.old name.now)
            (λ bytes. take n buf.new ≡ take n (drop from bytes))) }
        ensures ends { result ≡ Ok 0 → 0 < length buf.old →
            IfSome (told self.old name.now) (λ bytes. length bytes ≤ from) }
        ensures cause { OnErr result (Rose (faults self.old name.now) (faults self.new name.now)) }
        ensures grows { (other : List ℕ) → faults self.old other ≤ faults self.new other }
        ensures same { (other : List ℕ) → told self.new other ≡ told self.old other };
}
