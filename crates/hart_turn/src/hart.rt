// A hart between two turns.
ghost use Rattle.std.specs.Prelude.{◌≡◌, ◌%◌, ◌<◌};
ghost use Rattle.machine_model.specs.Change.{begun_arch};
ghost use Rattle.machine_model.specs.State.{reset};
ghost use Rattle.hart_turn.specs.Harts.{first_hart, is_made};

use hart_calls::Span;
use rv64_exec::Arch;
use sbi_calls::Fence;
use tlb_entry::Book;
use word_cache::WordCache;
use work_queue::{Sent, Served};

/// Whether a hart wants the section, in which it is alone, and whether it has claimed it.
#[derive(Clone, Copy, Debug, PartialEq, Eq)]
pub enum Claim {
    Unwanted,
    Wanted,
    Made,
}

/// A call in progress: a remote fence of these harts, a bit for each, and how far it has come.
#[derive(Clone, Copy, Debug, PartialEq, Eq)]
pub enum Call {
    Nothing,
    Fence {
        harts: u64,
        span: Span,
        fence: Fence,
    },
}

/// A hart: its registers, how many instructions it has ended and may end, and where it stands between the others. `quantum` says for how many
/// more instructions it may stay inside; outside it says nothing.
#[derive(Drop)]
pub struct Hart {
    pub(crate) number: u8,
    pub(crate) arch: Arch,
    pub(crate) count: u64,
    pub(crate) limit: u64,
    pub(crate) runs: bool,
    pub(crate) inside: bool,
    pub(crate) quantum: u8,
    pub(crate) claim: Claim,
    pub(crate) call: Call,
    pub(crate) book: Book,
    pub(crate) sent: Sent,
    pub(crate) served: Served,
    pub(crate) decoded: WordCache,
}

impl Claim {
    /// The section is claimed.
    pub(crate) fn is_made(self) -> bool
        ensures { result ≡ is_made self }
    {
        matches!(self, Claim::Made)
    }
}

/// All registers and CSRs 0, in supervisor mode without translation.
fn first_arch(pc: u64) -> Arch
    requires { pc % 4 ≡ 0 }
    ensures { result ≡ reset pc }
{
    Arch {
        x: [0; 32],
        pc,
        user: false,
        sstatus: 0,
        sie: 0,
        stvec: 0,
        sscratch: 0,
        sepc: 0,
        scause: 0,
        stval: 0,
        satp: 0,
        hold: None,
    }
}

/// The registers with which a hart begins: its number in a0, the opaque value in a1 (RISC-V SBI, "Hart State Management Extension").
pub(crate) fn arch_at(number: u8, start: u64, opaque: u64) -> Arch
    requires { start % 4 ≡ 0 }
    ensures { result ≡ begun_arch number start opaque }
{
    let mut arch = first_arch(start);
    arch.x[10] = u64::from(number);
    arch.x[11] = opaque;
    arch
}

impl Hart {
    /// The hart of this number as a machine begins with it, outside, with at most so many instructions to end: hart 0 runs from `start` on,
    /// a multiple of 4, every other is stopped.
    pub fn new(number: u8, start: u64, limit: u64) -> Hart
        requires start { start % 4 ≡ 0 }
        requires limit { 0 < limit }
        ensures { result ≡ first_hart number start limit }
    {
        let runs = number == 0;
        Hart {
            number,
            arch: first_arch(if runs { start } else { 0 }),
            count: 0,
            limit,
            runs,
            inside: false,
            quantum: 0,
            claim: Claim::Unwanted,
            call: Call::Nothing,
            book: Book::new(number),
            sent: Sent { next: [0; 16] },
            served: Served { next: [0; 17] },
            decoded: WordCache::new(),
        }
    }

    /// Its registers.
    pub fn arch(&self) -> &Arch
        ensures { result.now ≡ self.now.arch }
    {
        &self.arch
    }

    /// How many instructions it has ended, by retiring them or by a trap.
    pub fn count(&self) -> u64
        ensures { result ≡ self.now.count }
    {
        self.count
    }
}
