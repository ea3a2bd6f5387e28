// An access by what the instruction needs.
ghost use Rattle.std.specs.Prelude.{◌≡◌};
ghost use Rattle.rv64_exec.specs.Widths.{IsWellFormedNeed};
ghost use Rattle.rv64_priv.specs.Csr.{regime};
ghost use Rattle.guest_ram.specs.Ports.{GoesBy};
ghost use Rattle.guest_access.specs.Accessing.{HasAccessed, IsOfMemory};
ghost use Rattle.guest_access.specs.Reaching.{CanAccess, GoesOn, KnowsFills};
ghost use Rattle.guest_access.specs.Touching.{IsOfAccess};

use crate::atomics::{load_reserved, operate, store_conditional};
use crate::loads::load;
use crate::outcomes::Got;
use crate::stores::store;
use guest_ram::Port;
use rv64_exec::{Answer, Arch, Need};
use tlb_entry::Book;

/// Makes the access that an instruction needs, from a load to a store-conditional, by physical addresses behind the translation of its pages.
/// `section`: the hart is in its section, so that it may touch bytes that lie in two words.
pub fn access<P: Port>(
    book: &mut Book,
    port: &mut P,
    arch: &Arch,
    need: &Need,
    section: bool,
) -> Got
    requires need { IsOfMemory need.now }
    requires form { IsWellFormedNeed need.now }
    requires access { CanAccess book.old (P.shows port.old) }
    requires fills { KnowsFills book.old (regime arch.now) (P.shows port.old) }
    ensures accessed { HasAccessed (P.shows port.old) (P.shows port.new) book.old book.new arch.now section need.now result }
    ensures goes_on { GoesOn (P.shows port.old) (P.shows port.new) book.old book.new (regime arch.now) }
    ensures access { CanAccess book.new (P.shows port.new) }
    ensures goes { GoesBy 34 IsOfAccess (P.shows port.old) (P.shows port.new) }
{
    match *need {
        Need::Load { va, width, signed } => load(book, port, arch, va, width, signed, section),
        Need::Store { va, width, value } => store(book, port, arch, va, width, value, section),
        Need::Amo {
            va,
            op,
            wide,
            value,
        } => operate(book, port, arch, va, op, wide, value),
        Need::Lr { va, wide } => load_reserved(book, port, arch, va, wide),
        Need::Sc { va, wide, value } => store_conditional(book, port, arch, va, wide, value),
        Need::Nothing | Need::Ipi { .. } | Need::Flush(_) | Need::Sbi | Need::Trap { .. } => {
            Got::Done(Answer::Nothing)
        }
    }
}
