// A stopped hart, which begins where another has started it.
ghost use Rattle.std.specs.Prelude.{◌≡◌, ◌+◌, IfErr, IfOk, IfNone, IfSome, false, true};
ghost use Rattle.step_laws.specs.Harts.{is_owing, is_running, opening};
ghost use Rattle.kept_fills.specs.Beside.{IsBeside};
ghost use Rattle.guest_ram.specs.Ports.{GoesBy, StandsAs};
ghost use Rattle.flush.specs.Flushed.{full_steps};
ghost use Rattle.hart_signals.specs.Starts.{HasBegun, HasFoundHeld, HasFoundStopped, IsOfStart};

use flush::flush_all;
use guest_ram::Port;
use step_laws::{hsm_word, opaque_word, start_word};
use tlb_entry::Book;
use tlb_lock::Busy;

/// Where a hart begins, and what it is given in a1.
#[derive(Clone, Copy, Debug, PartialEq, Eq)]
pub struct Start {
    pub at: u64,
    pub opaque: u64,
}

/// Lets a stopped hart begin, where another hart has started it (RISC-V SBI, "Hart State Management Extension"): its HSM is 2 then. It flushes
/// its TLB, loads START and OPAQUE, and stores 0 in its HSM. `None` where it wasn't started. `Err` says who holds its lock; it may try anew.
#[tactic(auto, using(guest_ram::proofs::Moves::actor_few))]
pub fn take_start<P: Port>(book: &mut Book, port: &mut P) -> Result<Option<Start>, Busy>
    requires beside { IsBeside book.old (P.shows port.old) }
    requires stopped { is_running (P.shows port.old).own.actor (P.shows port.old).own.runs (P.shows port.old).own.steps ≡ false }
    requires paid { is_owing (P.shows port.old).own.actor (P.shows port.old).own.steps ≡ false }
    ensures begun { IfOk result (λ taken. IfSome taken (λ start. HasBegun start (P.shows port.old) (P.shows port.new) book.old book.new)) }
    ensures none { IfOk result (λ taken. IfNone taken (HasFoundStopped (P.shows port.old) (P.shows port.new) book.old book.new)) }
    ensures busy { IfErr result (λ busy. HasFoundHeld busy.holder (P.shows port.old) (P.shows port.new) book.old book.new) }
    ensures beside { IsBeside book.new (P.shows port.new) }
    ensures goes { GoesBy (full_steps book.old.size + 4) IsOfStart (P.shows port.old) (P.shows port.new) }
{
    let own = port.actor();
    let state = hsm_word(own);
    if port.load(state) != 2 {
        return Ok(None);
    }
    match flush_all(book, port) {
        Err(busy) => Err(busy),
        Ok(()) => {
            let at = port.load(start_word(own));
            let opaque = port.load(opaque_word(own));
            port.store(state, 0);
            Ok(Some(Start { at, opaque }))
        }
    }
}
