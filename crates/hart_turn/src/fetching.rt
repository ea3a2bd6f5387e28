// The fetch of the next word of code.
ghost use Rattle.std.specs.Prelude.{◌≡◌, true};
ghost use Rattle.rv64_priv.specs.Csr.{regime};
ghost use Rattle.step_laws.specs.Sections.{MayTouch};
ghost use Rattle.guest_ram.specs.Ports.{layout_of, GoesBy};
ghost use Rattle.tlb_fill.specs.Stepping.{IsOfFill};
ghost use Rattle.code_fetch.specs.Fetching.{HasFetched};
ghost use Rattle.hart_turn.specs.declared.hart.Call.{Call as TheCall};
ghost use Rattle.hart_turn.specs.Harts.{GoesWith};
ghost use Rattle.hart_turn.specs.Executing.{FetchesOn, after_fetch};

use crate::hart::Hart;
use code_fetch::{Fetched, fetch};
use guest_ram::Port;
use rv64_priv::trap;

/// Fetches the word at pc, for a hart that runs and found no interrupt that it takes, inside or in its section. Behind a fault it has trapped.
pub(crate) fn fetch_code<P: Port>(hart: &mut Hart, port: &mut P) -> Fetched
    requires with { GoesWith hart.old (P.shows port.old) }
    requires free { hart.old.call ≡ TheCall.Nothing }
    requires touch { MayTouch (layout_of (P.shows port.old)) (P.shows port.old).own.actor (P.shows port.old).own.steps }
    ensures fetched { HasFetched (P.shows port.old) (P.shows port.new) hart.old.book hart.new.book (regime hart.old.arch) hart.old.arch.pc result }
    ensures hart { hart.new ≡ after_fetch result hart.new.book hart.old }
    ensures with { GoesWith hart.new (P.shows port.new) }
    ensures touch { MayTouch (layout_of (P.shows port.new)) (P.shows port.new).own.actor (P.shows port.new).own.steps }
    ensures part { FetchesOn result hart.old hart.new (P.shows port.old) (P.shows port.new) }
    ensures goes { GoesBy 16 IsOfFill (P.shows port.old) (P.shows port.new) }
{
    match fetch(&mut hart.book, port, &hart.arch) {
        Fetched::Word(word) => Fetched::Word(word),
        Fetched::Busy(busy) => Fetched::Busy(busy),
        Fetched::Fault { cause, tval } => {
            trap(&mut hart.arch, cause, tval);
            Fetched::Fault { cause, tval }
        }
    }
}
