// The start of a stopped hart.
ghost use Rattle.std.specs.Prelude.{◌≡◌, ◌+◌, IfErr, IfOk, false};
ghost use Rattle.guest_ram.specs.Ports.{GoesBy};
ghost use Rattle.flush.specs.Flushed.{full_steps};
ghost use Rattle.hart_signals.specs.Starts.{IsOfStart};
ghost use Rattle.hart_turn.specs.Harts.{GoesWith};
ghost use Rattle.hart_turn.specs.Logs.{WorksToEnd};
ghost use Rattle.hart_turn.specs.Parts.{HasHeldStart, HasStarted};

use crate::hart::{Hart, arch_at};
use guest_ram::Port;
use hart_signals::take_start;
use tlb_lock::Busy;

/// Lets a stopped hart begin where another has started it, behind a flush of its whole TLB. Answers whether it began. `Err` says who holds its
/// lock: it may try anew.
pub(crate) fn start<P: Port>(hart: &mut Hart, port: &mut P) -> Result<bool, Busy>
    requires with { GoesWith hart.old (P.shows port.old) }
    requires stopped { hart.old.runs ≡ false }
    ensures started { IfOk result (λ began. HasStarted hart.old hart.new (P.shows port.old) (P.shows port.new) began) }
    ensures held { IfErr result (λ busy. HasHeldStart busy.holder hart.old hart.new (P.shows port.old) (P.shows port.new)) }
    ensures stays { hart.new.inside ≡ hart.old.inside }
    ensures with { GoesWith hart.new (P.shows port.new) }
    ensures part { WorksToEnd hart.old hart.new (P.shows port.old) (P.shows port.new) }
    ensures goes { GoesBy (full_steps hart.old.book.size + 4) IsOfStart (P.shows port.old) (P.shows port.new) }
{
    match take_start(&mut hart.book, port) {
        Err(busy) => Err(busy),
        Ok(None) => Ok(false),
        Ok(Some(start)) => {
            hart.arch = arch_at(hart.number, start.at, start.opaque);
            hart.runs = true;
            Ok(true)
        }
    }
}
