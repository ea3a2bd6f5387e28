// The begin of a turn.
ghost use Rattle.std.specs.Prelude.{◌≡◌, ◌<◌, IfNone, IfSome, false, true};
ghost use Rattle.step_laws.specs.Output.{has_touched, is_finished};
ghost use Rattle.guest_ram.specs.Ports.{GoesBy};
ghost use Rattle.turn_pieces.specs.Draws.{may_draw};
ghost use Rattle.hart_signals.specs.Signals.{HasFoundNoReason};
ghost use Rattle.hart_turn.specs.Harts.{GoesWith};
ghost use Rattle.hart_turn.specs.Logs.{Begins, BeginsAndEnds};
ghost use Rattle.hart_turn.specs.Parts.{HasEnded, IsOfBegin};

use crate::hart::Hart;
use crate::leaving::leave_for_good;
use guest_ram::Port;
use hart_signals::begin_turn;
use machine_model::Reason;

/// Begins a turn: looks at STOP. Where the machine ends, the hart leaves for good, and the answer is the reason.
pub(crate) fn begin<P: Port>(hart: &mut Hart, port: &mut P) -> Option<Reason>
    requires with { GoesWith hart.old (P.shows port.old) }
    ensures looked { IfNone result (HasFoundNoReason (P.shows port.old) (P.shows port.new)) }
    ensures stays { IfNone result (hart.new ≡ hart.old) }
    ensures with { IfNone result (GoesWith hart.new (P.shows port.new)) }
    ensures below { IfNone result (hart.new.count < hart.new.limit) }
    ensures untouched { IfNone result (has_touched (P.shows port.new).own.steps ≡ false) }
    ensures draws { IfNone result (may_draw (P.shows port.new).own.steps ≡ true) }
    ensures part { IfNone result (Begins hart.old (P.shows port.old) (P.shows port.new)) }
    ensures ended { IfSome result (λ reason. HasEnded reason hart.old hart.new (P.shows port.old) (P.shows port.new)) }
    ensures finished { IfSome result (λ reason. is_finished (P.shows port.new).own.steps ≡ true) }
    ensures end_part { IfSome result (λ reason. BeginsAndEnds hart.old hart.new (P.shows port.old) (P.shows port.new)) }
    ensures goes { GoesBy 3 IsOfBegin (P.shows port.old) (P.shows port.new) }
{
    match begin_turn(port) {
        None => None,
        Some(reason) => {
            leave_for_good(hart, port);
            Some(reason)
        }
    }
}
