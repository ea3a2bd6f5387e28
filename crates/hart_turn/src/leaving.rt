// The end of a turn: a hart that was alone gives the section back, and one inside leaves with the last of its quantum, or for good.
ghost use Rattle.std.specs.Prelude.{◌≡◌, false, true};
ghost use Rattle.step_laws.specs.Output.{is_finished};
ghost use Rattle.guest_ram.specs.Ports.{GoesBy};
ghost use Rattle.signal_pieces.specs.Signalling.{IsOfSides};
ghost use Rattle.hart_turn.specs.Harts.{GoesWith};
ghost use Rattle.hart_turn.specs.Logs.{Finishes};
ghost use Rattle.hart_turn.specs.Parts.{HasGivenBack, HasLeftForGood, HasSpent, HasSteppedAway, IsOfLeaving};

use crate::hart::{Claim, Hart};
use exclusive::{leave, release};
use guest_ram::Port;
use hart_signals::sign_off;

/// Counts an instruction of a hart inside: with the last of its quantum it leaves, and where it isn't to stay.
pub(crate) fn spend<P: Port>(hart: &mut Hart, port: &mut P, stays: bool)
    requires with { GoesWith hart.old (P.shows port.old) }
    requires inside { hart.old.inside ≡ true }
    ensures spent { HasSpent stays hart.old hart.new (P.shows port.old) (P.shows port.new) }
    ensures with { GoesWith hart.new (P.shows port.new) }
    ensures part { Finishes hart.old hart.new (P.shows port.old) (P.shows port.new) }
    ensures goes { GoesBy 1 IsOfSides (P.shows port.old) (P.shows port.new) }
{
    if stays && hart.quantum != 1 {
        hart.quantum -= 1;
        return;
    }
    leave(port);
    hart.inside = false;
    hart.quantum -= 1;
}

/// Gives the section back where it is claimed. The hart wants it no longer.
pub(crate) fn give_back<P: Port>(hart: &mut Hart, port: &mut P)
    requires with { GoesWith hart.old (P.shows port.old) }
    ensures given { HasGivenBack hart.old hart.new (P.shows port.old) (P.shows port.new) }
    ensures with { GoesWith hart.new (P.shows port.new) }
    ensures part { Finishes hart.old hart.new (P.shows port.old) (P.shows port.new) }
    ensures goes { GoesBy 1 IsOfSides (P.shows port.old) (P.shows port.new) }
{
    if !hart.claim.is_made() {
        hart.claim = Claim::Unwanted;
        return;
    }
    release(port);
    hart.claim = Claim::Unwanted;
}

/// Lets a hart that is inside leave, or gives the section back where it is claimed.
pub(crate) fn step_away<P: Port>(hart: &mut Hart, port: &mut P)
    requires with { GoesWith hart.old (P.shows port.old) }
    ensures away { HasSteppedAway hart.old hart.new (P.shows port.old) (P.shows port.new) }
    ensures outside { hart.new.inside ≡ false }
    ensures with { GoesWith hart.new (P.shows port.new) }
    ensures part { Finishes hart.old hart.new (P.shows port.old) (P.shows port.new) }
    ensures goes { GoesBy 1 IsOfSides (P.shows port.old) (P.shows port.new) }
{
    if !hart.inside {
        give_back(hart, port);
        return;
    }
    leave(port);
    hart.inside = false;
}

/// Lets a hart end with its machine: it leaves, or gives the section back, and only then makes its last step.
pub(crate) fn leave_for_good<P: Port>(hart: &mut Hart, port: &mut P)
    requires with { GoesWith hart.old (P.shows port.old) }
    ensures left { HasLeftForGood hart.old hart.new (P.shows port.old) (P.shows port.new) }
    ensures finished { is_finished (P.shows port.new).own.steps ≡ true }
    ensures part { Finishes hart.old hart.new (P.shows port.old) (P.shows port.new) }
    ensures goes { GoesBy 2 IsOfLeaving (P.shows port.old) (P.shows port.new) }
{
    step_away(hart, port);
    sign_off(port);
}
