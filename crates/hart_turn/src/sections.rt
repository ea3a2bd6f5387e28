// Where a hart stands between the others: it is called out, goes in, or goes alone.
ghost use Rattle.std.specs.Prelude.{◌≡◌, ◌≢◌, OnOk, IfErr, false};
ghost use Rattle.step_laws.specs.Output.{has_touched};
ghost use Rattle.step_laws.specs.Sections.{IsInSection};
ghost use Rattle.guest_ram.specs.Ports.{layout_of, GoesBy};
ghost use Rattle.exclusive.specs.Claims.{HasClaimed, HasFoundAllOut, HasFoundClaim, HasFoundInside};
ghost use Rattle.exclusive.specs.Entries.{HasEntered, HasTurnedBack};
ghost use Rattle.signal_pieces.specs.Signalling.{IsOfSides};
ghost use Rattle.hart_turn.specs.declared.hart.Claim.{Claim as TheClaim};
ghost use Rattle.hart_turn.specs.Harts.{GoesWith, IsStill, gone_in, is_made, wanting, with_claim};
ghost use Rattle.hart_turn.specs.Logs.{WorksOn};
ghost use Rattle.hart_turn.specs.Parts.{HasGoneAlone, HasSteppedOut, HasToWait};

use crate::hart::{Claim, Hart};
use exclusive::{all_out, claim, enter, leave};
use guest_ram::{Port, Seen};
use hart_signals::is_kicked;

/// For how many instructions a hart may stay inside.
pub(crate) const QUANTUM: u8 = 64;

/// Lets a hart that is inside look whether another has called it out; then it leaves.
pub(crate) fn step_out<P: Port>(hart: &mut Hart, port: &mut P)
    requires with { GoesWith hart.old (P.shows port.old) }
    ensures still { IsStill hart.old hart.new }
    ensures steps { HasSteppedOut hart.old hart.new (P.shows port.old) (P.shows port.new) }
    ensures with { GoesWith hart.new (P.shows port.new) }
    ensures part { WorksOn hart.old hart.new (P.shows port.old) (P.shows port.new) }
    ensures untouched { has_touched (P.shows port.old).own.steps ≡ false → has_touched (P.shows port.new).own.steps ≡ false }
    ensures goes { GoesBy 2 IsOfSides (P.shows port.old) (P.shows port.new) }
{
    if !hart.inside {
        return;
    }
    if !is_kicked(port) {
        return;
    }
    leave(port);
    hart.inside = false;
}

/// Lets a hart that is outside and wants no section go in, with a new quantum. `Err` where another claims the section: it stays outside.
pub(crate) fn go_in<P: Port>(hart: &mut Hart, port: &mut P) -> Result<(), Seen>
    requires with { GoesWith hart.old (P.shows port.old) }
    requires outside { hart.old.inside ≡ false }
    requires unclaimed { is_made hart.old.claim ≡ false }
    ensures entered { OnOk result (HasEntered (P.shows port.old) (P.shows port.new)) }
    ensures inside { OnOk result (hart.new ≡ gone_in hart.old) }
    ensures refused { IfErr result (λ seen. HasTurnedBack seen (P.shows port.old) (P.shows port.new)) }
    ensures stays { IfErr result (λ seen. hart.new ≡ hart.old) }
    ensures with { GoesWith hart.new (P.shows port.new) }
    ensures part { WorksOn hart.old hart.new (P.shows port.old) (P.shows port.new) }
    ensures goes { GoesBy 3 IsOfSides (P.shows port.old) (P.shows port.new) }
{
    match enter(port) {
        Err(seen) => Err(seen),
        Ok(()) => {
            hart.inside = true;
            hart.quantum = QUANTUM;
            Ok(())
        }
    }
}

/// Claims the section for a hart that wants it. `Err` where another has claimed it.
fn go_claim<P: Port>(hart: &mut Hart, port: &mut P) -> Result<(), Seen>
    requires with { GoesWith hart.old (P.shows port.old) }
    requires outside { hart.old.inside ≡ false }
    requires wanted { hart.old.claim ≡ TheClaim.Wanted }
    ensures claimed { OnOk result (HasClaimed (P.shows port.old) (P.shows port.new)) }
    ensures made { OnOk result (hart.new ≡ with_claim TheClaim.Made hart.old) }
    ensures refused { IfErr result (λ seen. HasFoundClaim seen (P.shows port.old) (P.shows port.new)) }
    ensures stays { IfErr result (λ seen. hart.new ≡ hart.old) }
    ensures with { GoesWith hart.new (P.shows port.new) }
    ensures part { WorksOn hart.old hart.new (P.shows port.old) (P.shows port.new) }
    ensures goes { GoesBy 9 IsOfSides (P.shows port.old) (P.shows port.new) }
{
    match claim(port) {
        Err(seen) => Err(seen),
        Ok(()) => {
            hart.claim = Claim::Made;
            Ok(())
        }
    }
}

/// Looks whether all others are outside, for a hart that has claimed the section: then it is in it. `Err` says who isn't.
fn look_around<P: Port>(hart: &Hart, port: &mut P) -> Result<(), Seen>
    requires with { GoesWith hart.now (P.shows port.old) }
    requires made { hart.now.claim ≡ TheClaim.Made }
    ensures alone { OnOk result (HasFoundAllOut (P.shows port.old) (P.shows port.new)) }
    ensures section { OnOk result (IsInSection (layout_of (P.shows port.new)) (P.shows port.new).own.actor (P.shows port.new).own.steps) }
    ensures waits { IfErr result (λ seen. HasFoundInside seen (P.shows port.old) (P.shows port.new)) }
    ensures with { GoesWith hart.now (P.shows port.new) }
    ensures part { WorksOn hart.now hart.now (P.shows port.old) (P.shows port.new) }
    ensures goes { GoesBy 9 IsOfSides (P.shows port.old) (P.shows port.new) }
{
    all_out(port)
}

/// Lets a hart that is outside and wants the section go on to it: it claims the section where it hasn't yet, and looks whether all others are
/// outside. `Err` where another has claimed it, or isn't outside: what was claimed stays claimed.
pub(crate) fn go_alone<P: Port>(hart: &mut Hart, port: &mut P) -> Result<(), Seen>
    requires with { GoesWith hart.old (P.shows port.old) }
    requires outside { hart.old.inside ≡ false }
    requires wanted { hart.old.claim ≢ TheClaim.Unwanted }
    ensures alone { OnOk result (HasGoneAlone hart.old (P.shows port.old) (P.shows port.new)) }
    ensures made { OnOk result (hart.new ≡ with_claim TheClaim.Made hart.old) }
    ensures section { OnOk result (IsInSection (layout_of (P.shows port.new)) (P.shows port.new).own.actor (P.shows port.new).own.steps) }
    ensures waits { IfErr result (λ seen. HasToWait seen hart.old hart.new (P.shows port.old) (P.shows port.new)) }
    ensures outside { hart.new.inside ≡ false }
    ensures with { GoesWith hart.new (P.shows port.new) }
    ensures part { WorksOn hart.old hart.new (P.shows port.old) (P.shows port.new) }
    ensures goes { GoesBy 18 IsOfSides (P.shows port.old) (P.shows port.new) }
{
    if hart.claim.is_made() {
        return look_around(hart, port);
    }
    match go_claim(hart, port) {
        Err(seen) => Err(seen),
        Ok(()) => look_around(hart, port),
    }
}

/// Says that the hart wants the section, in which its instruction is to be made anew. One that has claimed it keeps that.
pub(crate) fn want(hart: &mut Hart)
    ensures { hart.new ≡ wanting hart.old }
{
    if hart.claim.is_made() {
        return;
    }
    hart.claim = Claim::Wanted;
}
