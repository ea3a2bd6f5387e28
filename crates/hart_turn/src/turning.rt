// A turn of a hart: its parts, one behind another.
ghost use Rattle.std.specs.Prelude.{◌≡◌, ◌<◌, false, true};
ghost use Rattle.step_laws.specs.Output.{has_touched};
ghost use Rattle.step_laws.specs.Sections.{IsInSection, MayTouch};
ghost use Rattle.guest_ram.specs.Areas.{AnyWord};
ghost use Rattle.guest_ram.specs.Ports.{GoesBy, layout_of};
ghost use Rattle.turn_pieces.specs.Draws.{may_draw};
ghost use Rattle.hart_turn.specs.declared.hart.Call.{Call as TheCall};
ghost use Rattle.hart_turn.specs.Harts.{GoesWith, IsSettled, is_made};
ghost use Rattle.hart_turn.specs.Logs.{Finishes, WorksToEnd};
ghost use Rattle.hart_turn.specs.Paths.{HasComeIn, HasGoneOn, HasGoneToWork, HasSettled, HasTurned, HasWoken, HasWorked, goes_on, keeps_section};
ghost use Rattle.hart_turn.specs.Turning.{IsGoingOn, LooksFirst, StaysInside, StaysOrEnds, TakesTurn, UnlessLocked};

use crate::beginning::begin;
use crate::ends::{Anew, TurnEnd, Wait4};
use crate::hart::{Call, Claim, Hart};
use crate::instructing::{instruct, resume};
use crate::leaving::{give_back, spend};
use crate::requests::serve_requests;
use crate::sections::{go_alone, go_in, step_out};
use crate::starting::start;
use guest_ram::Port;

/// Whether a hart stays inside behind a turn that ended so: it runs, has no call in progress, served no request, and goes on with its next
/// instruction.
fn goes_on(hart: &Hart, has_served: bool, end: &TurnEnd) -> bool
    ensures { result ≡ goes_on has_served end.now hart.now }
{
    let is_staying = matches!(
        *end,
        TurnEnd::Retired | TurnEnd::Trapped | TurnEnd::Again(Anew::Lost { .. })
    );
    let is_free = matches!(hart.call, Call::Nothing);
    hart.runs && is_free && !has_served && is_staying
}

/// Whether a hart keeps its section behind a turn that ended so: it waits for its own lock, to make its instruction anew.
fn keeps_section(hart: &Hart, end: &TurnEnd) -> bool
    ensures { result ≡ keeps_section end.now hart.now }
{
    let is_locked = matches!(*end, TurnEnd::Waiting(Wait4::Lock(_)));
    let is_free = matches!(hart.call, Call::Nothing);
    !hart.inside && is_free && is_locked
}

/// Lets a hart end a turn in which it was inside, or in its section, and which ended so. Inside it stays for the rest of its quantum, where it goes
/// on with the next instruction and served no request. The section is given back, but where the hart waits for its own lock to make its
/// instruction anew.
fn settle<P: Port>(hart: &mut Hart, port: &mut P, has_served: bool, end: &TurnEnd)
    requires with { GoesWith hart.old (P.shows port.old) }
    ensures path { HasSettled has_served end.now hart.old hart.new (P.shows port.old) (P.shows port.new) }
    ensures settled { IsSettled hart.new (P.shows port.new) }
    ensures section { UnlessLocked end.now (is_made hart.new.claim ≡ false) }
    ensures part { Finishes hart.old hart.new (P.shows port.old) (P.shows port.new) }
{
    if keeps_section(hart, end) {
        return;
    }
    if !hart.inside {
        give_back(hart, port);
        return;
    }
    let stays = goes_on(hart, has_served, end);
    spend(hart, port, stays);
}

/// Lets a hart that is inside, or in its section, make an instruction, and settles it.
fn work<P: Port>(hart: &mut Hart, port: &mut P, has_served: bool) -> TurnEnd
    requires with { GoesWith hart.old (P.shows port.old) }
    requires runs { hart.old.runs ≡ true }
    requires free { hart.old.call ≡ TheCall.Nothing }
    requires below { hart.old.count < hart.old.limit }
    requires touch { MayTouch (layout_of (P.shows port.old)) (P.shows port.old).own.actor (P.shows port.old).own.steps }
    requires alone { is_made hart.old.claim ≡ true → IsInSection (layout_of (P.shows port.old)) (P.shows port.old).own.actor (P.shows port.old).own.steps }
    requires draws { may_draw (P.shows port.old).own.steps ≡ true }
    ensures path { HasWorked has_served result hart.old hart.new (P.shows port.old) (P.shows port.new) }
    ensures going { IsGoingOn result }
    ensures settled { IsSettled hart.new (P.shows port.new) }
    ensures section { UnlessLocked result (is_made hart.new.claim ≡ false) }
    ensures part { WorksToEnd hart.old hart.new (P.shows port.old) (P.shows port.new) }
{
    let end = instruct(hart, port);
    settle(hart, port, has_served, &end);
    end
}

/// Lets a stopped hart begin where it was started.
fn wake<P: Port>(hart: &mut Hart, port: &mut P) -> TurnEnd
    requires with { GoesWith hart.old (P.shows port.old) }
    requires outside { hart.old.inside ≡ false }
    requires stopped { hart.old.runs ≡ false }
    ensures path { HasWoken hart.old hart.new (P.shows port.old) (P.shows port.new) result }
    ensures going { IsGoingOn result }
    ensures settled { IsSettled hart.new (P.shows port.new) }
    ensures part { WorksToEnd hart.old hart.new (P.shows port.old) (P.shows port.new) }
{
    match start(hart, port) {
        Err(busy) => TurnEnd::Waiting(Wait4::Lock(busy)),
        Ok(true) => TurnEnd::Started,
        Ok(false) => TurnEnd::Idle,
    }
}

/// Lets a hart that is outside and runs go in, or go alone where it wants the section, and then make an instruction.
fn go_to_work<P: Port>(hart: &mut Hart, port: &mut P, has_served: bool) -> TurnEnd
    requires with { GoesWith hart.old (P.shows port.old) }
    requires outside { hart.old.inside ≡ false }
    requires runs { hart.old.runs ≡ true }
    requires free { hart.old.call ≡ TheCall.Nothing }
    requires below { hart.old.count < hart.old.limit }
    requires draws { may_draw (P.shows port.old).own.steps ≡ true }
    ensures path { HasGoneToWork has_served hart.old hart.new (P.shows port.old) (P.shows port.new) result }
    ensures going { IsGoingOn result }
    ensures settled { IsSettled hart.new (P.shows port.new) }
    ensures part { WorksToEnd hart.old hart.new (P.shows port.old) (P.shows port.new) }
{
    if matches!(hart.claim, Claim::Unwanted) {
        return match go_in(hart, port) {
            Err(seen) => TurnEnd::Waiting(Wait4::Entry(seen)),
            Ok(()) => work(hart, port, has_served),
        };
    }
    match go_alone(hart, port) {
        Err(seen) => TurnEnd::Waiting(Wait4::Section(seen)),
        Ok(()) => work(hart, port, has_served),
    }
}

/// Lets a hart that is outside and served its requests go on: to its start, its fence in progress, or its next instruction.
fn come_in<P: Port>(hart: &mut Hart, port: &mut P, has_served: bool) -> TurnEnd
    requires with { GoesWith hart.old (P.shows port.old) }
    requires outside { hart.old.inside ≡ false }
    requires below { hart.old.count < hart.old.limit }
    requires draws { may_draw (P.shows port.old).own.steps ≡ true }
    ensures path { HasComeIn has_served result hart.old hart.new (P.shows port.old) (P.shows port.new) }
    ensures going { IsGoingOn result }
    ensures settled { IsSettled hart.new (P.shows port.new) }
    ensures part { WorksToEnd hart.old hart.new (P.shows port.old) (P.shows port.new) }
{
    if !hart.runs {
        return wake(hart, port);
    }
    match hart.call {
        Call::Nothing => go_to_work(hart, port, has_served),
        Call::Fence { harts, span, fence } => resume(hart, port, harts, span, fence),
    }
}

/// Lets a hart go on behind its look at STOP.
fn go_on<P: Port>(hart: &mut Hart, port: &mut P) -> TurnEnd
    requires settled { IsSettled hart.old (P.shows port.old) }
    requires below { hart.old.count < hart.old.limit }
    requires untouched { has_touched (P.shows port.old).own.steps ≡ false }
    requires draws { may_draw (P.shows port.old).own.steps ≡ true }
    ensures path { HasGoneOn hart.old hart.new (P.shows port.old) (P.shows port.new) result }
    ensures going { IsGoingOn result }
    ensures settled { IsSettled hart.new (P.shows port.new) }
    ensures part { WorksToEnd hart.old hart.new (P.shows port.old) (P.shows port.new) }
{
    step_out(hart, port);
    if hart.inside {
        return work(hart, port, false);
    }
    match serve_requests(hart, port) {
        Err(busy) => TurnEnd::Waiting(Wait4::Lock(busy)),
        Ok(has_served) => come_in(hart, port, has_served),
    }
}

/// A turn of a hart: it looks whether the machine ends, and then leaves for good. Inside, it leaves where another has called it out; outside, it serves
/// one request of each source that has one, and goes on with its start, its fence in progress, or goes in, or alone where it wants the section. There
/// it takes an interrupt, or fetches and makes its next instruction. It stays inside for up to 64 instructions. No step takes memory, and none waits:
/// the answer says for what the hart waits, and the next turn goes on there.
pub fn turn<P: Port>(hart: &mut Hart, port: &mut P) -> TurnEnd
    requires settled { IsSettled hart.old (P.shows port.old) }
    ensures looked { LooksFirst result (P.shows port.old) (P.shows port.new) }
    ensures settled { StaysOrEnds result hart.new (P.shows port.new) }
    ensures turn { TakesTurn hart.old hart.new (P.shows port.old) (P.shows port.new) }
    ensures inside { StaysInside result hart.old hart.new }
    ensures path { HasTurned hart.old hart.new (P.shows port.old) (P.shows port.new) result }
    ensures goes { GoesBy 41760 AnyWord (P.shows port.old) (P.shows port.new) }
{
    match begin(hart, port) {
        Some(reason) => TurnEnd::Ended(reason),
        None => go_on(hart, port),
    }
}
