// An instruction of a hart, from its look at interrupts to its count.
ghost use Rattle.std.specs.Prelude.{◌≡◌, ◌<◌, true};
ghost use Rattle.step_laws.specs.Sections.{IsInSection, MayTouch};
ghost use Rattle.guest_ram.specs.Ports.{layout_of};
ghost use Rattle.code_fetch.specs.declared.fetching.Fetched.TheVariants as comes;
ghost use Rattle.turn_pieces.specs.Draws.{may_draw};
ghost use Rattle.turn_pieces.specs.Grows.{Part};
ghost use Rattle.hart_turn.specs.declared.hart.Call.{Call as TheCall};
ghost use Rattle.hart_turn.specs.Harts.{GoesWith, is_made};
ghost use Rattle.hart_turn.specs.Executing.{HasEndedWord};
ghost use Rattle.hart_turn.specs.Logs.{WorksToEnd};
ghost use Rattle.hart_turn.specs.Paths.{HasInstructed, HasMadeOf, HasResumed, end_of};
ghost use Rattle.hart_turn.specs.Turning.{IsGoingOn};

use crate::counting::count_up;
use crate::ends::{Anew, TurnEnd, Wait4};
use crate::executing::execute_word;
use crate::fencing::{begin_fence, go_on_with_fence};
use crate::fetching::fetch_code;
use crate::hart::Hart;
use crate::interrupts::take_interrupt;
use crate::sections::want;
use code_fetch::Fetched;
use guest_ram::Port;
use hart_calls::Span;
use need_serving::NeedEnd;
use rv64_exec::Answer;
use sbi_calls::Fence;

/// The word of WFI.
const WAIT_FOR_INTERRUPT: u32 = 0x1050_0073;

/// How a turn ends in which this word was executed with this answer.
fn end_of(word: u32, answer: &Answer) -> TurnEnd
    ensures end { result ≡ end_of word answer.now }
    ensures going { IsGoingOn result }
{
    match answer {
        Answer::Fault { .. } => TurnEnd::Trapped,
        _ if word == WAIT_FOR_INTERRUPT => TurnEnd::Rested,
        _ => TurnEnd::Retired,
    }
}

/// Lets a hart go on with its fence in progress, and counts the call once that is done.
pub(crate) fn resume<P: Port>(
    hart: &mut Hart,
    port: &mut P,
    harts: u64,
    span: Span,
    fence: Fence,
) -> TurnEnd
    requires with { GoesWith hart.old (P.shows port.old) }
    requires call { hart.old.call ≡ TheCall.Fence harts span fence }
    requires below { hart.old.count < hart.old.limit }
    ensures path { HasResumed harts span fence hart.old hart.new (P.shows port.old) (P.shows port.new) result }
    ensures stays { hart.new.inside ≡ hart.old.inside }
    ensures going { IsGoingOn result }
    ensures with { GoesWith hart.new (P.shows port.new) }
    ensures part { WorksToEnd hart.old hart.new (P.shows port.old) (P.shows port.new) }
{
    match go_on_with_fence(hart, port, harts, span, fence) {
        Err(wait) => TurnEnd::Waiting(wait),
        Ok(()) => {
            count_up(hart, port);
            TurnEnd::Retired
        }
    }
}

/// Executes the word that a hart has fetched, and counts it; one that asks for a fence begins that.
fn carry_out<P: Port>(hart: &mut Hart, port: &mut P, word: u32) -> TurnEnd
    requires with { GoesWith hart.old (P.shows port.old) }
    requires runs { hart.old.runs ≡ true }
    requires free { hart.old.call ≡ TheCall.Nothing }
    requires below { hart.old.count < hart.old.limit }
    requires touch { MayTouch (layout_of (P.shows port.old)) (P.shows port.old).own.actor (P.shows port.old).own.steps }
    requires alone { is_made hart.old.claim ≡ true → IsInSection (layout_of (P.shows port.old)) (P.shows port.old).own.actor (P.shows port.old).own.steps }
    requires draws { may_draw (P.shows port.old).own.steps ≡ true }
    ensures path { HasMadeOf hart.old hart.new (P.shows port.old) (P.shows port.new) (comes.Word word) result }
    ensures going { IsGoingOn result }
    ensures with { GoesWith hart.new (P.shows port.new) }
    ensures ended { HasEndedWord word hart.old hart.new (P.shows port.old) (P.shows port.new) }
{
    match execute_word(hart, port, word) {
        NeedEnd::Done(answer) => {
            count_up(hart, port);
            end_of(word, &answer)
        }
        NeedEnd::Stopped => {
            count_up(hart, port);
            TurnEnd::Retired
        }
        NeedEnd::Fence { harts, span } => {
            begin_fence(hart, harts, span);
            let fence = Fence {
                posted: [0; 16],
                acked: [0; 16],
            };
            resume(hart, port, harts, span, fence)
        }
        NeedEnd::Lost { word, seen, found } => TurnEnd::Again(Anew::Lost { word, seen, found }),
        NeedEnd::NeedsSection => {
            want(hart);
            TurnEnd::Again(Anew::Section)
        }
        NeedEnd::Busy(busy) => TurnEnd::Waiting(Wait4::Lock(busy)),
    }
}

/// Lets a hart that runs make an instruction, inside or in its section: it takes an interrupt where one is pending and enabled, and else fetches and
/// executes its next word.
pub(crate) fn instruct<P: Port>(hart: &mut Hart, port: &mut P) -> TurnEnd
    requires with { GoesWith hart.old (P.shows port.old) }
    requires runs { hart.old.runs ≡ true }
    requires free { hart.old.call ≡ TheCall.Nothing }
    requires below { hart.old.count < hart.old.limit }
    requires touch { MayTouch (layout_of (P.shows port.old)) (P.shows port.old).own.actor (P.shows port.old).own.steps }
    requires alone { is_made hart.old.claim ≡ true → IsInSection (layout_of (P.shows port.old)) (P.shows port.old).own.actor (P.shows port.old).own.steps }
    requires draws { may_draw (P.shows port.old).own.steps ≡ true }
    ensures path { HasInstructed hart.old hart.new (P.shows port.old) (P.shows port.new) result }
    ensures going { IsGoingOn result }
    ensures with { GoesWith hart.new (P.shows port.new) }
    ensures part { WorksToEnd hart.old hart.new (P.shows port.old) (P.shows port.new) }
{
    if take_interrupt(hart, port) {
        return TurnEnd::Trapped;
    }
    match fetch_code(hart, port) {
        Fetched::Busy(busy) => TurnEnd::Waiting(Wait4::Lock(busy)),
        Fetched::Fault { .. } => {
            count_up(hart, port);
            TurnEnd::Trapped
        }
        Fetched::Word(word) => carry_out(hart, port, word),
    }
}
