// The execution of an instruction that was fetched.
ghost use Rattle.std.specs.Prelude.{◌≡◌, ◌+◌, ◌<◌, true};
ghost use Rattle.rv64_decode.specs.Encoding.{IsInRange};
ghost use Rattle.rv64_exec.specs.Plan.{need_of};
ghost use Rattle.step_laws.specs.Sections.{IsInSection, MayTouch};
ghost use Rattle.guest_ram.specs.Ports.{layout_of, GoesBy};
ghost use Rattle.flush.specs.Flushed.{full_steps};
ghost use Rattle.turn_pieces.specs.Draws.{may_draw};
ghost use Rattle.word_cache.specs.Cached.{DecodesOnly};
ghost use Rattle.need_serving.specs.Serving.{IsOfNeeds, IsServed};
ghost use Rattle.hart_turn.specs.declared.hart.Call.{Call as TheCall};
ghost use Rattle.hart_turn.specs.Harts.{GoesWith, is_made};
ghost use Rattle.hart_turn.specs.Executing.{ExecutesOn, HasExecuted, after_end, with_decoded};

use crate::hart::Hart;
use crate::planning::plan_of;
use guest_ram::Port;
use need_serving::{NeedEnd, serve_need};
use rv64_decode::Instr;
use rv64_exec::{Answer, finish};
use rv64_priv::{pc_of, trap};

/// The cause of an illegal instruction.
const ILLEGAL_INSTRUCTION: u64 = 2;

/// Executes the instruction that a hart has fetched, inside or in its section: serves what it needs, and finishes it with the answer, a fault's
/// too. Where the answer isn't there, the instruction is given up, and nothing of it is done.
pub(crate) fn execute<P: Port>(hart: &mut Hart, port: &mut P, instr: &Instr) -> NeedEnd
    requires with { GoesWith hart.old (P.shows port.old) }
    requires range { IsInRange instr.now }
    requires runs { hart.old.runs ≡ true }
    requires free { hart.old.call ≡ TheCall.Nothing }
    requires below { hart.old.count < hart.old.limit }
    requires touch { MayTouch (layout_of (P.shows port.old)) (P.shows port.old).own.actor (P.shows port.old).own.steps }
    requires alone { is_made hart.old.claim ≡ true → IsInSection (layout_of (P.shows port.old)) (P.shows port.old).own.actor (P.shows port.old).own.steps }
    requires draws { may_draw (P.shows port.old).own.steps ≡ true }
    ensures served { IsServed (P.shows port.old) (P.shows port.new) hart.old.book hart.new.book hart.old.arch (is_made hart.old.claim) (need_of hart.old.arch instr.now) result }
    ensures hart { hart.new ≡ after_end instr.now hart.new.book result hart.old }
    ensures with { GoesWith hart.new (P.shows port.new) }
    ensures below { hart.new.count < hart.new.limit }
    ensures part { ExecutesOn result instr.now hart.old hart.new (P.shows port.old) (P.shows port.new) }
    ensures goes { GoesBy (full_steps hart.old.book.size + 769) IsOfNeeds (P.shows port.old) (P.shows port.new) }
{
    let need = plan_of(&hart.arch, instr);
    let section = hart.claim.is_made();
    match serve_need(&mut hart.book, port, &hart.arch, &need, section) {
        NeedEnd::Done(answer) => {
            finish(&mut hart.arch, instr, answer);
            NeedEnd::Done(answer)
        }
        NeedEnd::Stopped => {
            finish(&mut hart.arch, instr, Answer::Nothing);
            hart.runs = false;
            NeedEnd::Stopped
        }
        NeedEnd::Fence { harts, span } => NeedEnd::Fence { harts, span },
        NeedEnd::Lost { word, seen, found } => NeedEnd::Lost { word, seen, found },
        NeedEnd::NeedsSection => NeedEnd::NeedsSection,
        NeedEnd::Busy(busy) => NeedEnd::Busy(busy),
    }
}

/// The instruction of the word that a hart has fetched; `None` where it is none.
fn decode_next(hart: &mut Hart, word: u32) -> Option<Instr>
    ensures decodes { DecodesOnly word result }
    ensures hart { hart.new ≡ with_decoded hart.new.decoded hart.old }
{
    hart.decoded.find(word, pc_of(&hart.arch))
}

/// Executes the word that a hart has fetched. One that is no instruction traps.
pub(crate) fn execute_word<P: Port>(hart: &mut Hart, port: &mut P, word: u32) -> NeedEnd
    requires with { GoesWith hart.old (P.shows port.old) }
    requires runs { hart.old.runs ≡ true }
    requires free { hart.old.call ≡ TheCall.Nothing }
    requires below { hart.old.count < hart.old.limit }
    requires touch { MayTouch (layout_of (P.shows port.old)) (P.shows port.old).own.actor (P.shows port.old).own.steps }
    requires alone { is_made hart.old.claim ≡ true → IsInSection (layout_of (P.shows port.old)) (P.shows port.old).own.actor (P.shows port.old).own.steps }
    requires draws { may_draw (P.shows port.old).own.steps ≡ true }
    ensures executed { HasExecuted word result hart.old hart.new (P.shows port.old) (P.shows port.new) }
    ensures with { GoesWith hart.new (P.shows port.new) }
    ensures below { hart.new.count < hart.new.limit }
    ensures goes { GoesBy (full_steps hart.old.book.size + 769) IsOfNeeds (P.shows port.old) (P.shows port.new) }
{
    match decode_next(hart, word) {
        Some(instr) => execute(hart, port, &instr),
        None => {
            let tval = u64::from(word);
            trap(&mut hart.arch, ILLEGAL_INSTRUCTION, tval);
            NeedEnd::Done(Answer::Fault {
                cause: ILLEGAL_INSTRUCTION,
                tval,
            })
        }
    }
}
