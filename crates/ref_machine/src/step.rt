// A turn of a running hart by itself: all of it but the SBI's calls, which may touch other harts.
ghost use Rattle.std.specs.Prelude.{◌≡◌, ◌≢◌, ◌<◌, ◌/◌, ◌%◌, ◌^◌, ◌+◌, IsNone, IfSome, Ok, None, false};
ghost use Rattle.rv64_decode.specs.Encoding.{IsInRange};
ghost use Rattle.rv64_exec.specs.Alone.{is_alone};
ghost use Rattle.rv64_exec.specs.Widths.{IsWellFormedNeed};
ghost use Rattle.rv64_exec.specs.Finish.{Answers};
ghost use Rattle.rv64_exec.specs.Plan.{need_of};
ghost use Rattle.rv64_exec.specs.declared.needs.Need.{Need as TheNeed};
ghost use Rattle.rv64_priv.specs.declared.state.Kind.{Kind as TheKind};
ghost use Rattle.machine_model.specs.Access as access;
ghost use Rattle.machine_model.specs.Lawful.{is_pending};
ghost use Rattle.ref_machine.specs.OneTurn as one;
ghost use Rattle.ref_machine.specs.Given as given;
ghost use Rattle.ref_machine.specs.Given.{done_of, Is, IsCall, IsSlotBehind};
ghost use Rattle.ref_machine.specs.Translation.{IsWord};

use crate::atomics::Reserved;
use crate::decoder::Decoder;
use crate::hart::HartSlot;
use crate::shared::Shared;
use crate::translation::{Fault, fetch_place};
use machine_model::Reason;
use rv64_decode::Instr;
use rv64_exec::{Answer, Arch, Need, compute, finish_served, plan};
use rv64_priv::{takes_interrupts, trap};
use step_laws::RAM_BASE;

/// The cause of an illegal instruction, and of the supervisor's software interrupt.
const ILLEGAL_INSTRUCTION: u64 = 2;

const SOFTWARE_INTERRUPT: u64 = (1 << 63) + 1;

/// The half of a word of RAM that stands at a physical address.
#[inline]
pub(crate) fn half_at(word: u64, pa: u64) -> u32
    requires { pa % 4 ≡ 0 }
    ensures { result ≡ word / 256 ^ (pa % 8) % 2 ^ 32 }
{
    let half = if pa % 8 == 0 {
        word
    } else {
        word / 0x1_0000_0000
    };
    (half % 0x1_0000_0000) as u32
}

/// An enabled interrupt is pending.
#[inline]
pub(crate) fn is_interrupted(hart: u8, arch: &Arch, shared: &Shared) -> bool
    requires { hart < 8 }
    ensures { result ≡ is_pending arch.now hart shared.now.ipi }
{
    shared.is_pending(hart) && takes_interrupts(arch)
}

/// The hart's next word, where there is no translation.
#[inline(always)]
pub(crate) fn fetch_bare(arch: &Arch, shared: &Shared) -> Option<u32>
    ensures { IfSome result (λ word. IsWord shared.now.ram (access.spot_of TheKind.Fetch arch.now.pc (one.walk_end arch.now shared.now TheKind.Fetch arch.now.pc)) (Ok word)) }
{
    let index = shared.bare_place(arch, arch.pc)?;
    Some(half_at(shared.ram[index], arch.pc))
}

/// The hart's next word.
#[inline(never)]
pub(crate) fn fetch(arch: &Arch, shared: &Shared) -> Result<u32, Fault>
    ensures { IsWord shared.now.ram (access.spot_of TheKind.Fetch arch.now.pc (one.walk_end arch.now shared.now TheKind.Fetch arch.now.pc)) result }
{
    let pa = fetch_place(shared.ram.as_slice(), shared.layout.pages, arch, arch.pc)?;
    Ok(half_at(shared.ram[((pa - RAM_BASE) / 8) as usize], pa))
}

/// The turn of a running hart: an interrupt that is due, else its next instruction. Where that is a call of the SBI,
/// the call is answered and nothing was done.
#[inline]
pub(crate) fn step(
    hart: u8,
    slot: &mut HartSlot,
    shared: &mut Shared,
    decoder: &mut Decoder,
) -> Option<Instr>
    requires hart { hart < 8 }
    requires going { IsNone shared.old.reason }
    requires below { slot.old.count < shared.old.limit }
    ensures done { one.IsStep hart slot.old shared.old (done_of result slot.new shared.new) }
    ensures call { IfSome result (λ i. IsCall slot.old.arch i × (slot.new ≡ slot.old) × (shared.new ≡ shared.old)) }
    ensures kept { IsSlotBehind slot.old shared.old slot.new shared.new }
{
    if is_interrupted(hart, &slot.arch, shared) {
        trap(&mut slot.arch, SOFTWARE_INTERRUPT, 0);
        return None;
    }
    match fetch(&slot.arch, shared) {
        Ok(word) => execute(hart, slot, shared, decoder, word),
        Err(fault) => {
            take_fault(hart, slot, shared, fault.cause, fault.tval);
            None
        }
    }
}

/// Does the word's instruction, where it is no call; a word that is none traps.
#[inline]
fn execute(
    hart: u8,
    slot: &mut HartSlot,
    shared: &mut Shared,
    decoder: &mut Decoder,
    word: u32,
) -> Option<Instr>
    requires going { IsNone shared.old.reason }
    requires hart { hart < 8 }
    requires below { slot.old.count < shared.old.limit }
    ensures done { one.IsWordDone hart slot.old shared.old word (done_of result slot.new shared.new) }
    ensures call { IfSome result (λ i. IsCall slot.old.arch i × (slot.new ≡ slot.old) × (shared.new ≡ shared.old)) }
    ensures kept { IsSlotBehind slot.old shared.old slot.new shared.new }
{
    let Some(instr) = decoder.find(word, slot.arch.pc) else {
        take_fault(hart, slot, shared, ILLEGAL_INSTRUCTION, u64::from(word));
        return None;
    };
    if compute(&mut slot.arch, instr) {
        count(hart, slot, shared, None);
        return None;
    }
    let need = plan(&slot.arch, instr);
    if let Need::Sbi = need {
        return Some(*instr);
    }
    serve(hart, slot, shared, instr, need);
    None
}

/// Takes a fault that no instruction answers, and counts it.
fn take_fault(hart: u8, slot: &mut HartSlot, shared: &mut Shared, cause: u64, tval: u64)
    requires going { IsNone shared.old.reason }
    requires below { slot.old.count < shared.old.limit }
    ensures done { Is slot.new shared.new (one.faulted hart slot.old shared.old cause tval) }
    ensures kept { IsSlotBehind slot.old shared.old slot.new shared.new }
{
    trap(&mut slot.arch, cause, tval);
    count(hart, slot, shared, None);
}

/// Counts an instruction: at the limit that is the reason, where the instruction gave none itself.
#[inline]
pub(crate) fn count(hart: u8, slot: &mut HartSlot, shared: &mut Shared, reason: Option<Reason>)
    requires going { IsNone shared.old.reason }
    requires below { slot.old.count < shared.old.limit }
    ensures count { slot.new ≡ record slot.old { count = slot.old.count + 1 } }
    ensures reason { shared.new ≡ one.shared_after hart slot.old shared.old reason }
    ensures kept { IsSlotBehind slot.old shared.old slot.new shared.new }
{
    let limit = shared.limit;
    slot.count += 1;
    if reason.is_some() {
        shared.reason = reason;
    } else if slot.count == limit {
        shared.reason = Some(Reason::Limit(hart));
    }
}

#[inline(always)]
fn fault_answer(fault: Fault) -> Answer
    ensures { result ≡ given.fault_answer fault }
{
    let Fault { cause, tval } = fault;
    Answer::Fault { cause, tval }
}

/// The answer of a load, and of an atomic operation.
#[inline(always)]
fn value_answer(loaded: Result<u64, Fault>) -> Answer
    ensures { result ≡ given.load_answer loaded }
{
    match loaded {
        Ok(value) => Answer::Value(value),
        Err(fault) => fault_answer(fault),
    }
}

fn reserve_answer(loaded: Result<Reserved, Fault>) -> Answer
    ensures { result ≡ given.reserve_answer loaded }
{
    match loaded {
        Ok(Reserved { value, hold }) => Answer::LrValue { value, hold },
        Err(fault) => fault_answer(fault),
    }
}

fn conditional_answer(stored: Result<bool, Fault>) -> Answer
    ensures { result ≡ given.conditional_answer stored }
{
    match stored {
        Ok(stored) => Answer::Sc { stored },
        Err(fault) => fault_answer(fault),
    }
}

/// Does what an instruction needs, and finishes it.
#[inline]
fn serve(hart: u8, slot: &mut HartSlot, shared: &mut Shared, instr: &Instr, need: Need)
    requires going { IsNone shared.old.reason }
    requires hart { hart < 8 }
    requires below { slot.old.count < shared.old.limit }
    requires range { IsInRange instr.now }
    requires served { is_alone slot.old.arch instr.now ≡ false }
    requires form { IsWellFormedNeed need }
    requires need { need ≡ need_of slot.old.arch instr.now }
    requires other { need ≢ TheNeed.Sbi }
    ensures done { Is slot.new shared.new (one.retired hart slot.old instr.now (one.effect_of_need hart slot.old.arch shared.old need)) }
    ensures kept { IsSlotBehind slot.old shared.old slot.new shared.new }
{
    let mut reason = None;
    let answer = match need {
        Need::Load { va, width, signed } => value_answer(shared.load(
            &slot.arch, va, width, signed,
        )),
        Need::Store { va, width, value } => match shared.store(&slot.arch, va, width, value) {
            Ok(end) => {
                reason = end;
                Answer::Nothing
            }
            Err(fault) => fault_answer(fault),
        },
        Need::Amo {
            va,
            op,
            wide,
            value,
        } => value_answer(shared.operate(&slot.arch, va, op, wide, value)),
        Need::Lr { va, wide } => reserve_answer(shared.load_reserved(&slot.arch, va, wide)),
        Need::Sc { va, wide, value } => {
            conditional_answer(shared.store_conditional(&slot.arch, va, wide, value))
        }
        Need::Ipi { op } => Answer::Value(shared.change_ipi(hart, op)),
        Need::Trap { cause, tval } => Answer::Fault { cause, tval },
        Need::Nothing | Need::Flush(_) | Need::Sbi => Answer::Nothing,
    };
    finish_served(&mut slot.arch, instr, answer);
    count(hart, slot, shared, reason);
}
