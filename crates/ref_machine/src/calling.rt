// What the machine does for a call of the SBI.
ghost use Rattle.std.specs.Prelude.{◌≡◌, ◌≢◌, ◌<◌, ◌≤◌, ◌+◌, ◌*◌, ◌%◌, ◌^◌, ◌⊎◌, slice_set, length, vec_len, vec_capacity, ◌++◌, IsNone, ◌-◌};
ghost use Rattle.rv64_decode.specs.Encoding.{IsInRange};
ghost use Rattle.rv64_exec.specs.Finish.{Answers};
ghost use Rattle.rv64_exec.specs.Plan.{need_of};
ghost use Rattle.rv64_exec.specs.declared.needs.Need.{Need as TheNeed};
ghost use Rattle.rv64_exec.specs.declared.needs.Answer.{Answer as TheAnswer};
ghost use Rattle.ref_machine.specs.PlainState.{AreKept};
ghost use Rattle.ref_machine.specs.SharedState.{ram_memory};
ghost use Rattle.machine_model.specs.Change.{first_reason};
ghost use Rattle.ref_machine.specs.Slots.{slot_at, slot_awaited, slots_all_halted, slots_with_start};
ghost use Rattle.ref_machine.specs.OneTurn as one;
ghost use Rattle.machine_model.specs.Perform as perform;
ghost use Rattle.machine_model.specs.Sbi.{bytes_from, byte_at};
ghost use Rattle.ref_machine.specs.Calls as calls;
ghost use Rattle.ref_machine.specs.Given.{IsCall, IsServed, IsTargetIn, printed_answer, starts_of, stops_of};

use crate::calls::{Call, call_of};
use crate::hart::HartSlot;
use crate::shared::{CONSOLE_BYTES, Shared};
use machine_model::{Mode, Reason};
use rv64_decode::Instr;
use rv64_exec::{Answer, finish};
use step_laws::RAM_BASE;

/// What came of a call: its answer, and the reason that it gave to end the machine.
#[derive(Clone, Copy)]
pub(crate) struct Served {
    pub answer: Answer,
    pub reason: Option<Reason>,
}

/// A call that printed: where the console was full it has no answer.
fn printed(answer: Answer, reason: Option<Reason>) -> Served
    ensures { result ≡ record { answer = printed_answer answer reason; reason = reason } }
{
    let answer = if reason.is_none() {
        answer
    } else {
        Answer::Nothing
    };
    Served { answer, reason }
}

/// A byte of RAM.
fn byte_at(ram: &[u64], pa: u64) -> u8
    requires low { 2 ^ 31 ≤ pa }
    requires high { pa < 2 ^ 31 + 8 * length ram.now }
    ensures { result ≡ byte_at (ram_memory ram.now) pa }
{
    let word = ram[((pa - RAM_BASE) / 8) as usize];
    word.to_le_bytes()[(pa % 8) as usize]
}

/// Appends so many bytes of RAM to the console.
#[tactic(auto, using(crate::proofs::Printing::pushed_more))]
fn push_bytes(ram: &[u64], console: &mut Vec<u8>, from: u64, count: u64)
    requires bytes { (count ≡ 0) ⊎ ((2 ^ 31 ≤ from) × (from + count ≤ 2 ^ 31 + 8 * length ram.now)) }
    requires room { vec_len console.old + count ≤ vec_capacity console.old }
    ensures items { console.new.items ≡ console.old.items ++ bytes_from (ram_memory ram.now) from count }
    ensures capacity { vec_capacity console.old ≤ vec_capacity console.new }
    ensures len { vec_len console.new ≡ vec_len console.old + count }
{
    for index in 0..count {
        let _pushed = console.push(byte_at(ram, from + index));
    }
}

impl Shared {
    /// Prints bytes of RAM, as many as the console takes; where it doesn't take all, that is the reason.
    #[tactic(auto, using(crate::proofs::Printing::prints_all, crate::proofs::Printing::prints_some))]
    fn print_from(&mut self, from: u64, count: u64) -> Option<Reason>
        requires { (count ≡ 0) ⊎ ((2 ^ 31 ≤ from) × (from + count ≤ 2 ^ 31 + 4096 * self.old.layout.pages)) }
        ensures printed { (answer : TheAnswer) → one.effect_called self.old (perform.print_outcome (one.room self.old) (bytes_from (ram_memory self.old.ram) from count) answer) ≡ one.done_with self.new (printed_answer answer result) result }
        ensures rest { self.new ≡ record self.old { console = self.new.console } }
    {
        let room = (CONSOLE_BYTES - self.console.len()) as u64;
        if count <= room {
            push_bytes(self.ram.as_slice(), &mut self.console, from, count);
            return None;
        }
        push_bytes(self.ram.as_slice(), &mut self.console, from, room);
        Some(Reason::OutFull)
    }

    /// Does a call, but for what it does to harts.
    fn serve(&mut self, call: Call) -> Served
        requires { calls.IsSoundCall self.old.layout call }
        ensures served { IsServed self.old self.new call result }
        ensures form { Answers TheNeed.Sbi result.answer }
        ensures rest { self.new ≡ record self.old { ipi = self.new.ipi; console = self.new.console } }
    {
        match call {
            Call::Gives { error, value } => printed(Answer::Pair { error, value }, None),
            Call::GivesOne { error } => printed(Answer::Single(error.cast_unsigned()), None),
            Call::Prints { from, count } => {
                let reason = self.print_from(from, count);
                printed(
                    Answer::Pair {
                        error: 0,
                        value: count,
                    },
                    reason,
                )
            }
            Call::PrintsByte(byte) => {
                let reason = self.print(byte);
                printed(Answer::Pair { error: 0, value: 0 }, reason)
            }
            Call::PrintsOne(byte) => {
                let reason = self.print(byte);
                printed(Answer::Single(0), reason)
            }
            Call::Sends { mask } => {
                self.ipi |= mask;
                printed(Answer::Pair { error: 0, value: 0 }, None)
            }
            Call::Begins { .. } => printed(Answer::Pair { error: 0, value: 0 }, None),
            Call::Leaves => printed(Answer::Nothing, None),
            Call::EndsAll(reason) => printed(Answer::Nothing, Some(reason)),
        }
    }
}

/// Finishes a call of a hart, which may have stopped it.
fn finish_call(slots: &mut [HartSlot], hart: u8, instr: &Instr, answer: Answer, stops: bool)
    requires there { hart < length slots.old }
    requires few { (slot_at slots.old hart).count < 2 ^ 64 - 1 }
    requires call { IsCall (slot_at slots.old hart).arch instr.now }
    requires form { Answers TheNeed.Sbi answer }
    ensures { slots.new ≡ slice_set slots.old hart (one.slot_called (slot_at slots.old hart) instr.now answer stops) }
{
    let slot = &mut slots[usize::from(hart)];
    finish(&mut slot.arch, instr, answer);
    slot.count += 1;
    if stops {
        slot.mode = Mode::Halted;
    }
}

/// Leaves a hart's start pending; one that runs would go on, and no call names it.
fn start_hart(slots: &mut [HartSlot], target: u8, at: u64, opaque: u64)
    requires { target < length slots.old }
    ensures { slots.new ≡ slice_set slots.old target (slot_awaited (record { target = target; at = at; opaque = opaque }) (slot_at slots.old target)) }
{
    let slot = &mut slots[usize::from(target)];
    slot.mode = match slot.mode {
        Mode::Started => Mode::Started,
        Mode::Halted | Mode::Pending => Mode::Pending,
    };
    slot.start = at;
    slot.opaque = opaque;
}

/// Leaves pending the start of the hart that a call names.
fn start_named(slots: &mut [HartSlot], call: Call)
    requires { IsTargetIn (length slots.old) call }
    ensures { slots.new ≡ slots_with_start slots.old (starts_of call) }
{
    if let Call::Begins { target, at, opaque } = call {
        start_hart(slots, target, at, opaque);
    }
}

/// The call stops its hart.
fn stops(call: Call) -> bool
    ensures { result ≡ stops_of call }
{
    matches!(call, Call::Leaves)
}

/// No hart runs or is about to.
fn all_halted(slots: &[HartSlot]) -> bool
    ensures { result ≡ slots_all_halted slots.now }
{
    slots.iter().all(|slot| slot.mode == Mode::Halted)
}

/// The reason behind a call that gave this one: the call's own, that no hart is left, or the limit.
fn reason_behind(
    hart: u8,
    count: u64,
    limit: u64,
    slots: &[HartSlot],
    reason: Option<Reason>,
    stops: bool,
) -> Option<Reason>
    ensures reason { result ≡ one.limited hart count limit (first_reason reason (one.last_stopped slots.now stops)) }
    ensures none { IsNone result → count ≢ limit }
{
    if reason.is_some() {
        return reason;
    }
    if stops && all_halted(slots) {
        return Some(Reason::AllStopped);
    }
    if count == limit {
        Some(Reason::Limit(hart))
    } else {
        None
    }
}

/// Does a call of a hart and finishes it.
#[inline(never)]
pub(crate) fn take_call(hart: u8, slots: &mut [HartSlot], shared: &mut Shared, instr: &Instr)
    requires there { hart < shared.old.layout.harts }
    requires all { length slots.old ≡ shared.old.layout.harts }
    requires going { IsNone shared.old.reason }
    requires below { (slot_at slots.old hart).count < shared.old.limit }
    requires call { IsCall (slot_at slots.old hart).arch instr.now }
    ensures slots { slots.new ≡ one.slots_called slots.old hart instr.now (one.effect_of_call shared.old (one.call_of slots.old shared.old hart)) }
    ensures shared { shared.new ≡ one.shared_called slots.new (slot_at slots.old hart) hart (one.effect_of_call shared.old (one.call_of slots.old shared.old hart)) }
    ensures len { length slots.new ≡ length slots.old }
    ensures layout { shared.new.layout ≡ shared.old.layout }
    ensures kept { AreKept shared.old slots.old → AreKept shared.new slots.new }
{
    let limit = shared.limit;
    let slot = slots[usize::from(hart)];
    let count = slot.count + 1;
    let call = call_of(shared.layout, slots, &slot.arch);
    let served = shared.serve(call);
    finish_call(slots, hart, instr, served.answer, stops(call));
    start_named(slots, call);
    shared.reason = reason_behind(hart, count, limit, slots, served.reason, stops(call));
}
