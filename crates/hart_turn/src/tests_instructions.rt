// Instructions by passes of a real table: what a hart and its words are behind fetches, executions, the limit and a remote fence.
ghost use Rattle.std.specs.Prelude.{◌≡◌, ◌%◌, ◌<◌, ◌≤◌, IfOk, IfSome, false, length, true};
ghost use Rattle.step_laws.specs.Output.{has_touched};
ghost use Rattle.step_laws.specs.Sections.{IsInSection, MayTouch};
ghost use Rattle.step_laws.specs.Steps.{words_of};
ghost use Rattle.guest_ram.specs.Ports.{layout_of};
ghost use Rattle.guest_ram.specs.Shown.{all_words};
ghost use Rattle.guest_ram_cases.specs.Tours.{IsFresh, IsSameSeat};
ghost use Rattle.turn_pieces.specs.Draws.{may_draw};
ghost use Rattle.hart_turn.specs.declared.hart.Call.{Call as TheCall};
ghost use Rattle.hart_turn.specs.Harts.{GoesWith, IsStill, is_made};

use crate::beginning::begin;
use crate::counting::count_up;
use crate::executing::execute_word;
use crate::fetching::fetch_code;
use crate::hart::{Call, Claim, Hart};
use crate::leaving::step_away;
use crate::requests::serve_requests;
use crate::sections::{go_alone, go_in, want};
use crate::tests::{LAYOUT, hart_with, registers};
use code_fetch::Fetched;
use guest_ram::{Port, Words};
use guest_ram_cases::{Seats, close_seats, open_seats};
use need_serving::NeedEnd;
use rv64_exec::{Answer, Arch};
use std::alloc::Global;
use std::test::Fail;
use step_laws::{
    NoMemory, kick_word, lock_word, pend_word, place_word, ram_word_at, run_word, stop_word,
};
use work_queue::{Request, Sent, post};

/// The hart goes in, or alone where it wants the section. Whether it may fetch then.
pub(crate) fn stand<P: Port>(hart: &mut Hart, port: &mut P) -> bool
    requires with { GoesWith hart.old (P.shows port.old) }
    requires draws { may_draw (P.shows port.old).own.steps ≡ true }
    ensures with { GoesWith hart.new (P.shows port.new) }
    ensures touch { result ≡ true → MayTouch (layout_of (P.shows port.new)) (P.shows port.new).own.actor (P.shows port.new).own.steps }
    ensures alone { result ≡ true → is_made hart.new.claim ≡ true → IsInSection (layout_of (P.shows port.new)) (P.shows port.new).own.actor (P.shows port.new).own.steps }
    ensures draws { may_draw (P.shows port.new).own.steps ≡ true }
    ensures still { IsStill hart.old hart.new }
    ensures seat { IsSameSeat (P.shows port.old) (P.shows port.new) }
{
    if hart.inside {
        return true;
    }
    if hart.claim == Claim::Unwanted {
        return go_in(hart, port).is_ok();
    }
    go_alone(hart, port).is_ok()
}

/// The hart fetches the word at pc and executes it. What that came to, a fault of the fetch too; `None` where its lock was found held.
fn make<P: Port>(hart: &mut Hart, port: &mut P) -> Option<NeedEnd>
    requires with { GoesWith hart.old (P.shows port.old) }
    requires runs { hart.old.runs ≡ true }
    requires free { hart.old.call ≡ TheCall.Nothing }
    requires below { hart.old.count < hart.old.limit }
    requires touch { MayTouch (layout_of (P.shows port.old)) (P.shows port.old).own.actor (P.shows port.old).own.steps }
    requires alone { is_made hart.old.claim ≡ true → IsInSection (layout_of (P.shows port.old)) (P.shows port.old).own.actor (P.shows port.old).own.steps }
    requires draws { may_draw (P.shows port.old).own.steps ≡ true }
    ensures with { GoesWith hart.new (P.shows port.new) }
    ensures seat { IsSameSeat (P.shows port.old) (P.shows port.new) }
{
    match fetch_code(hart, port) {
        Fetched::Word(word) => Some(execute_word(hart, port, word)),
        Fetched::Fault { cause, tval } => Some(NeedEnd::Done(Answer::Fault { cause, tval })),
        Fetched::Busy(_) => None,
    }
}

/// Behind an instruction: one that was executed is counted, and one that needs the section lets its hart leave and want that.
fn settle<P: Port>(hart: &mut Hart, port: &mut P, end: &NeedEnd)
    requires with { GoesWith hart.old (P.shows port.old) }
    ensures with { GoesWith hart.new (P.shows port.new) }
    ensures seat { IsSameSeat (P.shows port.old) (P.shows port.new) }
{
    match end {
        NeedEnd::Done(_) | NeedEnd::Stopped => {
            if hart.count < hart.limit {
                count_up(hart, port);
            }
        }
        NeedEnd::NeedsSection => {
            step_away(hart, port);
            if !hart.claim.is_made() {
                want(hart);
            }
        }
        _ => {}
    }
}

/// One instruction of a hart that runs. What it came to; `None` where it came to none.
fn instruct<P: Port>(hart: &mut Hart, port: &mut P) -> Option<NeedEnd>
    requires with { GoesWith hart.old (P.shows port.old) }
    ensures with { IfSome result (λ end. GoesWith hart.new (P.shows port.new)) }
    ensures seat { IsSameSeat (P.shows port.old) (P.shows port.new) }
{
    if begin(hart, port).is_some() {
        return None;
    }
    if !stand(hart, port) || !hart.runs || hart.call != Call::Nothing {
        return None;
    }
    make(hart, port)
}

/// So many instructions, each settled. What the last one came to.
fn play<P: Port>(hart: &mut Hart, port: &mut P, count: u8) -> Option<NeedEnd>
    requires with { GoesWith hart.old (P.shows port.old) }
    ensures seat { IsSameSeat (P.shows port.old) (P.shows port.new) }
{
    let mut last = None;
    for _ in 0..count {
        let end = instruct(hart, port)?;
        settle(hart, port, &end);
        last = Some(end);
    }
    last
}

/// What so many instructions of hart 0 came to, the hart behind them, and the machine's words. Two instructions stand in RAM from 0x8000_0080 on.
fn scene(
    alloc: Global,
    code: u64,
    arch: &Arch,
    limit: u64,
    count: u8,
) -> Result<(Option<NeedEnd>, Hart, Words), NoMemory>
    requires limit { 0 < limit }
    ensures count { IfOk result (λ made. length (all_words made.2) ≡ words_of (record { harts = 2; pages = 256 })) }
{
    let Seats {
        table,
        loader,
        first,
        second,
        monitor,
    } = open_seats(alloc, LAYOUT, code)?;
    let mut pass = first.pass(&table);
    let mut hart = hart_with(0, arch, limit);
    let end = play(&mut hart, &mut pass, count);
    let first = pass.rest();
    let words = close_seats(table, loader, first, second, monitor);
    Ok((end, hart, words))
}

/// Registers in supervisor mode without translation, with these numbers in x6 and x7.
fn at(pc: u64, sixth: u64, seventh: u64) -> Arch
    requires { pc % 4 ≡ 0 }
{
    let mut x = [0; 32];
    x[6] = sixth;
    x[7] = seventh;
    Arch {
        x,
        pc,
        user: false,
        sstatus: 0,
        sie: 0,
        stvec: 0x8000_0400,
        sscratch: 0,
        sepc: 0,
        scause: 0,
        stval: 0,
        satp: 0,
        hold: None,
    }
}

/// It was executed, with no answer.
fn is_done(end: Option<NeedEnd>) -> bool {
    matches!(end, Some(NeedEnd::Done(Answer::Nothing)))
}

/// It has trapped by this fault.
fn is_fault(end: Option<NeedEnd>, wanted: (u64, u64)) -> bool {
    match end {
        Some(NeedEnd::Done(Answer::Fault { cause, tval })) => (cause, tval) == wanted,
        _ => false,
    }
}

// Cause 1: instruction access fault.
#[test]
fn a_fetch_outside_ram_traps(rt: HostRuntime) -> Result<(), Fail> {
    let (end, hart, words) = scene(rt.alloc(), 0, &at(0x1000, 0, 0), 5, 1)?;
    assert!(rt; is_fault(end, (1, 0x1000)));
    assert_eq!(rt; hart.arch.scause, 1);
    assert_eq!(rt; hart.arch.stval, 0x1000);
    assert_eq!(rt; hart.arch.sepc, 0x1000);
    assert_eq!(rt; hart.arch.pc, 0x8000_0400);
    assert_eq!(rt; hart.count, 1);
    assert_eq!(rt; words.get(run_word(0)), 1);
    Ok(())
}

// ADDI x5, x0, 7.
#[test]
fn a_sum_is_executed(rt: HostRuntime) -> Result<(), Fail> {
    let (end, hart, words) = scene(rt.alloc(), 0x0070_0293, &at(0x8000_0080, 3, 4), 5, 1)?;
    assert!(rt; is_done(end));
    let mut x = [0; 32];
    x[5] = 7;
    x[6] = 3;
    x[7] = 4;
    assert_eq!(rt; hart.arch.x, x);
    assert_eq!(rt; hart.arch.pc, 0x8000_0084);
    assert_eq!(rt; hart.count, 1);
    assert_eq!(rt; words.get(stop_word()), 0);
    assert_eq!(rt; words.get(lock_word(0)), 0);
    Ok(())
}

// Cause 2: illegal instruction.
#[test]
fn a_word_that_is_no_instruction_traps(rt: HostRuntime) -> Result<(), Fail> {
    let (end, hart, _) = scene(rt.alloc(), 0, &at(0x8000_0080, 3, 4), 5, 1)?;
    assert!(rt; is_fault(end, (2, 0)));
    assert_eq!(rt; hart.arch.scause, 2);
    assert_eq!(rt; hart.arch.stval, 0);
    assert_eq!(rt; hart.arch.sepc, 0x8000_0080);
    assert_eq!(rt; hart.arch.pc, 0x8000_0400);
    assert_eq!(rt; hart.count, 1);
    Ok(())
}

// SD x6, 0(x7), at 0x8000_0200, whose word of RAM is the 64th.
#[test]
fn a_store_leaves_its_word(rt: HostRuntime) -> Result<(), Fail> {
    let old = at(0x8000_0080, 0x1122_3344_5566_7788, 0x8000_0200);
    let (end, hart, words) = scene(rt.alloc(), 0x0063_b023, &old, 5, 1)?;
    assert!(rt; is_done(end));
    assert_eq!(rt; hart.arch.x, old.x);
    assert_eq!(rt; hart.arch.pc, 0x8000_0084);
    assert_eq!(rt; words.get(ram_word_at(64)), 0x1122_3344_5566_7788);
    assert_eq!(rt; words.get(ram_word_at(65)), 0);
    assert_eq!(rt; words.get(ram_word_at(16)), 0x0063_b023);
    Ok(())
}

// SD x6, 0(x7) stores ADDI x5, x0, 7 over itself, JAL x0, -4 goes back there.
#[test]
fn new_code_is_executed_where_old_code_stood(rt: HostRuntime) -> Result<(), Fail> {
    let code = 0xffdf_f06f_0063_b023;
    let over = 0xffdf_f06f_0070_0293;
    let old = at(0x8000_0080, over, 0x8000_0080);
    for (count, pc, fifth) in [
        (1, 0x8000_0084, 0),
        (2, 0x8000_0080, 0),
        (3, 0x8000_0084, 7),
    ] {
        let (end, hart, words) = scene(rt.alloc(), code, &old, 5, count)?;
        assert!(rt; is_done(end));
        assert_eq!(rt; hart.arch.pc, pc);
        assert_eq!(rt; hart.arch.x[5], fifth);
        assert_eq!(rt; hart.count, u64::from(count));
        assert_eq!(rt; words.get(ram_word_at(16)), over);
    }
    Ok(())
}

// SD x6, 0(x7), at 0x8000_0204: the upper half of one word of RAM and the lower half of the next.
#[test]
fn a_crossing_store_needs_the_section(rt: HostRuntime) -> Result<(), Fail> {
    let old = at(0x8000_0080, 0x1122_3344_5566_7788, 0x8000_0204);
    let (end, hart, words) = scene(rt.alloc(), 0x0063_b023, &old, 5, 1)?;
    assert!(rt; matches!(end, Some(NeedEnd::NeedsSection)));
    assert_eq!(rt; hart.arch.x, old.x);
    assert_eq!(rt; hart.arch.pc, 0x8000_0080);
    assert_eq!(rt; hart.arch.scause, 0);
    assert_eq!(rt; hart.count, 0);
    assert!(rt; hart.claim == Claim::Wanted);
    assert_eq!(rt; words.get(ram_word_at(64)), 0);
    assert_eq!(rt; words.get(ram_word_at(65)), 0);
    assert_eq!(rt; words.get(run_word(0)), 0);
    assert_eq!(rt; words.get(pend_word()), 0);
    let (again, alone, stored) = scene(rt.alloc(), 0x0063_b023, &old, 5, 2)?;
    assert!(rt; is_done(again));
    assert_eq!(rt; alone.arch.x, old.x);
    assert_eq!(rt; alone.arch.pc, 0x8000_0084);
    assert_eq!(rt; alone.count, 1);
    assert!(rt; alone.claim == Claim::Made);
    assert_eq!(rt; stored.get(ram_word_at(64)), 0x5566_7788_0000_0000);
    assert_eq!(rt; stored.get(ram_word_at(65)), 0x1122_3344);
    assert_eq!(rt; stored.get(run_word(0)), 0);
    // hart 0 claims it, by its number and 1
    assert_eq!(rt; stored.get(pend_word()), 1);
    Ok(())
}

// STOP: 3 for a limit, and 256 times the hart's number.
#[test]
fn the_limit_is_said_in_the_turn_that_comes_to_it(rt: HostRuntime) -> Result<(), Fail> {
    for (limit, stop) in [(1, 3), (2, 0)] {
        let old = at(0x8000_0080, 0, 0);
        let (end, hart, words) = scene(rt.alloc(), 0x0070_0293, &old, limit, 1)?;
        assert!(rt; is_done(end));
        assert_eq!(rt; hart.count, 1);
        assert_eq!(rt; hart.arch.x[5], 7);
        assert_eq!(rt; words.get(stop_word()), stop);
    }
    Ok(())
}

/// Hart 0 asks a hart for a flush of a page, and that serves it. Whether it did.
fn ask<P: Port, Q: Port>(first: &mut P, hart: &mut Hart, port: &mut Q) -> bool
    requires fresh { IsFresh (P.shows first.old) }
    requires zero { (P.shows first.old).own.actor ≡ 0 }
    requires two { 2 ≤ (layout_of (P.shows first.old)).harts }
    requires with { GoesWith hart.old (Q.shows port.old) }
    requires untouched { has_touched (Q.shows port.old).own.steps ≡ false }
    ensures seat { IsSameSeat (P.shows first.old) (P.shows first.new) }
    ensures second_seat { IsSameSeat (Q.shows port.old) (Q.shows port.new) }
{
    let mut sent = Sent { next: [0; 16] };
    let request = Request::FlushPages { page: 1, count: 1 };
    if post(first, &mut sent, 1, &request).is_err() {
        return false;
    }
    serve_requests(hart, port) == Ok(true)
}

/// Whether hart 1, which is stopped, served that, the hart behind it, and the machine's words.
fn stopped_scene(alloc: Global) -> Result<(bool, Hart, Words), NoMemory>
    ensures count { IfOk result (λ made. length (all_words made.2) ≡ words_of (record { harts = 2; pages = 256 })) }
{
    let Seats {
        table,
        loader,
        first,
        second,
        monitor,
    } = open_seats(alloc, LAYOUT, 0)?;
    let mut other = first.pass(&table);
    let mut pass = second.pass(&table);
    let mut hart = hart_with(1, &registers(false, false, false), 5);
    let served = ask(&mut other, &mut hart, &mut pass);
    let first = other.rest();
    let second = pass.rest();
    let words = close_seats(table, loader, first, second, monitor);
    Ok((served, hart, words))
}

#[test]
fn a_stopped_hart_serves_requests(rt: HostRuntime) -> Result<(), Fail> {
    let (served, hart, words) = stopped_scene(rt.alloc())?;
    assert!(rt; served);
    assert!(rt; !hart.runs);
    assert_eq!(rt; hart.served.next[0], 1);
    assert_eq!(rt; words.get(place_word(1, 0, 0)), 0);
    assert_eq!(rt; words.get(kick_word(1)), 0);
    assert_eq!(rt; words.get(run_word(1)), 0);
    Ok(())
}
