// Parts of turns by passes of a real table: what a hart is behind them, and the words that they leave.
ghost use Rattle.std.specs.Prelude.{◌≡◌, ◌≤◌, ◌<◌, IfOk, false, length, true};
ghost use Rattle.step_laws.specs.Output.{has_touched};
ghost use Rattle.step_laws.specs.Steps.{words_of};
ghost use Rattle.guest_ram.specs.Ports.{layout_of};
ghost use Rattle.guest_ram.specs.Shown.{all_words};
ghost use Rattle.guest_ram_cases.specs.States.{IsAtRest};
ghost use Rattle.guest_ram_cases.specs.Tours.{IsFresh, IsSameSeat};
ghost use Rattle.hart_turn.specs.declared.hart.Call.{Call as TheCall};
ghost use Rattle.hart_turn.specs.Harts.{GoesWith, first_hart, is_made};

use crate::beginning::begin;
use crate::counting::count_up;
use crate::hart::Hart;
use crate::interrupts::take_interrupt;
use crate::leaving::{give_back, spend};
use crate::requests::serve_requests;
use crate::sections::{go_alone, go_in, step_out, want};
use crate::starting::start;
use exclusive::{enter, kick, leave};
use guest_devices::ipi;
use guest_ram::{Port, Words};
use guest_ram_cases::{Seats, close_seats, open_seats, start_hart};
use machine_model::Reason;
use rv64_exec::{Arch, IpiOp};
use std::alloc::Global;
use std::test::Fail;
use step_laws::{
    Layout, NoMemory, done_word, hsm_word, ipi_word, kick_word, live_word, lock_word, pend_word,
    place_word, run_word, stop_word,
};
use work_queue::{Request, Sent, post};

pub(crate) const LAYOUT: Layout = Layout {
    harts: 2,
    pages: 256,
};

/// Where a scene of hart 0 ends. Hart 1 calls it out, asks for a flush, or asks for interrupts of these harts.
#[derive(Clone, Copy, Debug, PartialEq, Eq)]
enum Until {
    Inside,
    CalledOut,
    Alone,
    GivenBack,
    Spent(u8),
    Asked,
    Served,
    ServedTwice,
    Interrupt(u64),
}

/// Where one of hart 1 ends, which is started from outside.
#[derive(Clone, Copy, Debug, PartialEq, Eq)]
enum Then {
    Stopped,
    Started,
    CountedOnce,
    CountedTwice,
    Ended,
}

/// A hart as a machine begins with it, but for its registers.
pub(crate) fn hart_with(number: u8, arch: &Arch, limit: u64) -> Hart
    requires limit { 0 < limit }
    ensures { result ≡ record (first_hart number 0 limit) { arch = arch.now } }
{
    let mut hart = Hart::new(number, 0, limit);
    hart.arch = *arch;
    hart
}

/// Registers of which each is 0, but for pc, where traps lead, and whether SIE and SSIE are set: bit 1 of sstatus and of sie.
pub(crate) fn registers(user: bool, sie: bool, ssie: bool) -> Arch {
    Arch {
        x: [0; 32],
        pc: 0x8000_0100,
        user,
        sstatus: if sie { 2 } else { 0 },
        sie: if ssie { 2 } else { 0 },
        stvec: 0x8000_0400,
        sscratch: 0,
        sepc: 0,
        scause: 0,
        stval: 0,
        satp: 0,
        hold: None,
    }
}

/// The hart goes in, and leaves when it is called out; then it goes alone, and gives the section back. Whether each came to that.
fn stand<P: Port, Q: Port>(hart: &mut Hart, port: &mut P, other: &mut Q, until: Until) -> bool
    requires with { GoesWith hart.old (P.shows port.old) }
    requires outside { hart.old.inside ≡ false }
    requires unclaimed { is_made hart.old.claim ≡ false }
    requires other { IsFresh (Q.shows other.old) }
    requires one { (Q.shows other.old).own.actor ≡ 1 }
    requires two { 2 ≤ (layout_of (Q.shows other.old)).harts }
    ensures seat { IsSameSeat (P.shows port.old) (P.shows port.new) }
    ensures other_seat { IsSameSeat (Q.shows other.old) (Q.shows other.new) }
{
    if go_in(hart, port).is_err() {
        return false;
    }
    step_out(hart, port);
    if until == Until::Inside {
        return hart.inside;
    }
    kick(other, 0);
    step_out(hart, port);
    if hart.inside || hart.claim.is_made() {
        return false;
    }
    if until == Until::CalledOut {
        return true;
    }
    want(hart);
    if go_alone(hart, port).is_err() {
        return false;
    }
    if until == Until::Alone {
        return true;
    }
    give_back(hart, port);
    true
}

/// The hart goes in, and makes so many instructions there.
fn spend_some<P: Port>(hart: &mut Hart, port: &mut P, count: u8) -> bool
    requires with { GoesWith hart.old (P.shows port.old) }
    requires outside { hart.old.inside ≡ false }
    requires unclaimed { is_made hart.old.claim ≡ false }
    ensures seat { IsSameSeat (P.shows port.old) (P.shows port.new) }
{
    if go_in(hart, port).is_err() {
        return false;
    }
    for _ in 0..count {
        if !hart.inside {
            return true;
        }
        spend(hart, port, true);
    }
    true
}

/// Hart 1 asks for a flush of a page, and the hart serves what it is asked for, once or twice. Whether a request was served by the last.
fn serve<P: Port, Q: Port>(hart: &mut Hart, port: &mut P, other: &mut Q, until: Until) -> bool
    requires with { GoesWith hart.old (P.shows port.old) }
    requires untouched { has_touched (P.shows port.old).own.steps ≡ false }
    requires other { IsFresh (Q.shows other.old) }
    requires one { (Q.shows other.old).own.actor ≡ 1 }
    requires two { 2 ≤ (layout_of (Q.shows other.old)).harts }
    ensures seat { IsSameSeat (P.shows port.old) (P.shows port.new) }
    ensures other_seat { IsSameSeat (Q.shows other.old) (Q.shows other.new) }
{
    let mut sent = Sent { next: [0; 16] };
    let request = Request::FlushPages { page: 1, count: 1 };
    if post(other, &mut sent, 0, &request).is_err() {
        return false;
    }
    if until == Until::Asked {
        return true;
    }
    let first = serve_requests(hart, port);
    if until == Until::Served {
        return first == Ok(true);
    }
    first == Ok(true) && serve_requests(hart, port) == Ok(false)
}

/// Hart 1 asks for interrupts of these harts, a bit for each, and the hart looks once it is inside. Whether it takes one.
fn interrupt<P: Port, Q: Port>(hart: &mut Hart, port: &mut P, other: &mut Q, harts: u64) -> bool
    requires with { GoesWith hart.old (P.shows port.old) }
    requires outside { hart.old.inside ≡ false }
    requires unclaimed { is_made hart.old.claim ≡ false }
    requires runs { hart.old.runs ≡ true }
    requires free { hart.old.call ≡ TheCall.Nothing }
    requires other { IsFresh (Q.shows other.old) }
    ensures seat { IsSameSeat (P.shows port.old) (P.shows port.new) }
    ensures other_seat { IsSameSeat (Q.shows other.old) (Q.shows other.new) }
{
    match enter(other) {
        Err(_) => return false,
        Ok(()) => {
            ipi(other, IpiOp::Set, harts);
            leave(other);
        }
    }
    match go_in(hart, port) {
        Err(_) => false,
        Ok(()) => take_interrupt(hart, port),
    }
}

/// A turn of hart 0 as far as that.
fn play<P: Port, Q: Port>(hart: &mut Hart, port: &mut P, other: &mut Q, until: Until) -> bool
    requires with { GoesWith hart.old (P.shows port.old) }
    requires outside { hart.old.inside ≡ false }
    requires unclaimed { is_made hart.old.claim ≡ false }
    requires runs { hart.old.runs ≡ true }
    requires free { hart.old.call ≡ TheCall.Nothing }
    requires other { IsFresh (Q.shows other.old) }
    requires one { (Q.shows other.old).own.actor ≡ 1 }
    requires two { 2 ≤ (layout_of (Q.shows other.old)).harts }
    ensures seat { IsSameSeat (P.shows port.old) (P.shows port.new) }
    ensures other_seat { IsSameSeat (Q.shows other.old) (Q.shows other.new) }
{
    match begin(hart, port) {
        Some(_) => return false,
        None => {}
    }
    match until {
        Until::Inside | Until::CalledOut | Until::Alone | Until::GivenBack => {
            stand(hart, port, other, until)
        }
        Until::Spent(count) => spend_some(hart, port, count),
        Until::Asked | Until::Served | Until::ServedTwice => serve(hart, port, other, until),
        Until::Interrupt(harts) => interrupt(hart, port, other, harts),
    }
}

/// What that came to, the hart behind it, and the machine's words.
fn scene(alloc: Global, arch: &Arch, until: Until) -> Result<(bool, Hart, Words), NoMemory>
    ensures count { IfOk result (λ made. length (all_words made.2) ≡ words_of (record { harts = 2; pages = 256 })) }
{
    let Seats {
        table,
        loader,
        first,
        second,
        monitor,
    } = open_seats(alloc, LAYOUT, 0)?;
    let mut pass = first.pass(&table);
    let mut other = second.pass(&table);
    let mut hart = hart_with(0, arch, 2);
    let went = play(&mut hart, &mut pass, &mut other, until);
    let first = pass.rest();
    let second = other.rest();
    let words = close_seats(table, loader, first, second, monitor);
    Ok((went, hart, words))
}

/// The hart looks whether it was started. Whether it began.
fn begins<P: Port>(hart: &mut Hart, port: &mut P) -> bool
    requires with { GoesWith hart.old (P.shows port.old) }
    requires stopped { hart.old.runs ≡ false }
    ensures with { GoesWith hart.new (P.shows port.new) }
    ensures seat { IsSameSeat (P.shows port.old) (P.shows port.new) }
{
    start(hart, port) == Ok(true)
}

/// The hart counts up to twice, and then looks at STOP. Whether that came so far.
fn count<P: Port>(hart: &mut Hart, port: &mut P, then: Then) -> bool
    requires with { GoesWith hart.old (P.shows port.old) }
    requires below { hart.old.count < hart.old.limit }
    ensures seat { IsSameSeat (P.shows port.old) (P.shows port.new) }
{
    count_up(hart, port);
    if then == Then::CountedOnce {
        return true;
    }
    if hart.count >= hart.limit {
        return false;
    }
    count_up(hart, port);
    if then == Then::CountedTwice {
        return true;
    }
    begin(hart, port) == Some(Reason::Limit(1))
}

/// Hart 1 looks before hart 0 starts it, and behind that, and then counts its instructions.
fn play_second<P: Port, Q: Port>(first: &mut P, hart: &mut Hart, port: &mut Q, then: Then) -> bool
    requires rest { IsAtRest (P.shows first.old) true }
    requires zero { (P.shows first.old).own.actor ≡ 0 }
    requires two { 2 ≤ (layout_of (P.shows first.old)).harts }
    requires with { GoesWith hart.old (Q.shows port.old) }
    requires stopped { hart.old.runs ≡ false }
    ensures seat { IsSameSeat (P.shows first.old) (P.shows first.new) }
    ensures second_seat { IsSameSeat (Q.shows port.old) (Q.shows port.new) }
{
    if begins(hart, port) || hart.runs {
        return false;
    }
    if then == Then::Stopped {
        return true;
    }
    if !start_hart(first, 1, 0x8000_0400, 0x1234) || !begins(hart, port) {
        return false;
    }
    if then == Then::Started {
        return true;
    }
    if hart.count >= hart.limit {
        return false;
    }
    count(hart, port, then)
}

/// What that came to, hart 1 behind it, whose limit is 2, and the machine's words.
fn second_scene(alloc: Global, then: Then) -> Result<(bool, Hart, Words), NoMemory>
    ensures count { IfOk result (λ made. length (all_words made.2) ≡ words_of (record { harts = 2; pages = 256 })) }
{
    let Seats {
        table,
        loader,
        first,
        second,
        monitor,
    } = open_seats(alloc, LAYOUT, 0)?;
    let mut other = first.pass(&table);
    let mut pass = second.pass(&table);
    let mut hart = hart_with(1, &registers(true, false, false), 2);
    let went = play_second(&mut other, &mut hart, &mut pass, then);
    let first = other.rest();
    let second = pass.rest();
    let words = close_seats(table, loader, first, second, monitor);
    Ok((went, hart, words))
}

#[test]
fn a_machine_begins_with_hart_0(rt: HostRuntime) {
    let first = Hart::new(0, 0x8000_0000, 5);
    assert_eq!(rt; first.arch().pc, 0x8000_0000);
    assert!(rt; first.runs);
    assert_eq!(rt; first.count(), 0);
    assert_eq!(rt; first.limit, 5);
    let second = Hart::new(1, 0x8000_0000, 5);
    assert_eq!(rt; second.arch().pc, 0);
    assert!(rt; !second.runs);
    assert!(rt; !second.arch().user);
}

#[test]
fn a_hart_stands_where_its_words_say(rt: HostRuntime) -> Result<(), Fail> {
    let rows = [
        (Until::Inside, true, 1, 0, 0, 0),
        (Until::CalledOut, false, 0, 1, 0, 0),
        (Until::Alone, false, 0, 1, 1, 1),
        (Until::GivenBack, false, 0, 1, 0, 1),
    ];
    for (until, inside, run, kick, pend, other_kick) in rows {
        let (went, hart, words) = scene(rt.alloc(), &registers(false, false, false), until)?;
        assert!(rt; went);
        assert_eq!(rt; hart.inside, inside);
        assert_eq!(rt; hart.claim.is_made(), pend == 1);
        assert_eq!(rt; words.get(run_word(0)), run);
        assert_eq!(rt; words.get(kick_word(0)), kick);
        assert_eq!(rt; words.get(pend_word()), pend);
        assert_eq!(rt; words.get(done_word(0)), 0);
        // who claims the section calls the others out
        assert_eq!(rt; words.get(kick_word(1)), other_kick);
    }
    Ok(())
}

#[test]
fn a_hart_stays_inside_for_64_instructions(rt: HostRuntime) -> Result<(), Fail> {
    for (count, left) in [(1, 63), (63, 1), (64, 0), (65, 0)] {
        let arch = registers(false, false, false);
        let (went, hart, words) = scene(rt.alloc(), &arch, Until::Spent(count))?;
        assert!(rt; went);
        assert_eq!(rt; hart.quantum, left);
        assert_eq!(rt; hart.inside, left > 0);
        assert_eq!(rt; words.get(run_word(0)), u64::from(left > 0));
    }
    Ok(())
}

// The page's number 1 in bits 63..12, the count 1 in bits 11..3, and 2 for a flush of pages.
#[test]
fn a_request_is_served_once(rt: HostRuntime) -> Result<(), Fail> {
    let rows = [
        (Until::Asked, 0x100a, 1, 0),
        (Until::Served, 0, 0, 1),
        (Until::ServedTwice, 0, 0, 1),
    ];
    for (until, place, kick, next) in rows {
        let (went, hart, words) = scene(rt.alloc(), &registers(false, false, false), until)?;
        assert!(rt; went);
        assert_eq!(rt; words.get(place_word(0, 1, 0)), place);
        assert_eq!(rt; words.get(kick_word(0)), kick);
        assert_eq!(rt; hart.served.next[1], next);
        assert_eq!(rt; hart.served.next[8], 0);
        assert_eq!(rt; words.get(lock_word(0)), 0);
    }
    Ok(())
}

// SPIE is bit 5 of sstatus, and SPP bit 8.
#[test]
fn an_interrupt_is_taken_where_it_may_be(rt: HostRuntime) -> Result<(), Fail> {
    let rows = [
        // hart 0 has one pending: in supervisor mode by SIE alone, in user mode always
        (false, false, true, 1, None),
        (false, true, true, 1, Some(0x120)),
        (true, false, true, 1, Some(0)),
        (true, true, true, 3, Some(0x20)),
        // but by SSIE
        (true, false, false, 1, None),
        (false, true, false, 1, None),
        // hart 1 alone has one
        (true, true, true, 2, None),
    ];
    for (user, sie, ssie, harts, taken) in rows {
        let old = registers(user, sie, ssie);
        let (took, hart, words) = scene(rt.alloc(), &old, Until::Interrupt(harts))?;
        assert_eq!(rt; took, taken.is_some());
        assert_eq!(rt; words.get(ipi_word()), harts);
        assert_eq!(rt; words.get(run_word(0)), 1);
        match taken {
            None => {
                assert_eq!(rt; hart.arch.scause, 0);
                assert_eq!(rt; hart.arch.pc, 0x8000_0100);
                assert_eq!(rt; hart.arch.user, user);
            }
            Some(status) => {
                assert_eq!(rt; hart.arch.scause, 0x8000_0000_0000_0001);
                assert_eq!(rt; hart.arch.sepc, 0x8000_0100);
                assert_eq!(rt; hart.arch.stval, 0);
                assert_eq!(rt; hart.arch.pc, 0x8000_0400);
                assert_eq!(rt; hart.arch.sstatus, status);
                assert!(rt; !hart.arch.user);
            }
        }
    }
    Ok(())
}

// HSM: 0 runs, 1 stopped. STOP: 3 for a limit, and 256 times the hart's number.
#[test]
fn a_started_hart_begins_and_ends_at_its_limit(rt: HostRuntime) -> Result<(), Fail> {
    let rows = [
        (Then::Stopped, 1, 1, 0, 0, 0),
        (Then::Started, 0, 2, 0, 0, 0),
        (Then::CountedOnce, 0, 2, 1, 0, 0),
        (Then::CountedTwice, 0, 2, 2, 0x103, 0),
        (Then::Ended, 0, 2, 2, 0x103, 1),
    ];
    for (then, state, live, count, stop, done) in rows {
        let (went, hart, words) = second_scene(rt.alloc(), then)?;
        assert!(rt; went);
        assert_eq!(rt; words.get(hsm_word(1)), state);
        assert_eq!(rt; hart.runs, state == 0);
        assert_eq!(rt; words.get(live_word()), live);
        assert_eq!(rt; hart.count, count);
        assert_eq!(rt; words.get(stop_word()), stop);
        assert_eq!(rt; words.get(done_word(1)), done);
        if hart.runs {
            let mut x = [0; 32];
            x[10] = 1;
            x[11] = 0x1234;
            assert_eq!(rt; hart.arch.x, x);
            assert_eq!(rt; hart.arch.pc, 0x8000_0400);
            assert!(rt; !hart.arch.user);
            assert_eq!(rt; hart.arch.stvec, 0);
        }
    }
    Ok(())
}
