// A remote fence of two harts by passes of a real table: hart 0 calls for it, and hart 1, which is stopped, answers.
ghost use Rattle.std.specs.Prelude.{◌≡◌, ◌<◌, IfOk, false, length, true};
ghost use Rattle.step_laws.specs.Output.{has_touched};
ghost use Rattle.step_laws.specs.Sections.{IsInSection, MayTouch};
ghost use Rattle.step_laws.specs.Steps.{words_of};
ghost use Rattle.guest_ram.specs.Ports.{layout_of};
ghost use Rattle.guest_ram.specs.Shown.{all_words};
ghost use Rattle.guest_ram_cases.specs.Tours.{IsSameSeat};
ghost use Rattle.turn_pieces.specs.Draws.{may_draw};
ghost use Rattle.hart_turn.specs.declared.hart.Call.{Call as TheCall};
ghost use Rattle.hart_turn.specs.Harts.{GoesWith, is_made};

use crate::beginning::begin;
use crate::ends::Wait4;
use crate::executing::execute_word;
use crate::fencing::{begin_fence, go_on_with_fence};
use crate::fetching::fetch_code;
use crate::hart::{Call, Hart};
use crate::requests::serve_requests;
use crate::tests::{LAYOUT, hart_with, registers};
use crate::tests_instructions::stand;
use code_fetch::Fetched;
use guest_ram::{Port, Seen, Words};
use guest_ram_cases::{Seats, close_seats, open_seats};
use need_serving::NeedEnd;
use rv64_exec::Arch;
use std::alloc::Global;
use std::test::Fail;
use step_laws::{NoMemory, place_word};

/// The hart executes the word, and begins the fence that it asks for. Whether it asks for one.
fn ask_fence<P: Port>(hart: &mut Hart, port: &mut P, word: u32) -> bool
    requires with { GoesWith hart.old (P.shows port.old) }
    requires runs { hart.old.runs ≡ true }
    requires free { hart.old.call ≡ TheCall.Nothing }
    requires below { hart.old.count < hart.old.limit }
    requires touch { MayTouch (layout_of (P.shows port.old)) (P.shows port.old).own.actor (P.shows port.old).own.steps }
    requires alone { is_made hart.old.claim ≡ true → IsInSection (layout_of (P.shows port.old)) (P.shows port.old).own.actor (P.shows port.old).own.steps }
    requires draws { may_draw (P.shows port.old).own.steps ≡ true }
    ensures with { GoesWith hart.new (P.shows port.new) }
    ensures seat { IsSameSeat (P.shows port.old) (P.shows port.new) }
{
    match execute_word(hart, port, word) {
        NeedEnd::Fence { harts, span } => {
            if !hart.runs {
                return false;
            }
            begin_fence(hart, harts, span);
            true
        }
        _ => false,
    }
}

/// The hart begins the fence that the word at pc asks for. Whether it did.
fn start_fence<P: Port>(hart: &mut Hart, port: &mut P) -> bool
    requires with { GoesWith hart.old (P.shows port.old) }
    ensures with { result ≡ true → GoesWith hart.new (P.shows port.new) }
    ensures seat { IsSameSeat (P.shows port.old) (P.shows port.new) }
{
    if begin(hart, port).is_some() {
        return false;
    }
    if !stand(hart, port) || !hart.runs || hart.call != Call::Nothing {
        return false;
    }
    match fetch_code(hart, port) {
        Fetched::Word(word) => ask_fence(hart, port, word),
        _ => false,
    }
}

/// The hart goes on with its fence, where it has one.
fn go_on<P: Port>(hart: &mut Hart, port: &mut P) -> Option<Result<(), Wait4>>
    requires with { GoesWith hart.old (P.shows port.old) }
    ensures with { GoesWith hart.new (P.shows port.new) }
    ensures seat { IsSameSeat (P.shows port.old) (P.shows port.new) }
{
    match hart.call {
        Call::Nothing => None,
        Call::Fence { harts, span, fence } => {
            Some(go_on_with_fence(hart, port, harts, span, fence))
        }
    }
}

/// Hart 0 goes on with its fence before the other hart has served what it asks for, and behind that.
fn play<P: Port, Q: Port>(
    hart: &mut Hart,
    port: &mut P,
    other: &mut Hart,
    its: &mut Q,
) -> [Option<Result<(), Wait4>>; 2]
    requires with { GoesWith hart.old (P.shows port.old) }
    requires other { GoesWith other.old (Q.shows its.old) }
    requires untouched { has_touched (Q.shows its.old).own.steps ≡ false }
    ensures seat { IsSameSeat (P.shows port.old) (P.shows port.new) }
    ensures other_seat { IsSameSeat (Q.shows its.old) (Q.shows its.new) }
{
    if !start_fence(hart, port) {
        return [None, None];
    }
    let first = go_on(hart, port);
    if serve_requests(other, its) != Ok(true) {
        return [first, None];
    }
    let second = go_on(hart, port);
    [first, second]
}

/// What that came to, hart 0 behind it, and the machine's words. The ECALL stands at 0x8000_0080.
fn scene(
    alloc: Global,
    arch: &Arch,
) -> Result<([Option<Result<(), Wait4>>; 2], Hart, Words), NoMemory>
    ensures count { IfOk result (λ made. length (all_words made.2) ≡ words_of (record { harts = 2; pages = 256 })) }
{
    let Seats {
        table,
        loader,
        first,
        second,
        monitor,
    } = open_seats(alloc, LAYOUT, 0x73)?;
    let mut pass = first.pass(&table);
    let mut its = second.pass(&table);
    let mut hart = hart_with(0, arch, 5);
    let mut other = hart_with(1, &registers(false, false, false), 5);
    let ends = play(&mut hart, &mut pass, &mut other, &mut its);
    let first = pass.rest();
    let second = its.rest();
    let words = close_seats(table, loader, first, second, monitor);
    Ok((ends, hart, words))
}

/// Registers of a call for a fence of all pages at hart 1: bit 0 of a mask that begins at hart 1.
fn asking() -> Arch {
    let mut x = [0; 32];
    x[10] = 1;
    x[11] = 1;
    x[16] = 1;
    x[17] = 0x5246_4e43;
    Arch {
        x,
        pc: 0x8000_0080,
        user: false,
        sstatus: 0,
        sie: 0,
        stvec: 0x8000_0400,
        sscratch: 0,
        sepc: 0,
        scause: 0,
        stval: 0,
        satp: 0,
        hold: None,
    }
}

// The places of hart 0 at hart 1 are words 224 to 231; 1 asks for a flush of all.
#[test]
fn a_fence_waits_for_its_answer(rt: HostRuntime) -> Result<(), Fail> {
    let ([first, second], hart, words) = scene(rt.alloc(), &asking())?;
    let seen = Seen {
        word: 224,
        value: 1,
    };
    assert!(rt; first == Some(Err(Wait4::Ack(seen))));
    assert!(rt; second == Some(Ok(())));
    assert!(rt; hart.call == Call::Nothing);
    assert_eq!(rt; hart.arch.x[10], 0);
    assert_eq!(rt; hart.arch.x[11], 0);
    assert_eq!(rt; hart.arch.x[17], 0x5246_4e43);
    assert_eq!(rt; hart.arch.pc, 0x8000_0084);
    assert_eq!(rt; words.get(place_word(1, 0, 0)), 0);
    Ok(())
}
