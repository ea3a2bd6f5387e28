// What needs come to by the standards, and the words that needs and signals leave.
ghost use Rattle.std.specs.Prelude.{◌≡◌, IfOk, length};
ghost use Rattle.step_laws.specs.Steps.{words_of};
ghost use Rattle.guest_ram.specs.Shown.{all_words};

use crate::{Came, Row, Signalled, Taken, need_scene, signal_scene, start_scene};
use guest_ram::Words;
use hart_calls::Span;
use hart_signals::{Reason, Start};
use rv64_exec::{AmoOp, Arch, FlushOf, IpiOp, Need};
use std::alloc::Global;
use std::process::Abort;
use std::test::Fail;
use step_laws::{
    Layout, TlbField, cons_word, console_word, done_word, hsm_word, ipi_word, kick_word, live_word,
    opaque_word, ram_word, start_word, stop_word, tlb_word,
};

const LAYOUT: Layout = Layout {
    harts: 2,
    pages: 256,
};

/// The registers of a hart in supervisor mode, without translation, that asks for this function of an extension.
fn registers_of(extension: u64, function: u64, args: [u64; 4]) -> Arch {
    let [a0, a1, a2, a3] = args;
    let mut x = [0; 32];
    x[10] = a0;
    x[11] = a1;
    x[12] = a2;
    x[13] = a3;
    x[16] = function;
    x[17] = extension;
    Arch {
        x,
        pc: 0x8000_0000,
        user: false,
        sstatus: 0,
        sie: 0,
        stvec: 0,
        sscratch: 0,
        sepc: 0,
        scause: 0,
        stval: 0,
        satp: 0,
        hold: None,
    }
}

fn row(need: Need, to: Came) -> Row {
    Row { need, to }
}

fn pending(op: IpiOp, shown: u64) -> Row {
    row(Need::Ipi { op }, Came::Value(shown))
}

fn store(va: u64, value: u64, to: Came) -> Row {
    let width = 8;
    row(Need::Store { va, width, value }, to)
}

/// All rows come out right. The words behind them.
fn serves(rt: &impl Abort, alloc: Global, arch: &Arch, rows: &[Row]) -> Result<Words, Fail>
    ensures { IfOk result (λ words. length (all_words words) ≡ words_of (record { harts = 2; pages = 256 })) }
{
    let (right, words) = need_scene(alloc, LAYOUT, arch, rows)?;
    assert_eq!(rt; right, rows.len());
    Ok(words)
}

/// The same of needs that no register has a part in.
fn serves_any(rt: &impl Abort, alloc: Global, rows: &[Row]) -> Result<Words, Fail>
    ensures { IfOk result (λ words. length (all_words words) ≡ words_of (record { harts = 2; pages = 256 })) }
{
    serves(rt, alloc, &registers_of(0, 0, [0; 4]), rows)
}

/// The same of one call.
fn calls(
    rt: &impl Abort,
    alloc: Global,
    extension: u64,
    function: u64,
    args: [u64; 4],
    to: Came,
) -> Result<Words, Fail>
    ensures { IfOk result (λ words. length (all_words words) ≡ words_of (record { harts = 2; pages = 256 })) }
{
    let rows = [row(Need::Sbi, to)];
    serves(rt, alloc, &registers_of(extension, function, args), &rows)
}

// SSIP is bit 1 of sip.
#[test]
fn own_interrupts_are_pending(rt: HostRuntime) -> Result<(), Fail> {
    let rows = [
        pending(IpiOp::Read, 0),
        pending(IpiOp::Set, 0),
        pending(IpiOp::Read, 2),
        pending(IpiOp::Clear, 2),
        pending(IpiOp::Read, 0),
        pending(IpiOp::Set, 0),
    ];
    let words = serves_any(&rt, rt.alloc(), &rows)?;
    assert_eq!(rt; words.get(ipi_word()), 1);
    Ok(())
}

#[test]
fn accesses_and_traps(rt: HostRuntime) -> Result<(), Fail> {
    let load = Need::Load {
        va: 0x8002_0000,
        width: 8,
        signed: false,
    };
    let low = Need::Load {
        va: 0,
        width: 4,
        signed: true,
    };
    let add = Need::Amo {
        va: 0x8002_0000,
        op: AmoOp::Add,
        wide: true,
        value: 1,
    };
    let trap = Need::Trap {
        cause: 2,
        tval: 0xffff_ffff,
    };
    let print = Need::Store {
        va: 0x1000_0000,
        width: 1,
        value: 0x42,
    };
    let value = 0x1122_3344_5566_7788;
    let rows = [
        row(Need::Nothing, Came::Nothing),
        row(trap, Came::Fault(2, 0xffff_ffff)),
        store(0x8002_0000, value, Came::Nothing),
        row(load, Came::Value(value)),
        row(add, Came::Value(value)),
        row(load, Came::Value(value + 1)),
        row(low, Came::Fault(5, 0)),
        store(0x8002_0004, 5, Came::NeedsSection),
        row(print, Came::Nothing),
    ];
    let words = serves_any(&rt, rt.alloc(), &rows)?;
    assert_eq!(rt; words.get(ram_word(0x8002_0000)), value + 1);
    assert_eq!(rt; words.get(ram_word(0x8002_0008)), 0);
    assert_eq!(rt; words.get(console_word(0)), 0x142);
    Ok(())
}

// The pages at 0x80020000 and 0x80021000 have the slots 32 and 33 of 64; a compare word of 1 hits nowhere.
#[test]
fn own_entries_are_flushed(rt: HostRuntime) -> Result<(), Fail> {
    let flushes = [(FlushOf::Page(0x8_0020), 0, 0x8_0021), (FlushOf::All, 0, 0)];
    for (flush, first, second) in flushes {
        let rows = [
            store(0x8002_0000, 7, Came::Nothing),
            store(0x8002_1000, 8, Came::Nothing),
            row(Need::Flush(flush), Came::Nothing),
        ];
        let words = serves_any(&rt, rt.alloc(), &rows)?;
        for (slot, page) in [(32, first), (33, second)] {
            let compare = words.get(tlb_word(0, slot, TlbField::Write));
            assert_eq!(rt; compare / 0x1000, page);
            assert_eq!(rt; compare == 1, page == 0);
        }
        assert_eq!(rt; words.get(ram_word(0x8002_0000)), 7);
    }
    Ok(())
}

const BASE: u64 = 0x10;

const HSM: u64 = 0x0048_534d;

const RFENCE: u64 = 0x5246_4e43;

#[test]
fn calls_are_answered(rt: HostRuntime) -> Result<(), Fail> {
    let pages = Span::Pages { page: 5, count: 4 };
    let rows = [
        // hart states are there, and no timer
        (BASE, 3, [HSM, 0, 0, 0], Came::Pair(0, 1)),
        (BASE, 3, [0x5449_4d45, 0, 0, 0], Came::Pair(0, 0)),
        // hart 1 is stopped, hart 2 isn't there
        (HSM, 2, [1, 0, 0, 0], Came::Pair(0, 1)),
        (HSM, 2, [2, 0, 0, 0], Came::Pair(-3, 0)),
        (RFENCE, 0, [2, 0, 0, 0], Came::Pair(0, 0)),
        (RFENCE, 1, [2, 0, 0, 0], Came::Fence(2, Span::All)),
        (RFENCE, 1, [2, 0, 0x5000, 0x4000], Came::Fence(2, pages)),
        (RFENCE, 1, [4, 0, 0, 0], Came::Pair(-3, 0)),
        // a byte of RAM is printed
        (0x4442_434e, 0, [1, 0x8002_0000, 0, 0], Came::NeedsSection),
    ];
    for (extension, function, args, to) in rows {
        let words = calls(&rt, rt.alloc(), extension, function, args, to)?;
        assert_eq!(rt; words.get(cons_word()), 0);
        assert_eq!(rt; words.get(stop_word()), 0);
    }
    // the legacy console prints a byte at once
    let words = calls(&rt, rt.alloc(), 1, 0, [0x41, 0, 0, 0], Came::Single(0))?;
    assert_eq!(rt; words.get(cons_word()), 1);
    assert_eq!(rt; words.get(console_word(0)), 0x141);
    // a shutdown for which no reason is given ends the machine as passed
    let words = calls(&rt, rt.alloc(), 0x5352_5354, 0, [0; 4], Came::Nothing)?;
    assert_eq!(rt; words.get(stop_word()), 1);
    Ok(())
}

#[test]
fn the_last_hart_stops(rt: HostRuntime) -> Result<(), Fail> {
    let rows = [
        row(Need::Sbi, Came::Stopped),
        row(Need::Nothing, Came::Nothing),
    ];
    let arch = registers_of(HSM, 1, [0; 4]);
    let (right, words) = need_scene(rt.alloc(), LAYOUT, &arch, &rows)?;
    // the row behind the stop isn't played
    assert_eq!(rt; right, 1);
    assert_eq!(rt; words.get(hsm_word(0)), 1);
    assert_eq!(rt; words.get(live_word()), 0);
    assert_eq!(rt; words.get(stop_word()), 5);
    Ok(())
}

#[test]
fn a_started_hart_begins(rt: HostRuntime) -> Result<(), Fail> {
    let start = Start {
        at: 0x8000_0400,
        opaque: 0x1234,
    };
    let (taken, words) = start_scene(rt.alloc(), LAYOUT, 0x8000_0400, 0x1234)?;
    let wanted = Taken {
        stayed: true,
        start: Some(start),
    };
    assert_eq!(rt; taken, wanted);
    assert_eq!(rt; words.get(hsm_word(1)), 0);
    assert_eq!(rt; words.get(start_word(1)), 0x8000_0400);
    assert_eq!(rt; words.get(opaque_word(1)), 0x1234);
    assert_eq!(rt; words.get(live_word()), 2);
    Ok(())
}

#[test]
fn turns_begin_and_end(rt: HostRuntime) -> Result<(), Fail> {
    let (signalled, words) = signal_scene(rt.alloc(), LAYOUT)?;
    let wanted = Signalled {
        first_reason: None,
        before: false,
        behind: true,
        cleared: false,
        reason: Some(Reason::Pass),
    };
    assert_eq!(rt; signalled, wanted);
    assert_eq!(rt; words.get(kick_word(1)), 0);
    assert_eq!(rt; words.get(stop_word()), 1);
    assert_eq!(rt; words.get(done_word(1)), 1);
    assert_eq!(rt; words.get(done_word(0)), 0);
    Ok(())
}
