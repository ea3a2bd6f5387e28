// What turns come to. Each case is a guest, the turns that are made and how each is to end, and what the harts, words and the console are then,
// by the RISC-V standards and the map of the machine's words.
ghost use Rattle.std.specs.Prelude.{◌≡◌, ◌<◌, IfOk, length};
ghost use Rattle.step_laws.specs.Steps.{words_of};
ghost use Rattle.guest_ram.specs.Shown.{all_words};

mod beside;
mod counts;
mod ends;
mod locks;
mod paging;
mod sections;

use crate::{Played, Row, Scene, play_scene};
use case_guests::with_map;
use elf_load::parse;
use guest_ram::{Seen, Words};
use hart_turn::{Hart, TurnEnd, Wait4};
use std::alloc::Global;
use std::process::Abort;
use std::test::Fail;
use step_laws::{cons_word, console_word, ram_word_at};
use tlb_lock::Busy;

/// How many words a machine has.
const WORDS: u32 = 1_082_392 + 512 * 1024;

/// What is looked at of a hart.
#[derive(Clone, Copy, Debug)]
enum Of {
    X(u8),
    Pc,
    Count,
    Cause,
    Epc,
    Value,
    Status,
}

/// A guest in a machine with page tables: hart 0 begins with `code`, and what hart 1 may be started at, 0x80000100, is `other`. How many
/// instructions a hart may end, what turns are made, and which behind these while the monitor holds the lock of hart 0. What is behind them: of
/// harts, in words by their numbers, in memory by the distance from RAM's begin, and on the console.
#[derive(Clone, Copy)]
struct Case<'a> {
    what: &'a str,
    code: &'a [u32],
    other: &'a [u32],
    limit: u64,
    rows: &'a [Row],
    held: &'a [Row],
    harts: &'a [(u8, Of, u64)],
    words: &'a [(u32, u64)],
    memory: &'a [(u32, u64)],
    console: &'a [u8],
}

/// A case of hart 0 alone.
fn alone<'a>(
    what: &'a str,
    code: &'a [u32],
    rows: &'a [Row],
    harts: &'a [(u8, Of, u64)],
) -> Case<'a> {
    Case {
        what,
        code,
        other: &[],
        limit: 1000,
        rows,
        held: &[],
        harts,
        words: &[],
        memory: &[],
        console: &[],
    }
}

/// So many turns of a hart that each end so.
fn turns(hart: u8, times: u32, to: TurnEnd) -> Row {
    Row {
        hart,
        times,
        to,
        steps: None,
    }
}

/// A turn of a hart that ends so.
fn turn(hart: u8, to: TurnEnd) -> Row {
    turns(hart, 1, to)
}

/// So many instructions of a hart.
fn retired(hart: u8, times: u32) -> Row {
    turns(hart, times, TurnEnd::Retired)
}

/// A turn in which a hart found this where a piece of its fence was posted.
fn unanswered(hart: u8, word: u32, value: u64) -> Row {
    turn(hart, TurnEnd::Waiting(Wait4::Ack(Seen { word, value })))
}

/// A turn in which a hart found its lock held by the monitor.
fn locked_out(hart: u8) -> Row {
    turn(hart, TurnEnd::Waiting(Wait4::Lock(Busy { holder: 9 })))
}

fn shown(hart: &Hart, of: Of) -> u64 {
    let arch = hart.arch();
    match of {
        Of::X(number) => arch.x[usize::from(number % 32)],
        Of::Pc => arch.pc,
        Of::Count => hart.count(),
        Of::Cause => arch.scause,
        Of::Epc => arch.sepc,
        Of::Value => arch.stval,
        Of::Status => arch.sstatus,
    }
}

fn compare_harts(rt: &impl Abort, played: &Played, case: &Case<'_>) {
    for (number, of, value) in case.harts {
        let hart = match *number {
            0 => &played.first,
            _ => &played.second,
        };
        assert_eq!(rt;
            shown(hart, *of),
            *value,
            "{}: {of:?} of {number}",
            case.what
        );
    }
}

fn compare_words(rt: &impl Abort, words: &Words, case: &Case<'_>)
    requires count { length (all_words words.now) ≡ words_of (record { harts = 2; pages = 1024 }) }
{
    for (word, value) in case.words {
        assert!(rt; *word < WORDS);
        assert_eq!(rt; words.get(*word), *value, "{}: word {word}", case.what);
    }
    for (distance, value) in case.memory {
        let word = ram_word_at(*distance / 8 % (512 * 1024));
        assert_eq!(rt; words.get(word), *value, "{}: {distance:x}", case.what);
    }
}

fn compare_console(rt: &impl Abort, words: &Words, console: &[u8], what: &str)
    requires count { length (all_words words.now) ≡ words_of (record { harts = 2; pages = 1024 }) }
{
    assert_eq!(rt;
        words.get(cons_word()),
        console.len() as u64,
        "console: {what}"
    );
    for (place, byte) in (0u16..).zip(console) {
        let word = console_word(u32::from(place));
        assert_eq!(rt; words.get(word), 256 + u64::from(*byte), "console: {what}");
    }
}

fn comes_to(rt: &impl Abort, alloc: Global, case: &Case<'_>) -> Result<(), Fail> {
    let file = with_map(alloc, case.code, case.other)?;
    let image = parse(alloc, &file, 1024)?;
    assert!(rt; case.limit > 0);
    let scene = Scene {
        limit: case.limit,
        rows: case.rows,
        held: case.held,
    };
    let played = play_scene(alloc, &image, &file, &scene)?;
    let rows = case.rows.len().saturating_add(case.held.len());
    assert_eq!(rt; played.right, rows, "rows: {}", case.what);
    compare_harts(rt, &played, case);
    compare_words(rt, &played.words, case);
    compare_console(rt, &played.words, case.console, case.what);
    Ok(())
}

fn all_come_to(rt: &impl Abort, alloc: Global, cases: &[Case<'_>]) -> Result<(), Fail> {
    for case in cases {
        comes_to(rt, alloc, case)?;
    }
    Ok(())
}
