// What each call comes to over passes of a table: the rows of `sbi_rows`, by which the machine on one thread is tried too. Hart 0 runs.
ghost use Rattle.std.specs.Prelude.{◌≡◌, ◌≤◌, ◌<◌, IfOk, length};
ghost use Rattle.step_laws.specs.Steps.{words_of};
ghost use Rattle.guest_ram.specs.Shown.{all_words};

mod calls;
mod console;
mod fences;
mod harts;

use crate::{Came, Deed, Loaded, Row, play_alone, play_rows};
use guest_ram::Words;
use hart_calls::{Reason, SbiEnd, Span};
use sbi_rows::{Call, Error, FIRST_WORD, Function, LAST_WORD, PAGES, TEXT, Want};
use std::alloc::{AllocError, Global};
use std::process::Abort;
use std::test::Fail;
use step_laws::Layout;

fn number_of(error: Error) -> i64 {
    match error {
        Error::NotSupported => -2,
        Error::InvalidParam => -3,
        Error::InvalidAddress => -5,
        Error::AlreadyAvailable => -6,
    }
}

fn failed(error: Error) -> SbiEnd {
    SbiEnd::Pair {
        error: number_of(error),
        value: 0,
    }
}

const SUCCESS: SbiEnd = SbiEnd::Pair { error: 0, value: 0 };

/// What a call comes to over a pass. A limit is its turn's and not the call's, which just stops its hart.
fn end_of(want: Want) -> SbiEnd {
    match want {
        Want::Gives(value) => SbiEnd::Pair { error: 0, value },
        Want::Fences(harts) => SbiEnd::Fence {
            harts,
            span: Span::All,
        },
        Want::Fails(error) => failed(error),
        Want::LegacyGives => SbiEnd::Single(0),
        Want::LegacyFails(error) => SbiEnd::Single(number_of(error).cast_unsigned()),
        Want::Stops | Want::Ends(Reason::Limit(_)) => SbiEnd::HartStopped,
        Want::Ends(reason) => SbiEnd::Over(reason),
    }
}

/// A hart makes a call, in the section or not, that comes to this.
fn row(hart: u8, called: Function, args: [u64; 4], section: bool, end: SbiEnd) -> Row {
    let (extension, function) = called;
    let call = Call {
        extension,
        function,
        args,
    };
    Row {
        hart,
        deed: Deed::Calls { call, section },
        to: Came::End(end),
    }
}

/// A stopped hart looks whether it is to begin.
fn begins(hart: u8, to: Came) -> Row {
    Row {
        hart,
        deed: Deed::Begins,
        to,
    }
}

/// What RAM holds where rows print from. The text stands from the word 0x4000 on.
fn memory(alloc: Global) -> Result<Vec<Loaded>, AllocError> {
    let mut words = Vec::new(alloc);
    words.push(Loaded {
        index: 0,
        value: FIRST_WORD,
    })?;
    for (index, value) in (0x4000..).zip(TEXT) {
        words.push(Loaded { index, value })?;
    }
    words.push(Loaded {
        index: 512 * PAGES - 1,
        value: LAST_WORD,
    })?;
    Ok(words)
}

/// All rows come out right, on a machine of so many harts, of which hart 0 and this one make them. The words behind them.
fn plays_with(
    rt: &impl Abort,
    alloc: Global,
    harts: u8,
    second: u8,
    rows: &[Row],
) -> Result<Words, Fail>
    requires most { harts ≤ 8 }
    requires other { 1 ≤ second }
    requires second { second < harts }
    ensures { IfOk result (λ words. length (all_words words) ≡ words_of (record { harts = 8; pages = 1024 })) }
{
    let layout = Layout {
        harts,
        pages: PAGES,
    };
    let words = memory(alloc)?;
    let (right, words) = play_rows(alloc, layout, second, &words, rows)?;
    assert_eq!(rt; right, rows.len());
    Ok(words)
}

/// The same where hart 0 makes them all, and hart 1 where there is one.
fn plays_on(rt: &impl Abort, alloc: Global, harts: u8, rows: &[Row]) -> Result<Words, Fail>
    requires some { 1 ≤ harts }
    requires most { harts ≤ 8 }
    ensures { IfOk result (λ words. length (all_words words) ≡ words_of (record { harts = 8; pages = 1024 })) }
{
    if harts >= 2 {
        return plays_with(rt, alloc, harts, 1, rows);
    }
    let layout = Layout {
        harts,
        pages: PAGES,
    };
    let words = memory(alloc)?;
    let (right, words) = play_alone(alloc, layout, &words, rows)?;
    assert_eq!(rt; right, rows.len());
    Ok(words)
}
