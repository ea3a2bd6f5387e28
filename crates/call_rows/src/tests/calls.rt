// What each call answers, by its extension, its function and the edges of its arguments.
ghost use Rattle.std.specs.Prelude.{◌≤◌};

use super::{end_of, failed, plays_on, row};
use crate::Row;
use hart_calls::{Reason, SbiEnd};
use sbi_rows::Error::NotSupported;
use sbi_rows::Want::{Ends, LegacyFails};
use sbi_rows::{
    ABSENT, ALL, BASE, BASE_ROWS, CONSOLE_ROWS, CallRow, DBCN, ENDINGS, HART_ROWS,
    HART_ROWS_OF_FOUR, HART_ROWS_OF_ONE, HSM, NO_LEGACY, OTHER_FUNCTIONS, PRESENT, RESET_ROWS,
    SRST, UNSET,
};
use std::alloc::Global;
use std::process::Abort;
use std::test::Fail;
use step_laws::{cons_word, hsm_word, live_word, stop_word};

/// Calls of hart 0, outside the section and in it.
pub(super) fn push_all(
    rows: &mut Vec<Row>,
    extension: u64,
    answers: &[CallRow],
) -> Result<(), Fail> {
    for section in [false, true] {
        for (function, args, want) in answers {
            let called = (extension, *function);
            rows.push(row(0, called, *args, section, end_of(*want)))?;
        }
    }
    Ok(())
}

/// On a machine of so many harts these calls print, start and end nothing.
fn answers_alone(rt: &impl Abort, alloc: Global, harts: u8, rows: &[Row]) -> Result<(), Fail>
    requires some { 1 ≤ harts }
    requires most { harts ≤ 8 }
{
    let words = plays_on(rt, alloc, harts, rows)?;
    assert_eq!(rt; words.get(cons_word()), 0);
    assert_eq!(rt; words.get(live_word()), 1);
    let second = if harts == 1 { 0 } else { 1 };
    assert_eq!(rt; words.get(hsm_word(1)), second);
    assert_eq!(rt; words.get(stop_word()), 0);
    Ok(())
}

#[test]
fn calls_answer_by_their_registers(rt: HostRuntime) -> Result<(), Fail> {
    let mut rows = Vec::new(rt.alloc());
    push_all(&mut rows, BASE, &BASE_ROWS)?;
    push_all(&mut rows, HSM, &HART_ROWS)?;
    push_all(&mut rows, SRST, &RESET_ROWS)?;
    push_all(&mut rows, DBCN, &CONSOLE_ROWS)?;
    answers_alone(&rt, rt.alloc(), 1, &rows)?;
    answers_alone(&rt, rt.alloc(), 2, &rows)?;
    answers_alone(&rt, rt.alloc(), 4, &rows)
}

#[test]
fn other_harts_are_there_or_not(rt: HostRuntime) -> Result<(), Fail> {
    let mut rows = Vec::new(rt.alloc());
    push_all(&mut rows, HSM, &HART_ROWS_OF_ONE)?;
    answers_alone(&rt, rt.alloc(), 1, &rows)?;
    let mut rows = Vec::new(rt.alloc());
    push_all(&mut rows, HSM, &HART_ROWS_OF_FOUR)?;
    answers_alone(&rt, rt.alloc(), 4, &rows)
}

/// Probes of extensions that are there or not.
fn push_probes(rows: &mut Vec<Row>, extensions: &[u64], value: u64) -> Result<(), Fail> {
    for extension in extensions {
        let probed = SbiEnd::Pair { error: 0, value };
        rows.push(row(0, (BASE, 3), [*extension, 0, 0, 0], false, probed))?;
    }
    Ok(())
}

#[test]
fn extensions_are_probed(rt: HostRuntime) -> Result<(), Fail> {
    let mut rows = Vec::new(rt.alloc());
    push_probes(&mut rows, &PRESENT, 1)?;
    push_probes(&mut rows, &NO_LEGACY, 0)?;
    push_probes(&mut rows, &ABSENT, 0)?;
    answers_alone(&rt, rt.alloc(), 1, &rows)?;
    answers_alone(&rt, rt.alloc(), 2, &rows)?;
    answers_alone(&rt, rt.alloc(), 4, &rows)
}

/// Calls of extensions and functions that there are not.
fn push_absent(rows: &mut Vec<Row>) -> Result<(), Fail> {
    for extension in NO_LEGACY {
        for function in [0, 1, ALL] {
            let called = (extension, function);
            let end = end_of(LegacyFails(NotSupported));
            rows.push(row(0, called, [5, 6, 7, 8], false, end))?;
        }
    }
    for extension in ABSENT {
        for function in [0, 3] {
            let called = (extension, function);
            rows.push(row(0, called, [5, 6, 7, 8], false, failed(NotSupported)))?;
        }
    }
    for called in OTHER_FUNCTIONS {
        rows.push(row(0, called, [1, 0, 0, 0], false, failed(NotSupported)))?;
    }
    for (_, called, args, want) in UNSET {
        rows.push(row(0, called, args, false, end_of(want)))?;
    }
    Ok(())
}

#[test]
fn absent_calls_are_not_supported(rt: HostRuntime) -> Result<(), Fail> {
    let mut rows = Vec::new(rt.alloc());
    push_absent(&mut rows)?;
    answers_alone(&rt, rt.alloc(), 1, &rows)?;
    answers_alone(&rt, rt.alloc(), 2, &rows)?;
    answers_alone(&rt, rt.alloc(), 4, &rows)
}

/// One call that ends the machine: STOP has this.
fn ends_with(rt: &impl Abort, alloc: Global, harts: u8, rows: &[Row], word: u64) -> Result<(), Fail>
    requires some { 1 ≤ harts }
    requires most { harts ≤ 8 }
{
    let words = plays_on(rt, alloc, harts, rows)?;
    assert_eq!(rt; words.get(stop_word()), word);
    assert_eq!(rt; words.get(cons_word()), 0);
    Ok(())
}

#[test]
fn calls_end_the_machine(rt: HostRuntime) -> Result<(), Fail> {
    for (called, args, reason) in ENDINGS {
        // 1 in STOP is a pass, 0x102 a fail with the code 1
        let word = if reason == Reason::Pass { 1 } else { 0x102 };
        let rows = [row(0, called, args, false, end_of(Ends(reason)))];
        ends_with(&rt, rt.alloc(), 1, &rows, word)?;
        ends_with(&rt, rt.alloc(), 2, &rows, word)?;
        ends_with(&rt, rt.alloc(), 4, &rows, word)?;
    }
    Ok(())
}
