// What each call answers, by its extension, its function and the edges of its arguments.
ghost use Rattle.std.specs.Prelude.{◌≤◌};

use super::{FAR, FIRST_CALL, machine_with, play, plays};
use case_guests::RAM;
use sbi_rows::Error::NotSupported;
use sbi_rows::Want::{Ends, Fails, Gives, LegacyFails};
use sbi_rows::{
    ABSENT, ALL, BASE, BASE_ROWS, CONSOLE_ROWS, CallRow, DBCN, ENDINGS, HART_ROWS,
    HART_ROWS_OF_FOUR, HART_ROWS_OF_ONE, HSM, HartRow, NO_LEGACY, OTHER_FUNCTIONS, PRESENT,
    RESET_ROWS, SRST, UNSET,
};
use std::alloc::{AllocError, Global};
use std::process::Abort;
use std::test::Fail;

/// A machine of so many harts, whose hart 0 makes these calls.
pub(super) fn rows_answer(
    rt: &impl Abort,
    alloc: Global,
    harts: u8,
    extension: u64,
    rows: &[CallRow],
) -> Result<(), Fail>
    requires some { 1 ≤ harts }
    requires most { harts ≤ 8 }
{
    let mut steps = Vec::new(alloc);
    for (function, args, want) in rows {
        steps.push((0, (extension, *function), *args, *want))?;
    }
    plays(rt, alloc, harts, FAR, &steps)
}

#[test]
fn calls_answer_alike_on_any_harts(rt: HostRuntime) -> Result<(), Fail> {
    let alloc = rt.alloc();
    for (extension, rows) in [
        (BASE, BASE_ROWS.as_slice()),
        (HSM, HART_ROWS.as_slice()),
        (SRST, RESET_ROWS.as_slice()),
        (DBCN, CONSOLE_ROWS.as_slice()),
    ] {
        rows_answer(&rt, alloc, 1, extension, rows)?;
        rows_answer(&rt, alloc, 4, extension, rows)?;
    }
    Ok(())
}

#[test]
fn other_harts_are_there_or_not(rt: HostRuntime) -> Result<(), Fail> {
    let alloc = rt.alloc();
    rows_answer(&rt, alloc, 1, HSM, &HART_ROWS_OF_ONE)?;
    rows_answer(&rt, alloc, 4, HSM, &HART_ROWS_OF_FOUR)
}

#[test]
fn extensions_are_probed(rt: HostRuntime) -> Result<(), Fail> {
    let alloc = rt.alloc();
    let mut rows = Vec::new(alloc);
    for extension in PRESENT {
        rows.push((3, [extension, 0, 0, 0], Gives(1)))?;
    }
    for extension in NO_LEGACY {
        rows.push((3, [extension, 0, 0, 0], Gives(0)))?;
    }
    for extension in ABSENT {
        rows.push((3, [extension, 0, 0, 0], Gives(0)))?;
    }
    rows_answer(&rt, alloc, 1, BASE, &rows)?;
    rows_answer(&rt, alloc, 4, BASE, &rows)
}

/// Calls of extensions and functions that there are not.
fn absent_rows(alloc: Global) -> Result<Vec<HartRow>, AllocError> {
    let mut rows = Vec::new(alloc);
    for extension in NO_LEGACY {
        for function in [0, 1, ALL] {
            rows.push((
                0,
                (extension, function),
                [5, 6, 7, 8],
                LegacyFails(NotSupported),
            ))?;
        }
    }
    for extension in ABSENT {
        for function in [0, 3] {
            rows.push((0, (extension, function), [5, 6, 7, 8], Fails(NotSupported)))?;
        }
    }
    for called in OTHER_FUNCTIONS {
        rows.push((0, called, [1, 0, 0, 0], Fails(NotSupported)))?;
    }
    Ok(rows)
}

fn prints_nothing(rt: &impl Abort, alloc: Global, harts: u8, rows: &[HartRow]) -> Result<(), Fail>
    requires some { 1 ≤ harts }
    requires most { harts ≤ 8 }
{
    let machine = play(rt, alloc, harts, FAR, rows)?;
    assert!(rt; machine.console().is_empty());
    Ok(())
}

#[test]
fn absent_calls_are_not_supported(rt: HostRuntime) -> Result<(), Fail> {
    let alloc = rt.alloc();
    let rows = absent_rows(alloc)?;
    prints_nothing(&rt, alloc, 1, &rows)?;
    prints_nothing(&rt, alloc, 4, &rows)?;
    prints_nothing(&rt, alloc, 1, &UNSET)
}

#[test]
fn calls_end_the_machine(rt: HostRuntime) -> Result<(), Fail> {
    let alloc = rt.alloc();
    for (called, args, reason) in ENDINGS {
        let rows = [(0, called, args, Ends(reason))];
        plays(&rt, alloc, 1, FAR, &rows)?;
        let mut machine = play(&rt, alloc, 4, FAR, &rows)?;
        let answers = [
            machine.turn(0),
            machine.turn(1),
            machine.turn(2),
            machine.turn(3),
        ];
        assert_eq!(rt; answers, [Some(reason); 4]);
        assert_eq!(rt; machine.count(0), FIRST_CALL);
        assert!(rt; machine.console().is_empty());
    }
    Ok(())
}

// a7 is 0 where a machine begins, which is the number of a legacy extension that there is not.
#[test]
fn a_first_call_is_not_supported(rt: HostRuntime) -> Result<(), Fail> {
    let ecall = [0x0000_0073];
    let segments = [(RAM, ecall.as_slice())];
    let mut machine = machine_with(rt.alloc(), 1, FAR, &segments)?;
    assert_eq!(rt; machine.turn(0), None);
    let arch = machine.arch(0);
    assert_eq!(rt; (arch.x[10], arch.x[11]), (0xffff_ffff_ffff_fffe, 0));
    assert_eq!(rt; arch.pc, 0x8000_0004);
    assert_eq!(rt; machine.count(0), 1);
    Ok(())
}
