// Lines whose words stand apart by one space each, and what the grammar says that they say.
use crate::lines::said_here;
use std::alloc::{AllocError, Global};
use std::process::Abort;
use std::test::Fail;
use tlbvm::read_line;

/// What a line says: ELF, ORDER, harts, pages, limit and regs.
type Said = (&'static str, &'static str, u8, u32, u64, bool);

const HARTS: u8 = 1;

const PAGES: u32 = 1024;

const LIMIT: u64 = 50_000_000;

/// A line with no options.
fn files(elf: &'static str, order: &'static str) -> Option<Said> {
    Some((elf, order, HARTS, PAGES, LIMIT, false))
}

/// A line of the operands `e` and `o`.
fn options(harts: u8, pages: u32, limit: u64, regs: bool) -> Option<Said> {
    Some(("e", "o", harts, pages, limit, regs))
}

fn compare(
    rt: &impl Abort,
    alloc: Global,
    line: &str,
    want: Option<Said>,
) -> Result<(), AllocError> {
    let mut words = Vec::new(alloc);
    for word in line.split(' ') {
        words.push(String::from_str(alloc, word)?)?;
    }
    let said = said_here(&words);
    assert_eq!(rt; said, want, "{line}");
    Ok(())
}

#[test]
fn operands_are_two(rt: HostRuntime) -> Result<(), Fail> {
    let alloc = rt.alloc();
    for (line, want) in [
        ("plain e o", files("e", "o")),
        ("plain -- --e -o", files("--e", "-o")),
        ("plain e -- o", files("e", "o")),
        ("plain e o --", files("e", "o")),
        ("plain -- e o", files("e", "o")),
        ("plain -- -- --", files("--", "--")),
        ("plain -- e --", files("e", "--")),
        ("plain - o", files("-", "o")),
        ("plain e -", files("e", "-")),
        ("plain - -", files("-", "-")),
        ("plain -- - -r", files("-", "-r")),
        ("plain -- e --regs", files("e", "--regs")),
        ("plain e -- --harts=2", files("e", "--harts=2")),
        ("plain e o=1", files("e", "o=1")),
        ("plain  o", files("", "o")),
        ("plain plain plain", files("plain", "plain")),
        ("plain 8 9", files("8", "9")),
        ("plain é ô", files("é", "ô")),
    ] {
        compare(&rt, alloc, line, want)?;
    }
    Ok(())
}

#[test]
fn other_operands_and_commands_are_none(rt: HostRuntime) -> Result<(), Fail> {
    let alloc = rt.alloc();
    assert!(rt; read_line(&[]).is_none());
    for line in [
        "",
        "plain",
        "plain e",
        "plain --",
        "plain -- e",
        "plain e o x",
        "plain e o ",
        "plain e -- o x",
        "plain e -- o --",
        "plain e -- o --regs",
        "plain -- e --limit 5",
        "plain e -o",
        "plain e --o",
        "e o",
        "Plain e o",
        "plai e o",
        "plainly e o",
        "sched e o",
        "--regs plain e o",
        "-- plain e o",
    ] {
        compare(&rt, alloc, line, None)?;
    }
    Ok(())
}

#[test]
fn options_stand_anywhere(rt: HostRuntime) -> Result<(), Fail> {
    let alloc = rt.alloc();
    for (line, want) in [
        ("plain --harts 2 e o", options(2, PAGES, LIMIT, false)),
        ("plain e --harts=2 o --regs", options(2, PAGES, LIMIT, true)),
        ("plain --regs e o", options(HARTS, PAGES, LIMIT, true)),
        ("plain e --regs -- o", options(HARTS, PAGES, LIMIT, true)),
        ("plain --limit 5 -- e o", options(HARTS, PAGES, 5, false)),
        (
            "plain e --pages 512 --limit 9 --regs --harts 3 o",
            options(3, 512, 9, true),
        ),
        (
            "plain --limit=9 e o --harts=3 --pages=512",
            options(3, 512, 9, false),
        ),
        (
            "plain --regs 1 o",
            Some(("1", "o", HARTS, PAGES, LIMIT, true)),
        ),
    ] {
        compare(&rt, alloc, line, want)?;
    }
    Ok(())
}

#[test]
fn numbers_have_bounds(rt: HostRuntime) -> Result<(), Fail> {
    let alloc = rt.alloc();
    for (line, want) in [
        ("plain e o --harts 1", options(1, PAGES, LIMIT, false)),
        ("plain e o --harts 8", options(8, PAGES, LIMIT, false)),
        ("plain e o --harts=08", options(8, PAGES, LIMIT, false)),
        (
            "plain e o --harts 00000000000000000002",
            options(2, PAGES, LIMIT, false),
        ),
        ("plain e o --pages 256", options(HARTS, 256, LIMIT, false)),
        ("plain e o --pages 0256", options(HARTS, 256, LIMIT, false)),
        ("plain e o --pages=4096", options(HARTS, 4096, LIMIT, false)),
        ("plain e o --limit 1", options(HARTS, PAGES, 1, false)),
        (
            "plain e o --limit 1000000000000",
            options(HARTS, PAGES, 1_000_000_000_000, false),
        ),
        (
            "plain e o --limit 00000001000000000000",
            options(HARTS, PAGES, 1_000_000_000_000, false),
        ),
        ("plain e o --harts 0", None),
        ("plain e o --harts 9", None),
        ("plain e o --harts=9", None),
        ("plain e o --harts 257", None),
        ("plain e o --harts 18446744073709551617", None),
        ("plain e o --harts 000000000000000000002", None),
        ("plain e o --pages 255", None),
        ("plain e o --pages 4097", None),
        ("plain e o --pages 4294967552", None),
        ("plain e o --limit 0", None),
        ("plain e o --limit 1000000000001", None),
        ("plain e o --limit 99999999999999999999", None),
        ("plain e o --limit 000000000000000000000", None),
    ] {
        compare(&rt, alloc, line, want)?;
    }
    Ok(())
}

#[test]
fn other_options_are_none(rt: HostRuntime) -> Result<(), Fail> {
    let alloc = rt.alloc();
    for line in [
        // no value, or a value that begins with a dash
        "plain e o --harts",
        "plain e o --harts=",
        "plain e --limit  o",
        "plain --harts e o",
        "plain e o --harts -1",
        "plain e o --harts -",
        "plain e o --harts -- 2",
        "plain e o --harts --regs",
        // a value that is no number
        "plain e o --harts 2x",
        "plain e o --harts +2",
        "plain e o --harts = 2",
        "plain e o --harts==2",
        "plain e o --harts=2=2",
        "plain e o --harts=-2",
        "plain e o --pages 0x400",
        "plain e o --limit 1_000",
        "plain e o --limit ５",
        // an option twice
        "plain e o --harts 2 --harts=2",
        "plain --harts=2 --harts 3 e o",
        "plain e o --pages 256 --pages 256",
        "plain e o --limit=5 --limit=5",
        "plain e --regs o --regs",
        // no option
        "plain e o --reg",
        "plain e o --regs=1",
        "plain e o --regs=",
        "plain e o --regs 1",
        "plain e o -r",
        "plain e o --hart 2",
        "plain e o --hartss=2",
        "plain e o --harts2",
        "plain e o --Harts 2",
        "plain e o -harts 2",
        "plain e o --=2",
        "plain e o -=2",
    ] {
        compare(&rt, alloc, line, None)?;
    }
    Ok(())
}
