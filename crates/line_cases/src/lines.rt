// Accepted command lines, by the program and by the crate `clap` with the same operands and options.
use clap::{Arg, ArgAction, ArgMatches, Command, value_parser};
use std::alloc::{AllocError, Global};
use std::process::Abort;
use std::test::Fail;
use tlbvm::{Line, read_line};

/// What a line says: ELF, ORDER, harts, pages, limit and regs.
pub(crate) type Said<'a> = (&'a str, &'a str, u8, u32, u64, bool);

/// A number where none is asked for.
const HARTS: u8 = 1;

const PAGES: u32 = 1024;

const LIMIT: u64 = 50_000_000;

/// A line with the operands `e` and `o`, and what else it says: harts, pages, limit and regs.
type Options = (&'static str, u8, u32, u64, bool);

const OPTIONS: [Options; 30] = [
    ("plain e o", HARTS, PAGES, LIMIT, false),
    ("plain e o --regs", HARTS, PAGES, LIMIT, true),
    ("plain e --regs o", HARTS, PAGES, LIMIT, true),
    ("plain --regs e o", HARTS, PAGES, LIMIT, true),
    ("plain e o --harts 1", 1, PAGES, LIMIT, false),
    ("plain e o --harts 8", 8, PAGES, LIMIT, false),
    ("plain e o --harts=8", 8, PAGES, LIMIT, false),
    ("plain e --harts 2 o", 2, PAGES, LIMIT, false),
    ("plain --harts=3 e o", 3, PAGES, LIMIT, false),
    ("plain e o --harts 08", 8, PAGES, LIMIT, false),
    ("plain e o --pages 256", HARTS, 256, LIMIT, false),
    ("plain --pages=4096 e o", HARTS, 4096, LIMIT, false),
    ("plain e --pages 0257 o", HARTS, 257, LIMIT, false),
    ("plain e o --limit 1", HARTS, PAGES, 1, false),
    (
        "plain e o --limit=1000000000000",
        HARTS,
        PAGES,
        1_000_000_000_000,
        false,
    ),
    (
        "plain e o --limit 00000001000000000000",
        HARTS,
        PAGES,
        1_000_000_000_000,
        false,
    ),
    (
        "plain e --limit 5 --regs o --harts 2 --pages=300",
        2,
        300,
        5,
        true,
    ),
    (
        "plain --harts 2 --pages 300 --limit 5 --regs e o",
        2,
        300,
        5,
        true,
    ),
    ("plain -- e o", HARTS, PAGES, LIMIT, false),
    ("plain e -- o", HARTS, PAGES, LIMIT, false),
    ("plain e o --", HARTS, PAGES, LIMIT, false),
    ("plain --harts 2 e o", 2, PAGES, LIMIT, false),
    ("plain e --harts=2 o --regs", 2, PAGES, LIMIT, true),
    ("plain e --regs -- o", HARTS, PAGES, LIMIT, true),
    ("plain --limit 5 -- e o", HARTS, PAGES, 5, false),
    (
        "plain e --pages 512 --limit 9 --regs --harts 3 o",
        3,
        512,
        9,
        true,
    ),
    (
        "plain --limit=9 e o --harts=3 --pages=512",
        3,
        512,
        9,
        false,
    ),
    (
        "plain e o --harts 00000000000000000002",
        2,
        PAGES,
        LIMIT,
        false,
    ),
    ("plain e o --pages 0256", HARTS, 256, LIMIT, false),
    ("plain e o --pages=4096", HARTS, 4096, LIMIT, false),
];

/// A line with other operands, and what it says: ELF, ORDER, harts and regs.
type Operands = (&'static str, &'static str, &'static str, u8, bool);

const OPERANDS: [Operands; 10] = [
    ("plain - o", "-", "o", HARTS, false),
    ("plain e -", "e", "-", HARTS, false),
    ("plain e=1 o.txt", "e=1", "o.txt", HARTS, false),
    ("plain - -", "-", "-", HARTS, false),
    ("plain e o=1", "e", "o=1", HARTS, false),
    ("plain  o", "", "o", HARTS, false),
    ("plain plain plain", "plain", "plain", HARTS, false),
    ("plain 8 9", "8", "9", HARTS, false),
    ("plain é ô", "é", "ô", HARTS, false),
    ("plain --regs 1 o", "1", "o", HARTS, true),
];

/// Behind `--` each word is an operand.
const BEHIND_DASHES: [Operands; 8] = [
    ("plain --regs -- -e --harts", "-e", "--harts", HARTS, true),
    ("plain e --harts 4 -- -o", "e", "-o", 4, false),
    ("plain -- --e -o", "--e", "-o", HARTS, false),
    ("plain -- -- --", "--", "--", HARTS, false),
    ("plain -- e --", "e", "--", HARTS, false),
    ("plain -- - -r", "-", "-r", HARTS, false),
    ("plain -- e --regs", "e", "--regs", HARTS, false),
    ("plain e -- --harts=2", "e", "--harts=2", HARTS, false),
];

fn words_of(alloc: Global, line: &str) -> Result<Vec<String>, AllocError> {
    let mut words = Vec::new(alloc);
    for word in line.split(' ') {
        words.push(String::from_str(alloc, word)?)?;
    }
    Ok(words)
}

fn option<'a>(alloc: Global, name: &'a str) -> Arg<'a> {
    Arg::new(alloc, name).long(name)
}

fn operand<'a>(alloc: Global, name: &'a str) -> Arg<'a> {
    Arg::new(alloc, name).required(true)
}

fn command<'a>(alloc: Global) -> Result<Command<'a>, AllocError> {
    let command = Command::new(alloc, "plain").arg(operand(alloc, "elf"))?;
    let command = command.arg(operand(alloc, "order"))?;
    let harts = option(alloc, "harts").value_parser(value_parser!(u8));
    let command = command.arg(harts)?;
    let pages = option(alloc, "pages").value_parser(value_parser!(u32));
    let command = command.arg(pages)?;
    let limit = option(alloc, "limit").value_parser(value_parser!(u64));
    let command = command.arg(limit)?;
    command.arg(option(alloc, "regs").action(ArgAction::SetTrue))
}

fn said_by<'a>(matches: &ArgMatches<'a>) -> Option<Said<'a>> {
    Some((
        matches.get_str("elf")?,
        matches.get_str("order")?,
        matches.get_one::<u8>("harts").unwrap_or(HARTS),
        matches.get_one::<u32>("pages").unwrap_or(PAGES),
        matches.get_one::<u64>("limit").unwrap_or(LIMIT),
        matches.get_flag("regs"),
    ))
}

/// What a line is here: ELF, ORDER, harts, pages, limit and regs.
pub(crate) fn said_here<'a>(words: &'a [String]) -> Option<Said<'a>> {
    let Some(Line::Plain { elf, order, asked }) = read_line(words) else {
        return None;
    };
    Some((
        elf,
        order,
        asked.harts,
        asked.pages,
        asked.limit,
        asked.regs,
    ))
}

fn compare(rt: &impl Abort, alloc: Global, line: &str, want: Said<'static>) -> Result<(), Fail> {
    let words = words_of(alloc, line)?;
    assert_eq!(rt; said_here(&words), Some(want), "{line}");
    let matches = command(alloc)?.try_get_matches_from(words.as_slice())?;
    assert_eq!(rt; said_by(&matches), Some(want), "clap: {line}");
    Ok(())
}

fn all_options(rt: &impl Abort, alloc: Global, rows: &[Options]) -> Result<(), Fail> {
    for (line, harts, pages, limit, regs) in rows {
        let want = ("e", "o", *harts, *pages, *limit, *regs);
        compare(rt, alloc, line, want)?;
    }
    Ok(())
}

#[test]
fn options_say_what_clap_reads(rt: HostRuntime) -> Result<(), Fail> {
    all_options(&rt, rt.alloc(), &OPTIONS)
}

fn all_operands(rt: &impl Abort, alloc: Global, rows: &[Operands]) -> Result<(), Fail> {
    for (line, elf, order, harts, regs) in rows {
        let want = (*elf, *order, *harts, PAGES, LIMIT, *regs);
        compare(rt, alloc, line, want)?;
    }
    Ok(())
}

#[test]
fn operands_say_what_clap_reads(rt: HostRuntime) -> Result<(), Fail> {
    all_operands(&rt, rt.alloc(), &OPERANDS)
}

#[test]
fn words_behind_dashes_are_operands(rt: HostRuntime) -> Result<(), Fail> {
    all_operands(&rt, rt.alloc(), &BEHIND_DASHES)
}
