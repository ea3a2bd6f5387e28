//! Runs cases of the program's top, whose text it reads from standard input: each a command line over files and output in memory,
//! and how it is to end. Prints a line for each case, `as wanted` or what differs, and how many there were.
//!
//! A line that begins with a word says one thing; lines that begin with a blank are the text of the one above them.
//!
//! - `part NAME`: assembler lines for guests. They stand for all cases below.
//! - `case NAME`: begins a case. `like NAME` takes over what an earlier one says, but for the lines of a kind that this one has too.
//! - `line WORDS`: the command line. `by WORDS`: another one, by which the same is wanted.
//! - `guest NAMES`: the file `elf` is assembled from these parts and from the text beneath; `with NAME` is this case's own part.
//! - `elf BYTES` and hexadecimal bytes beneath: the file itself. `byte AT VALUE` changes one of its bytes.
//! - `order WORDS` or `order BYTES`: a line of the file `order`, or its bytes as they stand.
//! - `fail read N`, `fail out N`, `fail log N`: this call of an edge, from 0, fails.
//! - `wants CODE LINE`: the exit code and the status line. `out BYTES`, `log BYTES`: what is written, nothing where neither is said.
//! - `end WORDS`: the report's first line, and all of it without `--regs`. `hart H count N pc V x5 V rest V`: of the report's line of a
//!   hart; values are hexadecimal, and `rest` is what registers hold that aren't named.
//!
//! BYTES are texts in quotes, with the escapes `\n`, `\r`, `\t`, `\\` and `\xHH`, and hexadecimal digits, with `x N` behind what stands N times.
#![tactic(auto)]

mod bytes;
mod case;
mod compare;
mod files;
mod reading;
mod report;

use reading::Cases;
use std::io::{BufRead, BufReader};

fn main(rt: HostRuntime) -> anyhow::Result<()> {
    let alloc = rt.alloc();
    let mut cases = Cases::new(alloc);
    for line in BufReader::new(alloc, rt.reader())?.lines(alloc) {
        cases.read_line(&rt, line?.as_str())?;
    }
    cases.end(&rt)?;
    println!(rt; "{} of {} as wanted", cases.as_wanted, cases.run)?;
    Ok(())
}
