// How a case's call ended, beside what is wanted.
use crate::bytes::{push_bytes, shown};
use crate::case::{Case, Entry};
use crate::files::{failing, files_of};
use crate::report::hart_differs;
use anyhow::{Context, Result};
use std::alloc::{AllocError, Global};
use tlbvm::{Status, code, status_line, tlbvm_still};
use vm_io::{MemImages, MemSink};

/// What a call left behind.
#[derive(Drop)]
struct Ended {
    status: Status,
    out: MemSink,
    log: MemSink,
}

fn words_of(alloc: Global, line: &str) -> Result<Vec<String>, AllocError> {
    let mut words = Vec::new(alloc);
    for word in line.split_ascii_whitespace() {
        words.push(String::from_str(alloc, word)?)?;
    }
    Ok(words)
}

fn call(alloc: Global, case: &Case, parts: &[Entry], line: &str) -> Result<Ended> {
    let words = words_of(alloc, line)?;
    let mut images = MemImages::new(files_of(alloc, case, parts)?, failing(alloc, case, "read")?);
    let mut out = MemSink::new(Vec::new(alloc), failing(alloc, case, "out")?);
    let mut log = MemSink::new(Vec::new(alloc), failing(alloc, case, "log")?);
    let status = tlbvm_still(alloc, &words, &mut images, &mut out, &mut log);
    Ok(Ended { status, out, log })
}

/// What differs, line by line.
#[derive(Drop)]
struct Found {
    lines: Vec<String>,
}

impl Found {
    fn push(&mut self, line: String) -> Result<(), AllocError> {
        self.lines.push(line)?;
        Ok(())
    }
}

fn compare_status(alloc: Global, case: &Case, status: &Status, found: &mut Found) -> Result<()> {
    let text = status_line(status);
    let is = format!(in alloc; "{} {}", code(status), text.as_str())?;
    let wanted = case.first("wants").context("nothing is wanted")?;
    if is.as_str() != wanted.rest.as_str() {
        found.push(format!(in alloc; "status {}", is.as_str())?)?;
    }
    Ok(())
}

/// The bytes that all lines of a kind say.
fn said_of(alloc: Global, case: &Case, kind: &str) -> Result<Vec<u8>> {
    let mut bytes = Vec::new(alloc);
    for entry in case.lines(kind) {
        if entry.kind.as_str() == kind {
            push_bytes(alloc, &mut bytes, entry.rest.as_str())?;
        }
    }
    Ok(bytes)
}

fn compare_bytes(
    alloc: Global,
    kind: &str,
    bytes: &[u8],
    wanted: &[u8],
    found: &mut Found,
) -> Result<()> {
    if bytes != wanted {
        let text = shown(alloc, bytes)?;
        found.push(format!(in alloc; "{kind} {}", text.as_str())?)?;
    }
    Ok(())
}

/// The report's first line, and the lines of harts.
fn compare_report(
    alloc: Global,
    case: &Case,
    end: &Entry,
    line: &str,
    log: &[u8],
    found: &mut Found,
) -> Result<()> {
    let report = str::from_utf8(log)?;
    let first = report.lines().next().unwrap_or("");
    let wanted = format!(in alloc; "end: {}", end.rest.as_str())?;
    let whole = line.contains("--regs") || report.lines().count() == 1;
    if first != wanted.as_str() || !whole || !report.ends_with('\n') {
        let text = shown(alloc, log)?;
        found.push(format!(in alloc; "log {}", text.as_str())?)?;
    }
    for entry in case.lines("hart") {
        if entry.kind.as_str() == "hart" {
            if let Some(what) = hart_differs(alloc, report, entry.rest.as_str())? {
                found.push(what)?;
            }
        }
    }
    Ok(())
}

/// Runs a case by a command line, and answers what differs from what it wants.
pub(crate) fn differences(
    alloc: Global,
    case: &Case,
    parts: &[Entry],
    line: &str,
) -> Result<Vec<String>> {
    let mut found = Found {
        lines: Vec::new(alloc),
    };
    let ended = call(alloc, case, parts, line)?;
    compare_status(alloc, case, &ended.status, &mut found)?;
    let out = said_of(alloc, case, "out")?;
    compare_bytes(alloc, "out", ended.out.bytes(), &out, &mut found)?;
    match case.first("end") {
        Some(end) => compare_report(alloc, case, end, line, ended.log.bytes(), &mut found)?,
        None => {
            let log = said_of(alloc, case, "log")?;
            compare_bytes(alloc, "log", ended.log.bytes(), &log, &mut found)?;
        }
    }
    Ok(found.lines)
}
