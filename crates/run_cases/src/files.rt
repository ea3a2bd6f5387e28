// The files of a case, and which calls of its edges fail.
use crate::bytes::{push_bytes, push_hex};
use crate::case::{Case, Entry};
use anyhow::{Context, Result, bail};
use rv_asm::{AsmErr, assemble};
use std::alloc::{AllocError, Global};
use vm_io::MemFile;

/// The text of a part: the case's own, or that of all cases.
fn part_of<'a>(alloc: Global, case: &'a Case, parts: &'a [Entry], name: &str) -> Result<&'a str> {
    let mut kind = String::from_str(alloc, "with ")?;
    kind.push_str(name)?;
    if let Some(own) = case.first(kind.as_str()) {
        return Ok(own.text.as_str());
    }
    for part in parts {
        if part.rest.as_str() == name {
            return Ok(part.text.as_str());
        }
    }
    bail!("no part {name}")
}

/// The file of a guest's text.
fn assembled(alloc: Global, text: &str) -> Result<Vec<u8>> {
    match assemble(alloc, text.as_bytes()) {
        Ok(file) => Ok(file),
        Err(AsmErr::Bad { line, kind }) => bail!("bad text: line {line} kind {kind}"),
        Err(AsmErr::NoMemory) => bail!("out of memory"),
    }
}

fn guest_of(alloc: Global, case: &Case, parts: &[Entry], guest: &Entry) -> Result<Vec<u8>> {
    let mut text = String::new(alloc);
    for name in guest.rest.as_str().split_ascii_whitespace() {
        text.push_str(part_of(alloc, case, parts, name)?)?;
    }
    text.push_str(guest.text.as_str())?;
    assembled(alloc, text.as_str())
}

/// The file that a line of bytes says.
fn bytes_of(alloc: Global, said: &Entry) -> Result<Vec<u8>> {
    let mut file = Vec::new(alloc);
    push_bytes(alloc, &mut file, said.rest.as_str())?;
    for line in said.text.as_str().lines() {
        let code = match line.split_once('#') {
            Some((before, _)) => before,
            None => line,
        };
        for word in code.split_ascii_whitespace() {
            push_hex(&mut file, word)?;
        }
    }
    Ok(file)
}

fn change(file: &mut Vec<u8>, said: &str) -> Result<()> {
    let (at, value) = said.split_once(' ').context("no value")?;
    let at = at.parse::<usize>().context("no place")?;
    let value = value.parse::<u8>().context("no byte")?;
    let byte = file.get_mut(at).context("no such byte")?;
    *byte = value;
    Ok(())
}

fn elf_of(alloc: Global, case: &Case, parts: &[Entry]) -> Result<Vec<u8>> {
    let mut file = match (case.first("guest"), case.first("elf")) {
        (Some(guest), _) => guest_of(alloc, case, parts, guest)?,
        (None, Some(said)) => bytes_of(alloc, said)?,
        (None, None) => Vec::new(alloc),
    };
    for entry in case.lines("byte") {
        if entry.kind.as_str() == "byte" {
            change(&mut file, entry.rest.as_str())?;
        }
    }
    Ok(file)
}

/// The bytes of all lines of a kind; lines without quotes are as they stand, each with a line feed.
pub(crate) fn order_of(alloc: Global, case: &Case) -> Result<Vec<u8>> {
    let mut order = Vec::new(alloc);
    for entry in case.lines("order") {
        let said = entry.rest.as_str();
        if entry.kind.as_str() != "order" {
            continue;
        }
        if said.starts_with('"') {
            push_bytes(alloc, &mut order, said)?;
        } else {
            order.extend_from_slice(said.as_bytes())?;
            order.push(b'\n')?;
        }
    }
    Ok(order)
}

fn mem_file(alloc: Global, name: &str, bytes: Vec<u8>) -> Result<MemFile, AllocError> {
    Ok(MemFile {
        name: String::from_str(alloc, name)?,
        bytes,
        faults: 0,
    })
}

/// The files `elf` and `order`.
pub(crate) fn files_of(alloc: Global, case: &Case, parts: &[Entry]) -> Result<Vec<MemFile>> {
    let elf = mem_file(alloc, "elf", elf_of(alloc, case, parts)?)?;
    let order = mem_file(alloc, "order", order_of(alloc, case)?)?;
    Ok(vec![in alloc; elf, order]?)
}

/// The calls of an edge that fail.
pub(crate) fn failing(alloc: Global, case: &Case, edge: &str) -> Result<Vec<u64>> {
    let mut calls = Vec::new(alloc);
    for entry in case.lines("fail") {
        if entry.kind.as_str() == "fail" {
            let (of, number) = entry.rest.as_str().split_once(' ').context("no call")?;
            let number = number.parse::<u64>().context("no number of a call")?;
            if of == edge {
                calls.push(number)?;
            }
        }
    }
    Ok(calls)
}
