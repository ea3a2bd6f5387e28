// The listing of an image, a line for each word of its parts.
ghost use Rattle.std.specs.Prelude.{◌≡◌, ◌≤◌, ◌<◌, ◌+◌, ◌^◌, ◌++◌, OnOk, IfOk, string_bytes, length, drop};
ghost use Rattle.elf_load.specs.Header.{number_at};
ghost use Rattle.elf_load.specs.ImageOf.{IsImageOf};
ghost use Rattle.rv64_decode.specs.Encoding.{Decodes};
ghost use Rattle.rv_asm.specs.Listing.{address, numbers_behind, numbers_text, parts_in, rest_line, word_line, IsListing};
ghost use Rattle.rv_asm.specs.Lists.{Lists, ListsParts, AreInFile};

use crate::operands::Parts;
use crate::parts::parts_of;
use crate::spelling::{push_hex, push_parts};
use byteorder::{ByteOrder, LittleEndian};
use elf_load::{Image, Part};
use rv64_decode::{Instr, decode};
use std::alloc::{AllocError, Global};
use vm_io::NoMemory;

/// Appends an address in 8 digits, or in 16 where it has more.
fn push_address(text: &mut String, place: u64) -> Result<(), AllocError>
    ensures { OnOk result (string_bytes text.new ≡ string_bytes text.old ++ address place) }
{
    let digits = if place < 0x1_0000_0000 { 8 } else { 16 };
    push_hex(text, digits, place)
}

/// The little-endian word from a file's byte on.
fn word_at(file: &[u8], at: usize) -> u32
    requires { at + 4 ≤ length file.now }
    ensures { result ≡ number_at file.now at 4 }
{
    LittleEndian::read_u32(&file[at..at + 4])
}

fn decoded(word: u32) -> Option<Instr>
    ensures { Decodes word result }
{
    decode(word)
}

fn parts_in(instr: Option<Instr>) -> Option<Parts>
    ensures { result ≡ parts_in instr }
{
    match instr {
        Some(instr) => parts_of(&instr),
        None => None,
    }
}

/// Appends the line of a word that lies at a place.
fn push_line(
    text: &mut String,
    place: u64,
    word: u32,
    instr: Option<Instr>,
) -> Result<(), AllocError>
    requires low { 2 ^ 31 ≤ place }
    requires high { place < 2 ^ 40 }
    ensures { OnOk result (string_bytes text.new ≡ string_bytes text.old ++ word_line place word instr) }
{
    push_address(text, place)?;
    text.push_str(": ")?;
    push_hex(text, 8, u64::from(word))?;
    text.push_str(" ")?;
    push_parts(text, place, word, parts_in(instr))?;
    text.push_str("\n")
}

/// Appends numbers, each behind a comma.
fn push_behind(text: &mut String, bytes: &[u8]) -> Result<(), AllocError>
    ensures { OnOk result (string_bytes text.new ≡ string_bytes text.old ++ numbers_behind bytes.now) }
{
    if let [first, rest @ ..] = bytes {
        write!(text, ", {first}")?;
        push_behind(text, rest)?;
    }
    Ok(())
}

/// Appends numbers, apart by commas.
fn push_numbers(text: &mut String, bytes: &[u8]) -> Result<(), AllocError>
    ensures { OnOk result (string_bytes text.new ≡ string_bytes text.old ++ numbers_text bytes.now) }
{
    if let [first, rest @ ..] = bytes {
        write!(text, "{first}")?;
        push_behind(text, rest)?;
    }
    Ok(())
}

/// Appends the line of a rest of a part.
fn push_rest(text: &mut String, place: u64, bytes: &[u8]) -> Result<(), AllocError>
    ensures { OnOk result (string_bytes text.new ≡ string_bytes text.old ++ rest_line place bytes.now) }
{
    push_address(text, place)?;
    text.push_str(": .byte ")?;
    push_numbers(text, bytes)?;
    text.push_str("\n")
}

/// Appends the lines of the `len` bytes from the file's byte `at` on, which lie in memory from `place` on.
fn push_lines(
    text: &mut String,
    file: &[u8],
    at: usize,
    len: usize,
    place: u64,
) -> Result<(), AllocError>
    requires in_file { at + len ≤ length file.now }
    requires low { 2 ^ 31 ≤ place }
    requires high { place + len ≤ 2 ^ 32 }
    ensures { OnOk result (Lists file.now at len place (string_bytes text.old) (string_bytes text.new)) }
{
    let mut at = at;
    let mut left = len;
    let mut place = place;
    while left >= 4 {
        let word = word_at(file, at);
        push_line(text, place, word, decoded(word))?;
        at += 4;
        place += 4;
        left -= 4;
    }
    if left > 0 {
        push_rest(text, place, &file[at..at + left])?;
    }
    Ok(())
}

/// Appends the lines of all parts.
fn push_all(text: &mut String, file: &[u8], parts: &[Part]) -> Result<(), AllocError>
    requires { AreInFile file.now parts.now }
    ensures { OnOk result (ListsParts file.now parts.now (string_bytes text.old) (string_bytes text.new)) }
{
    for part in parts {
        push_lines(text, file, part.at, part.len, part.place)?;
    }
    Ok(())
}

/// The listing of an image that was read from this file: for each part its bytes in the file, a line `ADDR: WORD TEXT`
/// for each word of four bytes. `TEXT` is an instruction as an assembler's text has it, or `.word`; a rest of one to
/// three bytes is a line `ADDR: .byte` with their numbers.
pub fn disassemble(alloc: Global, image: &Image, file: &[u8]) -> Result<Vec<u8>, NoMemory>
    requires { IsImageOf file.now 4096 image.now }
    ensures { IfOk result (λ text. IsListing file.now image.now.parts text.items) }
{
    let mut text = String::new(alloc);
    push_all(&mut text, file, image.parts.as_slice())?;
    Ok(text.into_bytes())
}
