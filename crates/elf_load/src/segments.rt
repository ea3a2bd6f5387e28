// The program headers that place something in memory: their checks, where the program starts, and the parts
// that they give.
ghost use Rattle.std.specs.Prelude.{◌≡◌, ◌≤◌, ◌+◌, ◌*◌, ◌%◌, ◌^◌, length, map, IfOk, IsNone, IfSome, Some, true};
ghost use Rattle.std.specs.Prelude.{nat_lt};
ghost use Rattle.std.specs.List.{All, list_any};
ghost use Rattle.elf_load.specs.Fields.{fields_of};
ghost use Rattle.elf_load.specs.Header.{e_phoff, e_phnum};
ghost use Rattle.elf_load.specs.ImageOf.{first_failed, place_checks, all_place_checks, placed, is_placed, shares_byte};
ghost use Rattle.elf_load.specs.ImageOf.{overlaps, holds_entry, start_among, is_bad_start, part_of};

use crate::header::{PROGRAM_HEADER, ProgramHeader, program_header_at, u16_at, u64_at};
use crate::image::{BadImage, Part};
use std::alloc::{AllocError, Global};

const RAM_BASE: u64 = 0x8000_0000;

const PAGE_BYTES: u64 = 4096;

const TYPE_LOAD: u32 = 1;

/// A header of type "load" that places something in memory.
fn is_placed(header: &ProgramHeader) -> bool
    ensures { result ≡ is_placed (fields_of header.now) }
{
    header.p_type == TYPE_LOAD && header.p_memsz > 0
}

/// The headers that place something, in the order of the table.
pub(crate) fn placed_headers(alloc: Global, file: &[u8]) -> Result<Vec<ProgramHeader>, AllocError>
    requires head { 64 ≤ length file.now }
    requires table { e_phoff file.now + 56 * e_phnum file.now ≤ length file.now }
    ensures { IfOk result (λ headers. map fields_of headers.items ≡ placed file.now) }
{
    let table = u64_at(file, 32) as usize;
    let mut headers = Vec::new(alloc);
    for i in 0..u16_at(file, 56) as usize {
        let header = program_header_at(file, table + PROGRAM_HEADER * i);
        if is_placed(&header) {
            headers.push(header)?;
        }
    }
    Ok(headers)
}

/// The first check of a header that places something that fails.
fn place_fault(header: &ProgramHeader, len: usize, pages: u32) -> Option<BadImage>
    requires { pages ≤ 4096 }
    ensures { result ≡ first_failed (place_checks len pages (fields_of header.now)) }
{
    let len = len as u64;
    if header.p_offset > len || header.p_filesz > len - header.p_offset {
        return Some(BadImage::Short);
    }
    let ram_end = RAM_BASE + PAGE_BYTES * pages as u64;
    let is_within = header.p_filesz <= header.p_memsz
        && RAM_BASE <= header.p_paddr
        && header.p_paddr <= ram_end
        && header.p_memsz <= ram_end - header.p_paddr;
    if is_within {
        None
    } else {
        Some(BadImage::SegmentOutside)
    }
}

/// The first of these checks that fails, header by header.
pub(crate) fn place_faults(headers: &[ProgramHeader], len: usize, pages: u32) -> Option<BadImage>
    requires { pages ≤ 4096 }
    ensures { result ≡ first_failed (all_place_checks len pages (map fields_of headers.now)) }
{
    for header in headers {
        if let Some(kind) = place_fault(header, len, pages) {
            return Some(kind);
        }
    }
    None
}

/// The physical address lies before the end of a segment.
fn is_before_end(place: u64, header: &ProgramHeader) -> bool
    ensures { result ≡ nat_lt place (header.now.p_paddr + header.now.p_memsz) }
{
    place < header.p_paddr || place - header.p_paddr < header.p_memsz
}

fn shares_byte(one: &ProgramHeader, other: &ProgramHeader) -> bool
    ensures { result ≡ shares_byte (fields_of one.now) (fields_of other.now) }
{
    is_before_end(one.p_paddr, other) && is_before_end(other.p_paddr, one)
}

fn shares_with_any(one: &ProgramHeader, others: &[ProgramHeader]) -> bool
    ensures { result ≡ list_any (shares_byte (fields_of one.now)) (map fields_of others.now) }
{
    for other in others {
        if shares_byte(one, other) {
            return true;
        }
    }
    false
}

/// Two segments cover some physical byte.
pub(crate) fn overlaps(headers: &[ProgramHeader]) -> bool
    ensures { result ≡ overlaps (map fields_of headers.now) }
{
    for (i, header) in headers.iter().enumerate() {
        if shares_with_any(header, &headers[i + 1..]) {
            return true;
        }
    }
    false
}

fn holds_entry(header: &ProgramHeader, entry: u64) -> bool
    ensures { result ≡ holds_entry entry (fields_of header.now) }
{
    header.p_vaddr <= entry && entry - header.p_vaddr < header.p_memsz
}

/// The entry's physical address by the first header that holds the entry, where it is a multiple of 4.
pub(crate) fn start_among(headers: &[ProgramHeader], entry: u64) -> Option<u64>
    requires { All (λ header. header.p_paddr + header.p_memsz ≤ 2 ^ 31 + 4096 * 4096) headers.now }
    ensures some { IfSome result (λ start. (start_among entry (map fields_of headers.now) ≡ Some start) × (start % 4 ≡ 0)) }
    ensures none { IsNone result → is_bad_start (start_among entry (map fields_of headers.now)) ≡ true }
{
    for header in headers {
        if holds_entry(header, entry) {
            let start = entry - header.p_vaddr + header.p_paddr;
            return if start % 4 == 0 { Some(start) } else { None };
        }
    }
    None
}

fn part_of(header: &ProgramHeader) -> Part
    ensures { result ≡ part_of (fields_of header.now) }
{
    Part {
        place: header.p_paddr,
        at: header.p_offset as usize,
        len: header.p_filesz as usize,
        zeros: header.p_memsz.saturating_sub(header.p_filesz),
    }
}

/// What the segments put into memory, in their order.
pub(crate) fn parts_of(alloc: Global, headers: &[ProgramHeader]) -> Result<Vec<Part>, AllocError>
    ensures { IfOk result (λ parts. parts.items ≡ map part_of (map fields_of headers.now)) }
{
    let mut parts = Vec::new(alloc);
    for header in headers {
        parts.push(part_of(header))?;
    }
    Ok(parts)
}
