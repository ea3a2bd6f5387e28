//! Words of RAM as the parts of an image give them (ELF-64 Object File Format, "Program header table").
#![tactic(auto)]

ghost use Rattle.std.specs.Prelude.{◌≡◌, ◌+◌, ◌-◌, ◌*◌, ◌≤◌, ◌<◌, ◌^◌, ◌∷◌, ℕ, length, IfSome, IsNone, IsTrue, ◌↔◌};
ghost use Rattle.elf_load.specs.Contents.{is_in_part, part_byte, contents, contents_word};
ghost use Rattle.elf_load.specs.Header.{number_at};

use byteorder::{ByteOrder, LittleEndian};
use elf_load::Part;
use step_laws::RAM_BASE;

/// The part holds the byte at a physical address.
fn is_in_part(pa: u64, part: &Part) -> bool
    ensures { result ≡ is_in_part pa part.now }
{
    if pa < part.place {
        return false;
    }
    let offset = pa - part.place;
    offset < part.len as u64 || offset - (part.len as u64) < part.zeros
}

/// A byte of a part: the file's, or 0 behind these.
fn part_byte(file: &[u8], pa: u64, part: &Part) -> u8
    requires { part.now.place ≤ pa }
    ensures { result ≡ part_byte file.now pa part.now }
{
    let offset = pa - part.place;
    if offset >= part.len as u64 {
        return 0;
    }
    match part.at.checked_add(offset as usize) {
        Some(at) if at < file.len() => file[at],
        _ => 0,
    }
}

/// The byte that parts put at a physical address: the first part's that holds it, else 0.
fn byte_at(file: &[u8], parts: &[Part], pa: u64) -> u8
    ensures { result ≡ contents file.now parts.now pa }
{
    for part in parts {
        if is_in_part(pa, part) {
            return part_byte(file, pa, part);
        }
    }
    0
}

/// The same, of a part and those behind it.
fn byte_over(file: &[u8], part: &Part, rest: &[Part], pa: u64) -> u8
    ensures { result ≡ contents file.now (part.now ∷ rest.now) pa }
{
    if is_in_part(pa, part) {
        part_byte(file, pa, part)
    } else {
        byte_at(file, rest, pa)
    }
}

/// The word that a part and those behind it put at a physical address, byte by byte.
fn word_by_bytes(file: &[u8], part: &Part, rest: &[Part], pa: u64) -> u64
    requires { pa < 2 ^ 40 }
    ensures { result ≡ contents_word file.now (part.now ∷ rest.now) pa }
{
    u64::from(byte_over(file, part, rest, pa))
        + 0x100 * u64::from(byte_over(file, part, rest, pa + 1))
        + 0x1_0000 * u64::from(byte_over(file, part, rest, pa + 2))
        + 0x100_0000 * u64::from(byte_over(file, part, rest, pa + 3))
        + 0x1_0000_0000 * u64::from(byte_over(file, part, rest, pa + 4))
        + 0x100_0000_0000 * u64::from(byte_over(file, part, rest, pa + 5))
        + 0x1_0000_0000_0000 * u64::from(byte_over(file, part, rest, pa + 6))
        + 0x100_0000_0000_0000 * u64::from(byte_over(file, part, rest, pa + 7))
}

/// Where in the file a whole word stands, where all its bytes are a part's bytes of the file.
fn word_in_file(file: &[u8], part: &Part, pa: u64) -> Option<usize>
    requires { pa < 2 ^ 40 }
    ensures some { IfSome result (λ at. (at ≡ part.now.at + (pa - part.now.place)) × (part.now.place ≤ pa) × (pa + 8 ≤ part.now.place + part.now.len) × (at + 8 ≤ length file.now)) }
    ensures none { IsNone result → part.now.place ≤ pa → pa + 8 ≤ part.now.place + part.now.len → length file.now < part.now.at + (pa - part.now.place) + 8 }
{
    if pa < part.place {
        return None;
    }
    let offset = (pa - part.place) as usize;
    let at = part.at.checked_add(offset)?;
    if offset < part.len && part.len - offset >= 8 && at < file.len() && file.len() - at >= 8 {
        Some(at)
    } else {
        None
    }
}

fn file_word(file: &[u8], at: usize) -> u64
    requires { at + 8 ≤ length file.now }
    ensures { result ≡ number_at file.now at 8 }
{
    LittleEndian::read_u64(&file[at..at + 8])
}

/// All bytes of a word are zeros of a part.
fn is_zero_word(part: &Part, pa: u64) -> bool
    requires { pa < 2 ^ 40 }
    ensures { IsTrue result ↔ (part.now.place + part.now.len ≤ pa) × (pa + 8 ≤ part.now.place + part.now.len + part.now.zeros) }
{
    if pa < part.place || pa - part.place < part.len as u64 {
        return false;
    }
    let offset = pa - part.place - (part.len as u64);
    offset < part.zeros && part.zeros - offset >= 8
}

/// The word that a part and those behind it put at a physical address, the first part's bytes where several hold one; quick where the part has
/// the whole of it.
pub fn word_over(file: &[u8], part: &Part, rest: &[Part], pa: u64) -> u64
    requires { pa < 2 ^ 40 }
    ensures { result ≡ contents_word file.now (part.now ∷ rest.now) pa }
{
    if let Some(at) = word_in_file(file, part, pa) {
        return file_word(file, at);
    }
    if is_zero_word(part, pa) {
        return 0;
    }
    word_by_bytes(file, part, rest, pa)
}

/// The words of RAM, of so many, that a part may reach: the first, and the one behind the last.
pub fn words_of(part: &Part, words: usize) -> (usize, usize)
    requires { words ≤ 512 * 4096 }
    ensures before { (i : ℕ) → i < result.0 → 2 ^ 31 + 8 * i + 8 ≤ part.now.place }
    ensures behind { (i : ℕ) → result.1 ≤ i → i < words → part.now.place + part.now.len + part.now.zeros ≤ 2 ^ 31 + 8 * i }
    ensures within { result.1 ≤ words }
{
    let end = part
        .place
        .saturating_add(part.len as u64)
        .saturating_add(part.zeros);
    let first = part.place.saturating_sub(RAM_BASE) / 8;
    let last = end.saturating_sub(RAM_BASE) / 8;
    (first as usize, words.min(last as usize + 1))
}
