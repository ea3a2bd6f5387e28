// The checks of a file, in their order, and the image of a file that passes them.
ghost use Rattle.std.specs.Prelude.{◌≡◌, ◌≤◌, ◌+◌, ◌*◌, ◌^◌, length, IfOk};
ghost use Rattle.std.specs.Prelude.{IsErrOf, Ok, Err, not, nat_lt};
ghost use Rattle.elf_load.specs.Header.{e_phoff, e_phnum};
ghost use Rattle.elf_load.specs.ImageOf.{first_failed, head_checks, is_rv64, image_of};
ghost use Rattle.elf_load.specs.declared.image.BadImage.{BadImage as TheBadImage};

use crate::header::{FILE_HEADER, PROGRAM_HEADER, u16_at, u32_at, u64_at};
use crate::image::{BadImage, Image, ImageErr};
use crate::segments::{overlaps, parts_of, place_faults, placed_headers, start_among};
use std::alloc::Global;

/// 7f, and the letters E, L, F, as a little-endian number.
const MAGIC: u32 = 0x464c_457f;

const MACHINE_RISCV: u16 = 243;

const TYPE_EXECUTABLE: u16 = 2;

/// 64-bit, little-endian, version 1, RISC-V, with program headers of the standard's size where there are any.
fn is_rv64(file: &[u8]) -> bool
    requires { 64 ≤ length file.now }
    ensures { result ≡ is_rv64 file.now }
{
    file[4] == 2
        && file[5] == 1
        && file[6] == 1
        && u16_at(file, 18) == MACHINE_RISCV
        && (u16_at(file, 56) == 0 || u16_at(file, 54) == 56)
}

/// The table of program headers lies in the file.
fn has_table(file: &[u8]) -> bool
    requires { 64 ≤ length file.now }
    ensures { result ≡ not (nat_lt (length file.now) (e_phoff file.now + 56 * e_phnum file.now)) }
{
    let table = u64_at(file, 32);
    let len = file.len() as u64;
    table <= len && PROGRAM_HEADER as u64 * u64::from(u16_at(file, 56)) <= len - table
}

/// The first check of the file's own header that fails.
fn head_fault(file: &[u8]) -> Option<BadImage>
    ensures { result ≡ first_failed (head_checks file.now) }
{
    if file.len() < FILE_HEADER {
        return Some(BadImage::Short);
    }
    if u32_at(file, 0) != MAGIC {
        return Some(BadImage::NotElf);
    }
    if !is_rv64(file) {
        return Some(BadImage::NotRv64);
    }
    if u16_at(file, 16) != TYPE_EXECUTABLE {
        return Some(BadImage::NotExec);
    }
    if u32_at(file, 48) % 2 == 1 {
        return Some(BadImage::Compressed);
    }
    if has_table(file) {
        None
    } else {
        Some(BadImage::Short)
    }
}

/// The image of a file for a machine of so many pages of RAM, at most 4096.
///
/// # Errors
///
/// `Bad` with the first check that the file fails.
pub fn parse(alloc: Global, file: &[u8], pages: u32) -> Result<Image, ImageErr>
    requires { pages ≤ 4096 }
    ensures ok { IfOk result (λ image. image_of file.now pages ≡ Ok image) }
    ensures bad { (kind : TheBadImage) → IsErrOf result (ImageErr.Bad kind) → image_of file.now pages ≡ Err kind }
{
    if let Some(kind) = head_fault(file) {
        return Err(ImageErr::Bad(kind));
    }
    let headers = placed_headers(alloc, file)?;
    if let Some(kind) = place_faults(headers.as_slice(), file.len(), pages) {
        return Err(ImageErr::Bad(kind));
    }
    if overlaps(headers.as_slice()) {
        return Err(ImageErr::Bad(BadImage::Overlap));
    }
    let Some(start) = start_among(headers.as_slice(), u64_at(file, 24)) else {
        return Err(ImageErr::Bad(BadImage::EntryOutside));
    };
    let parts = parts_of(alloc, headers.as_slice())?;
    Ok(Image { start, parts })
}
