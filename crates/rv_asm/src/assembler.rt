// The assembler.
ghost use Rattle.std.specs.Prelude.{◌≡◌, ◌<◌, ◌^◌, ◌++◌, IfErr, IfOk, OnOk, Ok, length};
ghost use Rattle.rv_asm.specs.Assembly.{assembly_of, elf_header, file_of, program_header};
ghost use Rattle.rv_asm.specs.Found.{Refuses};

use crate::bytes::{push_bytes, push_zeros};
use crate::passes::{image_of, labels_of};
use std::alloc::{AllocError, Global};

/// Why a text gives no file.
#[derive(Clone, Copy, Debug, PartialEq, Eq)]
pub enum AsmErr {
    /// The first line with a fault, from 1, and the lowest kind of its faults: 1 an unknown name, 2 a wrong form, 3 a
    /// number out of range, 4 an unknown label, 5 a label that was set before, 6 `.org` backward or an image over the
    /// limit.
    Bad { line: u64, kind: u8 },
    NoMemory,
}

/// The ELF header, field by field.
static ELF_HEADER: [u8; 64] = [
    // identification: magic number, 64 bits, little-endian, version 1
    0x7f, 0x45, 0x4c, 0x46, 2, 1, 1, 0, 0, 0, 0, 0, 0, 0, 0, 0, //
    // an executable file for RISC-V, version 1
    2, 0, 243, 0, 1, 0, 0, 0, //
    // the entry
    0, 0, 0, 0x80, 0, 0, 0, 0, //
    // the program header's place; no section header
    64, 0, 0, 0, 0, 0, 0, 0, 0, 0, 0, 0, 0, 0, 0, 0, //
    // no flags; the headers' sizes, one program header, no sections
    0, 0, 0, 0, 64, 0, 56, 0, 1, 0, 0, 0, 0, 0, 0, 0,
];

/// The program header up to its sizes: to be loaded, with all rights, from the file's byte 4096 to the first place on.
static PROGRAM_HEADER: [u8; 32] = [
    1, 0, 0, 0, 7, 0, 0, 0, //
    0, 0x10, 0, 0, 0, 0, 0, 0, //
    0, 0, 0, 0x80, 0, 0, 0, 0, //
    0, 0, 0, 0x80, 0, 0, 0, 0,
];

fn push_header(file: &mut Vec<u8>, len: u128) -> Result<(), AllocError>
    ensures { OnOk result (file.new.items ≡ file.old.items ++ elf_header ++ program_header len) }
{
    file.extend_from_slice(&ELF_HEADER)?;
    file.extend_from_slice(&PROGRAM_HEADER)?;
    let in_file = len;
    let in_memory = len;
    push_bytes(file, 8, in_file)?;
    push_bytes(file, 8, in_memory)?;
    push_bytes(file, 8, 4096)?;
    Ok(())
}

/// Appends the file of an image.
fn push_file(file: &mut Vec<u8>, image: &[u8]) -> Result<(), AllocError>
    ensures { OnOk result (file.new.items ≡ file.old.items ++ file_of image.now) }
{
    push_header(file, image.len() as u128)?;
    push_zeros(file, 4096 - 120)?;
    file.extend_from_slice(image)?;
    Ok(())
}

/// The ELF file of an assembler's text, of one segment at 0x80000000.
pub fn assemble(alloc: Global, text: &[u8]) -> Result<Vec<u8>, AsmErr>
    ensures file { IfOk result (λ file. assembly_of text.now ≡ Ok file.items) }
    ensures refused { IfErr result (Refuses (assembly_of text.now)) }
{
    let Ok(found) = labels_of(alloc, text) else {
        return Err(AsmErr::NoMemory);
    };
    let image = match image_of(alloc, text, &found) {
        Ok(image) => image,
        Err(error) => return Err(error),
    };
    let mut file = Vec::new(alloc);
    match push_file(&mut file, image.as_slice()) {
        Ok(()) => Ok(file),
        Err(_) => Err(AsmErr::NoMemory),
    }
}
