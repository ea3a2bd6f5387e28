// The fields of an ELF file's header and of its program headers, read as little-endian numbers.
ghost use Rattle.std.specs.Prelude.{◌≡◌, ◌+◌, ◌≤◌, length};
ghost use Rattle.elf_load.specs.Header.{number_at, header_at};
ghost use Rattle.elf_load.specs.Fields.{fields_of};

use byteorder::{ByteOrder, LittleEndian};

/// The bytes of the file's header, and of a program header.
pub(crate) const FILE_HEADER: usize = 64;

pub(crate) const PROGRAM_HEADER: usize = 56;

pub(crate) fn u16_at(file: &[u8], offset: usize) -> u16
    requires { offset + 2 ≤ length file.now }
    ensures { result ≡ number_at file.now offset 2 }
{
    LittleEndian::read_u16(&file[offset..offset + 2])
}

pub(crate) fn u32_at(file: &[u8], offset: usize) -> u32
    requires { offset + 4 ≤ length file.now }
    ensures { result ≡ number_at file.now offset 4 }
{
    LittleEndian::read_u32(&file[offset..offset + 4])
}

pub(crate) fn u64_at(file: &[u8], offset: usize) -> u64
    requires { offset + 8 ≤ length file.now }
    ensures { result ≡ number_at file.now offset 8 }
{
    LittleEndian::read_u64(&file[offset..offset + 8])
}

/// A program header; the fields that a loader needs, by the names of the standard.
#[derive(Clone, Copy)]
pub(crate) struct ProgramHeader {
    pub p_type: u32,
    pub p_offset: u64,
    pub p_vaddr: u64,
    pub p_paddr: u64,
    pub p_filesz: u64,
    pub p_memsz: u64,
}

pub(crate) fn program_header_at(file: &[u8], offset: usize) -> ProgramHeader
    requires { offset + 56 ≤ length file.now }
    ensures { fields_of result ≡ header_at file.now offset }
{
    ProgramHeader {
        p_type: u32_at(file, offset),
        p_offset: u64_at(file, offset + 8),
        p_vaddr: u64_at(file, offset + 16),
        p_paddr: u64_at(file, offset + 24),
        p_filesz: u64_at(file, offset + 32),
        p_memsz: u64_at(file, offset + 40),
    }
}
