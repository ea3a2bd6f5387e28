// What a file gives: where its program starts, and the parts that it puts into memory.
use std::alloc::AllocError;
use std::marker::Model;
use thiserror::Error;

/// Why a file is no image: the first check that it fails.
#[derive(Clone, Copy, Debug, PartialEq, Eq, Error)]
pub enum BadImage {
    #[error("the file is too short")]
    Short,
    #[error("not an ELF file")]
    NotElf,
    #[error("not a 64-bit little-endian RISC-V file")]
    NotRv64,
    #[error("not an executable file")]
    NotExec,
    #[error("built for compressed instructions")]
    Compressed,
    #[error("a segment lies outside RAM")]
    SegmentOutside,
    #[error("two segments overlap")]
    Overlap,
    #[error("the entry lies in no segment")]
    EntryOutside,
}

/// Why a file gave no image.
#[derive(Clone, Copy, Debug, PartialEq, Eq, Error)]
pub enum ImageErr {
    #[error("bad image: {0}")]
    Bad(BadImage),
    #[error("out of memory")]
    NoMemory,
}

impl From<AllocError> for ImageErr {
    ghost use Rattle.std.specs.Prelude.{◌≡◌};
    ghost use Rattle.elf_load.specs.declared.image.ImageErr.TheVariants.{NoMemory as no_memory};

    ghost from_gives = { λ e r. r ≡ no_memory };

    fn from(_: AllocError) -> ImageErr {
        ImageErr::NoMemory
    }
}

/// From the physical address `place` on stand `len` bytes of the file, which begin at its byte `at`, and then
/// so many zeros.
#[derive(Clone, Copy, Debug, PartialEq, Eq)]
pub struct Part {
    pub place: u64,
    pub at: usize,
    pub len: usize,
    pub zeros: u64,
}

/// Where a program starts, by its physical address, and its parts in the order of the file's table.
#[derive(Drop)]
pub struct Image {
    pub start: u64,
    pub parts: Vec<Part>,
}

impl Model for Image {
    ghost use Rattle.elf_load.specs.Loaded.{Loaded, loaded_by};

    ghost Value = { Loaded };

    ghost view = { loaded_by };
}
