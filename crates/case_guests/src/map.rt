// A guest with page tables.
use crate::guests::{RAM, elf_of};
use std::alloc::{AllocError, Global};

/// The root table, at 0x80010000: a table for the addresses below 1 GiB, a table that lies in no RAM for the next GiB,
/// and a leaf that maps the third GiB to itself.
const ROOT: [u32; 6] = [0x2000_4401, 0, 0x1c00_0001, 0, 0x2000_00cf, 0];

/// The table of the first GiB, at 0x80011000: a table, a leaf of 2 MiB at 0x80200000, and one at no multiple of that.
const MIDDLE: [u32; 6] = [0x2000_4801, 0, 0x2008_00c7, 0, 0x2008_04c7, 0];

/// The table of the first 2 MiB from its second entry on, at 0x80012008. Pages 1, 3 and 4 are those at 0x80020000, of which
/// the second is the user's and the third has a reserved bit; page 2 is none; page 5 is the user's view of the code.
const LOW: [u32; 10] = [
    0x2000_80c7,
    0,
    0,
    0,
    0x2000_80d7,
    0,
    0x2000_80c7,
    0x0040_0000,
    0x2000_00df,
    0,
];

/// An executable with this code at RAM's begin and a handler at 0x80000100, the tables, and data that tell places apart.
pub fn with_map<'a>(
    alloc: Global,
    code: &'a [u32],
    handler: &'a [u32],
) -> Result<Vec<u8>, AllocError> {
    let segments = [
        (RAM, code),
        (RAM + 0x100, handler),
        (0x8000_3000, [0x44].as_slice()),
        (0x8001_0000, ROOT.as_slice()),
        (0x8001_1000, MIDDLE.as_slice()),
        (0x8001_2008, LOW.as_slice()),
        (0x8002_0000, [0x11].as_slice()),
        (0x8002_0ff8, [0x99aa_bbcc, 0x5566_7788].as_slice()),
        (0x8002_1000, [0x22].as_slice()),
        (0x8020_3000, [0x33].as_slice()),
    ];
    elf_of(alloc, RAM, &segments)
}
