// Files made from one hello file, each with some fields changed. What is wanted of them follows from the
// ELF-64 Object File Format, and for RISC-V's machine and flags from the RISC-V ELF psABI.
use crate::BadImage::{Compressed, EntryOutside, NotElf, NotExec, NotRv64, SegmentOutside, Short};
use crate::{BadImage, ImageErr, Part, parse};
use std::alloc::{AllocError, Global};
use std::test::Fail;

/// 256 pages of RAM end at 0x80100000.
pub(crate) const PAGES: u32 = 256;

/// A field's place in the file and its width, both in bytes. The program header stands at 64.
pub(crate) type Field = (usize, usize);

/// A field, and what it is to hold.
type Change = (Field, u64);

const CLASS: Field = (4, 1);

const DATA: Field = (5, 1);

const VERSION: Field = (6, 1);

const E_TYPE: Field = (16, 2);

const E_MACHINE: Field = (18, 2);

pub(crate) const E_ENTRY: Field = (24, 8);

const E_PHOFF: Field = (32, 8);

const E_FLAGS: Field = (48, 4);

pub(crate) const E_PHENTSIZE: Field = (54, 2);

pub(crate) const E_PHNUM: Field = (56, 2);

const P_TYPE: Field = (64, 4);

const P_OFFSET: Field = (72, 8);

const P_VADDR: Field = (80, 8);

const P_PADDR: Field = (88, 8);

const P_FILESZ: Field = (96, 8);

const P_MEMSZ: Field = (104, 8);

pub(crate) fn set(file: &mut [u8], field: Field, value: u64) {
    let (place, width) = field;
    let bytes = value.to_le_bytes();
    for (byte, new) in file.iter_mut().skip(place).zip(bytes.iter().take(width)) {
        *byte = *new;
    }
}

/// One header, whose segment is the 44 bytes after it, at 0x80000000.
fn hello(alloc: Global) -> Result<Vec<u8>, AllocError> {
    let mut file = vec![in alloc; 0u8; 164]?;
    for (field, value) in [
        ((0, 4), 0x464c_457f),
        (CLASS, 2),
        (DATA, 1),
        (VERSION, 1),
        (E_TYPE, 2),
        (E_MACHINE, 243),
        ((20, 4), 1),
        (E_ENTRY, 0x8000_0000),
        (E_PHOFF, 64),
        (E_PHENTSIZE, 56),
        (E_PHNUM, 1),
        (P_TYPE, 1),
        (P_OFFSET, 120),
        (P_VADDR, 0x8000_0000),
        (P_PADDR, 0x8000_0000),
        (P_FILESZ, 44),
        (P_MEMSZ, 44),
    ] {
        set(&mut file, field, value);
    }
    Ok(file)
}

fn changed(alloc: Global, changes: [Change; 2]) -> Result<Vec<u8>, AllocError> {
    let mut file = hello(alloc)?;
    for (field, value) in changes {
        set(&mut file, field, value);
    }
    Ok(file)
}

/// A change that leaves the file as it is: e_version is 1 there.
const SAME: Change = ((20, 4), 1);

/// The greatest number of a field of 8 bytes.
pub(crate) const MOST: u64 = 0xffff_ffff_ffff_ffff;

/// Where the image begins, and its one part.
fn at(start: u64, place: u64, at: usize, len: usize, zeros: u64) -> (u64, Part) {
    let part = Part {
        place,
        at,
        len,
        zeros,
    };
    (start, part)
}

// Among them the last values that the checks let through.
#[test]
fn accepted_files(rt: HostRuntime) -> Result<(), Fail> {
    let alloc = rt.alloc();
    let as_hello = at(0x8000_0000, 0x8000_0000, 120, 44, 0);
    for (name, changes, (start, part)) in [
        ("hello", [SAME, SAME], as_hello),
        ("other flags", [(E_FLAGS, 4), SAME], as_hello),
        ("all other flags", [(E_FLAGS, 0xffff_fffe), SAME], as_hello),
        (
            "zeros",
            [(P_MEMSZ, 100), SAME],
            at(0x8000_0000, 0x8000_0000, 120, 44, 56),
        ),
        (
            "all of RAM",
            [(P_MEMSZ, 0x10_0000), SAME],
            at(0x8000_0000, 0x8000_0000, 120, 44, 0xf_ffd4),
        ),
        (
            "no bytes, from the file's end",
            [(P_OFFSET, 164), (P_FILESZ, 0)],
            at(0x8000_0000, 0x8000_0000, 164, 0, 44),
        ),
        (
            "RAM's last byte",
            [(P_PADDR, 0x800f_ffd4), SAME],
            at(0x800f_ffd4, 0x800f_ffd4, 120, 44, 0),
        ),
        (
            "the segment's last instruction",
            [(E_ENTRY, 0x8000_0028), SAME],
            at(0x8000_0028, 0x8000_0000, 120, 44, 0),
        ),
        (
            "another virtual address",
            [(E_ENTRY, 0x1_0008), (P_VADDR, 0x1_0000)],
            at(0x8000_0008, 0x8000_0000, 120, 44, 0),
        ),
        (
            "the last virtual addresses",
            [(E_ENTRY, MOST - 3), (P_VADDR, MOST - 43)],
            at(0x8000_0028, 0x8000_0000, 120, 44, 0),
        ),
        (
            "an odd entry at an even place",
            [(E_ENTRY, 0x1_0001), (P_VADDR, 0x1_0001)],
            as_hello,
        ),
    ] {
        let image = parse(alloc, &changed(alloc, changes)?, PAGES)?;
        assert_eq!(rt; image.start, start, "{name}");
        assert_eq!(rt; image.parts.as_slice(), [part].as_slice(), "{name}");
    }
    Ok(())
}

/// Files that fail a check, in the order of the checks.
const BAD: [(&str, [Change; 2], BadImage); 67] = [
    ("magic, byte 0", [((0, 1), 0x7e), SAME], NotElf),
    ("magic, byte 1", [((1, 1), 0x65), SAME], NotElf),
    ("magic, byte 2", [((2, 1), 0x4d), SAME], NotElf),
    ("magic, byte 3", [((3, 1), 0x47), SAME], NotElf),
    ("magic and class", [((0, 1), 0), (CLASS, 1)], NotElf),
    ("magic and table", [((3, 1), 0), (E_PHOFF, 109)], NotElf),
    ("class 0", [(CLASS, 0), SAME], NotRv64),
    ("class 1", [(CLASS, 1), SAME], NotRv64),
    ("class 3", [(CLASS, 3), SAME], NotRv64),
    ("data 0", [(DATA, 0), SAME], NotRv64),
    ("big-endian", [(DATA, 2), SAME], NotRv64),
    ("version 0", [(VERSION, 0), SAME], NotRv64),
    ("version 2", [(VERSION, 2), SAME], NotRv64),
    ("machine 242", [(E_MACHINE, 242), SAME], NotRv64),
    ("machine 244", [(E_MACHINE, 244), SAME], NotRv64),
    ("machine 256 + 243", [(E_MACHINE, 499), SAME], NotRv64),
    ("size 0", [(E_PHENTSIZE, 0), SAME], NotRv64),
    ("size 55", [(E_PHENTSIZE, 55), SAME], NotRv64),
    ("size 57", [(E_PHENTSIZE, 57), SAME], NotRv64),
    ("size 256 + 56", [(E_PHENTSIZE, 312), SAME], NotRv64),
    ("class and type", [(CLASS, 1), (E_TYPE, 3)], NotRv64),
    ("size and flags", [(E_PHENTSIZE, 0), (E_FLAGS, 1)], NotRv64),
    ("type 0", [(E_TYPE, 0), SAME], NotExec),
    ("type 1", [(E_TYPE, 1), SAME], NotExec),
    ("type 3", [(E_TYPE, 3), SAME], NotExec),
    ("type 256 + 2", [(E_TYPE, 258), SAME], NotExec),
    ("type and flags", [(E_TYPE, 3), (E_FLAGS, 1)], NotExec),
    ("type and table", [(E_TYPE, 3), (E_PHOFF, 109)], NotExec),
    ("flags 1", [(E_FLAGS, 1), SAME], Compressed),
    ("flags 5", [(E_FLAGS, 5), SAME], Compressed),
    ("all flags", [(E_FLAGS, 0xffff_ffff), SAME], Compressed),
    (
        "flags and table",
        [(E_FLAGS, 1), (E_PHOFF, 109)],
        Compressed,
    ),
    (
        "flags and no table",
        [(E_FLAGS, 1), (E_PHNUM, 0)],
        Compressed,
    ),
    ("table", [(E_PHOFF, 109), SAME], Short),
    ("table of none", [(E_PHOFF, 165), (E_PHNUM, 0)], Short),
    ("table of two", [(E_PHOFF, 53), (E_PHNUM, 2)], Short),
    ("table of the most", [(E_PHNUM, 0xffff), SAME], Short),
    (
        "table that ends at 2^64",
        [(E_PHOFF, MOST - 55), SAME],
        Short,
    ),
    ("table at the last byte", [(E_PHOFF, MOST), SAME], Short),
    ("table and type", [(E_PHOFF, 109), (P_TYPE, 4)], Short),
    ("table and RAM", [(E_PHOFF, 109), (P_PADDR, 0)], Short),
    ("bytes", [(P_FILESZ, 45), (P_MEMSZ, 45)], Short),
    ("bytes from 121 on", [(P_OFFSET, 121), SAME], Short),
    ("no bytes", [(P_OFFSET, 165), (P_FILESZ, 0)], Short),
    ("bytes up to 2^64", [(P_OFFSET, MOST - 43), SAME], Short),
    ("bytes of 2^64 - 120", [(P_FILESZ, MOST - 119), SAME], Short),
    ("bytes and memory", [(P_FILESZ, 45), SAME], Short),
    ("bytes and RAM", [(P_OFFSET, 121), (P_PADDR, 0)], Short),
    ("bytes and entry", [(P_OFFSET, 121), (E_ENTRY, 0)], Short),
    ("memory", [(P_MEMSZ, 43), SAME], SegmentOutside),
    ("below RAM", [(P_PADDR, 0x7fff_ffff), SAME], SegmentOutside),
    ("from 0 on", [(P_PADDR, 0), SAME], SegmentOutside),
    ("past RAM", [(P_PADDR, 0x800f_ffd5), SAME], SegmentOutside),
    ("behind RAM", [(P_PADDR, 0x8010_0000), SAME], SegmentOutside),
    ("above RAM", [(P_MEMSZ, 0x10_0001), SAME], SegmentOutside),
    (
        "memory to 2^64",
        [(P_MEMSZ, UP_TO_2_64), SAME],
        SegmentOutside,
    ),
    (
        "memory over 2^64",
        [(P_PADDR, MOST - 255), (P_MEMSZ, 0x1000)],
        SegmentOutside,
    ),
    (
        "RAM and entry",
        [(P_PADDR, 0), (E_ENTRY, 0)],
        SegmentOutside,
    ),
    (
        "memory and entry",
        [(P_MEMSZ, 43), (E_ENTRY, 0)],
        SegmentOutside,
    ),
    ("entry before", [(E_ENTRY, 0x7fff_fffc), SAME], EntryOutside),
    ("entry behind", [(E_ENTRY, 0x8000_002c), SAME], EntryOutside),
    ("entry 0", [(E_ENTRY, 0), SAME], EntryOutside),
    (
        "entry past 2^64",
        [(E_ENTRY, 0), (P_VADDR, MOST - 3)],
        EntryOutside,
    ),
    (
        "entry's bit 0",
        [(E_ENTRY, 0x8000_0001), SAME],
        EntryOutside,
    ),
    (
        "entry's bit 1",
        [(E_ENTRY, 0x8000_0002), SAME],
        EntryOutside,
    ),
    (
        "the last byte",
        [(E_ENTRY, 0x8000_002b), SAME],
        EntryOutside,
    ),
    (
        "place's bit 1",
        [(P_PADDR, 0x8000_0002), SAME],
        EntryOutside,
    ),
];

/// The length that a segment from RAM's first byte on has where it ends at 2^64.
const UP_TO_2_64: u64 = MOST - 0x7fff_ffff;

#[test]
fn bad_files_are_refused(rt: HostRuntime) -> Result<(), Fail> {
    let alloc = rt.alloc();
    for (name, changes, kind) in BAD {
        let parsed = parse(alloc, &changed(alloc, changes)?, PAGES);
        assert_eq!(rt; parsed.err(), Some(ImageErr::Bad(kind)), "{name}");
    }
    Ok(())
}

// Their own headers pass all checks, and no header of theirs places anything: none holds the entry, and a fault of
// one that is passed over isn't looked for.
#[test]
fn files_that_place_nothing_are_refused(rt: HostRuntime) -> Result<(), Fail> {
    let alloc = rt.alloc();
    for (name, changes) in [
        ("no header", [(E_PHNUM, 0), SAME]),
        ("no header, of no size", [(E_PHNUM, 0), (E_PHENTSIZE, 0)]),
        ("no header, at the end", [(E_PHNUM, 0), (E_PHOFF, 164)]),
        ("two headers, to the end", [(E_PHNUM, 2), (E_PHOFF, 52)]),
        // of type 0: there stand the zeros of p_memsz
        ("a header to the end", [(E_PHOFF, 108), SAME]),
        ("type 0", [(P_TYPE, 0), SAME]),
        ("type 2", [(P_TYPE, 2), SAME]),
        ("type 2^16 + 1", [(P_TYPE, 0x1_0001), SAME]),
        ("nothing placed", [(P_FILESZ, 0), (P_MEMSZ, 0)]),
        ("no memory for bytes", [(P_MEMSZ, 0), SAME]),
        ("no header, entry", [(E_PHNUM, 0), (E_ENTRY, 0)]),
        ("note, bytes", [(P_TYPE, 4), (P_OFFSET, 121)]),
        ("note, RAM", [(P_TYPE, 4), (P_PADDR, 0)]),
    ] {
        let parsed = parse(alloc, &changed(alloc, changes)?, PAGES);
        assert_eq!(rt; parsed.err(), Some(ImageErr::Bad(EntryOutside)), "{name}");
    }
    Ok(())
}

// Cut in the segment, in the table, and in the file's own header.
#[test]
fn short_files_are_refused(rt: HostRuntime) -> Result<(), Fail> {
    let alloc = rt.alloc();
    let mut file = hello(alloc)?;
    for len in [163, 120, 119, 64, 63, 1, 0] {
        file.truncate(len);
        let parsed = parse(alloc, &file, PAGES);
        assert_eq!(rt; parsed.err(), Some(ImageErr::Bad(Short)), "{len} bytes");
    }
    let zeros = [0u8; 64];
    let parsed = parse(alloc, &zeros[..63], PAGES);
    assert_eq!(rt; parsed.err(), Some(ImageErr::Bad(Short)), "63 zeros");
    let parsed = parse(alloc, &zeros, PAGES);
    assert_eq!(rt; parsed.err(), Some(ImageErr::Bad(NotElf)), "64 zeros");
    let mut whole = changed(alloc, [(E_PHNUM, 0), SAME])?;
    whole.truncate(64);
    let parsed = parse(alloc, &whole, PAGES);
    assert_eq!(rt;
        parsed.err(),
        Some(ImageErr::Bad(EntryOutside)),
        "a header alone"
    );
    Ok(())
}
