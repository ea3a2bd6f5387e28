// Files of several program headers. What is wanted of them follows from the ELF-64 Object File Format, "Program
// header table"; of two segments that share a byte, and of several that hold the entry, from what the crate says.
ghost use Rattle.std.specs.Prelude.{◌<◌};

use crate::BadImage::{EntryOutside, Overlap, SegmentOutside, Short};
use crate::tests::{E_ENTRY, E_PHENTSIZE, E_PHNUM, Field, PAGES, set};
use crate::{BadImage, ImageErr, Part, parse};
use std::alloc::{AllocError, Global};
use std::test::Fail;

/// A program header.
#[derive(Clone, Copy)]
struct Header {
    p_type: u64,
    p_offset: u64,
    p_vaddr: u64,
    p_paddr: u64,
    p_filesz: u64,
    p_memsz: u64,
}

/// PT_RISCV_ATTRIBUTES of the RISC-V ELF psABI, and PT_NOTE.
const ATTRIBUTES: u64 = 0x7000_0003;

const NOTE: u64 = 4;

/// A header that places nothing.
const NULL: Header = Header {
    p_type: 0,
    p_offset: 0,
    p_vaddr: 0,
    p_paddr: 0,
    p_filesz: 0,
    p_memsz: 0,
};

/// Sixteen bytes at 0x80000000, which hold the virtual address 0x10000.
const CODE: Header = Header {
    p_type: 1,
    p_offset: 232,
    p_vaddr: 0x1_0000,
    p_paddr: 0x8000_0000,
    p_filesz: 16,
    p_memsz: 16,
};

/// Sixteen bytes at 0x80000010, right behind these, at the virtual address 0x20000.
const DATA: Header = Header {
    p_type: 1,
    p_offset: 248,
    p_vaddr: 0x2_0000,
    p_paddr: 0x8000_0010,
    p_filesz: 16,
    p_memsz: 16,
};

/// Sixteen zeros at 0x80001000, at the virtual address 0x30000.
const ZEROS: Header = Header {
    p_type: 1,
    p_offset: 264,
    p_vaddr: 0x3_0000,
    p_paddr: 0x8000_1000,
    p_filesz: 0,
    p_memsz: 16,
};

const CODE_PART: Part = Part {
    place: 0x8000_0000,
    at: 232,
    len: 16,
    zeros: 0,
};

const DATA_PART: Part = Part {
    place: 0x8000_0010,
    at: 248,
    len: 16,
    zeros: 0,
};

const ZEROS_PART: Part = Part {
    place: 0x8000_1000,
    at: 264,
    len: 0,
    zeros: 16,
};

/// A header's fields stand at 64, 120 and 176.
fn put(file: &mut [u8], place: usize, header: &Header)
    requires { place < 1000 }
{
    let fields: [(Field, u64); 6] = [
        ((place, 4), header.p_type),
        ((place + 8, 8), header.p_offset),
        ((place + 16, 8), header.p_vaddr),
        ((place + 24, 8), header.p_paddr),
        ((place + 32, 8), header.p_filesz),
        ((place + 40, 8), header.p_memsz),
    ];
    for (field, value) in fields {
        set(file, field, value);
    }
}

/// A file of 280 bytes whose table has three headers.
fn file_of(alloc: Global, entry: u64, headers: [Header; 3]) -> Result<Vec<u8>, AllocError> {
    let mut file = vec![in alloc; 0xaau8; 280]?;
    for (field, value) in [
        ((0, 8), 0x0001_0102_464c_457f),
        ((8, 8), 0),
        ((16, 8), 0x0000_0001_00f3_0002), // executable, RISC-V, version 1
        (E_ENTRY, entry),
        ((32, 8), 64),
        ((40, 8), 0),
        ((48, 4), 0),
        ((52, 2), 64),
        (E_PHENTSIZE, 56),
        (E_PHNUM, 3),
        ((58, 6), 0),
    ] {
        set(&mut file, field, value);
    }
    let [first, second, third] = headers;
    put(&mut file, 64, &first);
    put(&mut file, 120, &second);
    put(&mut file, 176, &third);
    Ok(file)
}

#[derive(Clone, Copy)]
struct Good<'a> {
    name: &'a str,
    entry: u64,
    headers: [Header; 3],
    start: u64,
    parts: &'a [Part],
}

// As GNU ld writes it for a machine without an MMU: attributes, a note, and one segment whose memory goes on behind
// its bytes. The sections and symbols behind the segment's bytes say nothing to a loader.
#[test]
fn a_linked_file_is_accepted(rt: HostRuntime) -> Result<(), Fail> {
    let alloc = rt.alloc();
    let attributes = Header {
        p_type: ATTRIBUTES,
        p_offset: 248,
        p_filesz: 20,
        ..NULL
    };
    let note = Header {
        p_type: NOTE,
        p_offset: 268,
        p_filesz: 12,
        ..NULL
    };
    let segment = Header {
        p_memsz: 0x40,
        ..CODE
    };
    let mut file = file_of(alloc, 0x1_0008, [attributes, note, segment])?;
    set(&mut file, (40, 8), 280); // the table of sections: two of 64 bytes
    set(&mut file, (58, 6), 0x0001_0002_0040);
    file.extend_from_slice(&[0x55; 128])?;
    let image = parse(alloc, &file, PAGES)?;
    assert_eq!(rt; image.start, 0x8000_0008);
    let part = Part {
        zeros: 0x30,
        ..CODE_PART
    };
    assert_eq!(rt; image.parts.as_slice(), [part].as_slice());
    Ok(())
}

#[test]
fn accepted_tables(rt: HostRuntime) -> Result<(), Fail> {
    let alloc = rt.alloc();
    let outside = Header {
        p_type: NOTE,
        p_offset: 0xffff_ffff,
        p_paddr: 0x8000_0000,
        p_memsz: 0xffff_ffff_ffff_ffff,
        ..CODE
    };
    let nowhere = Header {
        p_offset: 0xffff_ffff,
        p_memsz: 0,
        ..CODE
    };
    let again = Header {
        p_vaddr: 0x1_0000,
        p_paddr: 0x8000_1002,
        ..ZEROS
    };
    for good in [
        Good {
            name: "three, which touch",
            entry: 0x1_0004,
            headers: [CODE, DATA, ZEROS],
            start: 0x8000_0004,
            parts: &[CODE_PART, DATA_PART, ZEROS_PART],
        },
        Good {
            name: "in the table's order",
            entry: 0x2_000c,
            headers: [ZEROS, DATA, CODE],
            start: 0x8000_001c,
            parts: &[ZEROS_PART, DATA_PART, CODE_PART],
        },
        Good {
            name: "the entry in zeros",
            entry: 0x3_0008,
            headers: [CODE, ZEROS, NULL],
            start: 0x8000_1008,
            parts: &[CODE_PART, ZEROS_PART],
        },
        Good {
            name: "a note with faults",
            entry: 0x2_0000,
            headers: [outside, NULL, DATA],
            start: 0x8000_0010,
            parts: &[DATA_PART],
        },
        Good {
            name: "no memory, with faults",
            entry: 0x1_0000,
            headers: [CODE, nowhere, nowhere],
            start: 0x8000_0000,
            parts: &[CODE_PART],
        },
        Good {
            name: "the first that holds the entry",
            entry: 0x1_0000,
            headers: [CODE, DATA, again],
            start: 0x8000_0000,
            parts: &[
                CODE_PART,
                DATA_PART,
                Part {
                    place: 0x8000_1002,
                    ..ZEROS_PART
                },
            ],
        },
    ] {
        let image = parse(alloc, &file_of(alloc, good.entry, good.headers)?, PAGES)?;
        assert_eq!(rt; image.start, good.start, "{}", good.name);
        assert_eq!(rt; image.parts.as_slice(), good.parts, "{}", good.name);
    }
    Ok(())
}

/// From the last byte of `CODE` on.
const ACROSS: Header = Header {
    p_paddr: 0x8000_000f,
    ..ZEROS
};

/// Within `CODE`.
const INNER: Header = Header {
    p_paddr: 0x8000_0004,
    p_memsz: 1,
    ..ZEROS
};

/// Its bytes end one behind the file's.
const PAST_FILE: Header = Header {
    p_offset: 265,
    p_paddr: 0x8000_2000,
    ..DATA
};

/// No bytes, from one behind the file's end on.
const NO_BYTES: Header = Header {
    p_offset: 281,
    ..ZEROS
};

/// Its last byte is the first behind RAM.
const PAST_RAM: Header = Header {
    p_paddr: 0x800f_fff1,
    ..DATA
};

/// At a place that is no multiple of 4.
const ODD: Header = Header {
    p_paddr: 0x8000_3002,
    ..CODE
};

const BAD: [(&str, u64, [Header; 3], BadImage); 18] = [
    ("neighbours", 0x1_0000, [CODE, ACROSS, NULL], Overlap),
    ("others", 0x1_0000, [CODE, DATA, ACROSS], Overlap),
    ("others, turned", 0x1_0000, [ACROSS, DATA, CODE], Overlap),
    ("a note between", 0x1_0000, [CODE, NULL, ACROSS], Overlap),
    ("the last two", 0x3_0000, [ZEROS, CODE, CODE], Overlap),
    ("one in another", 0x1_0000, [CODE, ZEROS, INNER], Overlap),
    ("and around it", 0x1_0000, [INNER, ZEROS, CODE], Overlap),
    ("no entry", 0, [CODE, DATA, ACROSS], Overlap),
    ("odd entry", 0x1_0001, [CODE, DATA, ACROSS], Overlap),
    ("file", 0x1_0000, [CODE, CODE, PAST_FILE], Short),
    ("no bytes", 0x1_0000, [CODE, CODE, NO_BYTES], Short),
    ("RAM", 0x1_0000, [CODE, ACROSS, PAST_RAM], SegmentOutside),
    (
        "RAM, file",
        0x1_0000,
        [CODE, PAST_RAM, PAST_FILE],
        SegmentOutside,
    ),
    ("file, RAM", 0x1_0000, [PAST_FILE, PAST_RAM, CODE], Short),
    ("none holds it", 0x4_0000, [CODE, DATA, ZEROS], EntryOutside),
    ("behind each", 0x1_0010, [CODE, DATA, ZEROS], EntryOutside),
    ("the first alone", 0x1_0000, [ODD, DATA, CODE], EntryOutside),
    (
        "a physical one",
        0x8000_0000,
        [CODE, DATA, ZEROS],
        EntryOutside,
    ),
];

#[test]
fn bad_tables_are_refused(rt: HostRuntime) -> Result<(), Fail> {
    let alloc = rt.alloc();
    for (name, entry, headers, kind) in BAD {
        let parsed = parse(alloc, &file_of(alloc, entry, headers)?, PAGES);
        assert_eq!(rt; parsed.err(), Some(ImageErr::Bad(kind)), "{name}");
    }
    Ok(())
}
