// Translations of a guest in supervisor mode, by page tables of three levels (Privileged Architecture, "Sv39: Page-Based 39-bit
// Virtual-Memory System"), and accesses over two pages.
use super::{Want, all_come_to, at, caught, trap};
use std::test::Fail;

/// Loads through a leaf of 2 MiB, maps it anew, fences, and loads again.
const REMAP: &[u32] = &[
    0x0010_0293, // addi x5, x0, 1
    0x03f2_9293, // slli x5, x5, 63
    0x0008_0337, // lui x6, 0x80
    0x0103_0313, // addi x6, x6, 0x10
    0x0062_e2b3, // or x5, x5, x6
    0x1802_9073, // csrrw x0, satp, x5
    0x0020_33b7, // lui x7, 0x203
    0x0003_b503, // ld x10, 0(x7)
    0x0010_0493, // addi x9, x0, 1
    0x01f4_9493, // slli x9, x9, 31
    0x0001_15b7, // lui x11, 0x11
    0x00b4_84b3, // add x9, x9, x11
    0x2000_05b7, // lui x11, 0x20000
    0x0c75_8593, // addi x11, x11, 0xc7
    0x00b4_b423, // sd x11, 8(x9)
    0x0020_1637, // lui x12, 0x201
    0x1206_0073, // sfence.vma x12, x0
    0x0003_b503, // ld x10, 0(x7)
];

/// Loads through a leaf of 2 MiB whose page is no multiple of that.
const MISALIGNED_LEAF: &[u32] = &[
    0x0010_0293, // addi x5, x0, 1
    0x03f2_9293, // slli x5, x5, 63
    0x0008_0337, // lui x6, 0x80
    0x0103_0313, // addi x6, x6, 0x10
    0x0062_e2b3, // or x5, x5, x6
    0x1802_9073, // csrrw x0, satp, x5
    0x0040_03b7, // lui x7, 0x400
    0x0003_b503, // ld x10, 0(x7)
];

/// Loads through an entry with a reserved bit.
const RESERVED_BIT: &[u32] = &[
    0x0010_0293, // addi x5, x0, 1
    0x03f2_9293, // slli x5, x5, 63
    0x0008_0337, // lui x6, 0x80
    0x0103_0313, // addi x6, x6, 0x10
    0x0062_e2b3, // or x5, x5, x6
    0x1802_9073, // csrrw x0, satp, x5
    0x0000_43b7, // lui x7, 4
    0x0003_b503, // ld x10, 0(x7)
];

/// Loads through a table that lies in no RAM.
const TABLE_OUTSIDE: &[u32] = &[
    0x0010_0293, // addi x5, x0, 1
    0x03f2_9293, // slli x5, x5, 63
    0x0008_0337, // lui x6, 0x80
    0x0103_0313, // addi x6, x6, 0x10
    0x0062_e2b3, // or x5, x5, x6
    0x1802_9073, // csrrw x0, satp, x5
    0x4000_03b7, // lui x7, 0x40000
    0x0003_b503, // ld x10, 0(x7)
];

/// Loads at an address whose upper bits differ from bit 38.
const NOT_CANONICAL: &[u32] = &[
    0x0010_0293, // addi x5, x0, 1
    0x03f2_9293, // slli x5, x5, 63
    0x0008_0337, // lui x6, 0x80
    0x0103_0313, // addi x6, x6, 0x10
    0x0062_e2b3, // or x5, x5, x6
    0x1802_9073, // csrrw x0, satp, x5
    0x0010_0393, // addi x7, x0, 1
    0x0263_9393, // slli x7, x7, 38
    0x0003_b503, // ld x10, 0(x7)
];

/// Loads from a page of the user, with SUM and without.
const USER_PAGE: &[u32] = &[
    0x0010_0293, // addi x5, x0, 1
    0x03f2_9293, // slli x5, x5, 63
    0x0008_0337, // lui x6, 0x80
    0x0103_0313, // addi x6, x6, 0x10
    0x0062_e2b3, // or x5, x5, x6
    0x1802_9073, // csrrw x0, satp, x5
    0x0004_04b7, // lui x9, 0x40
    0x0000_33b7, // lui x7, 3
    0x1004_a073, // csrrs x0, sstatus, x9
    0x0003_b503, // ld x10, 0(x7)
    0x1004_b073, // csrrc x0, sstatus, x9
    0x0003_b503, // ld x10, 0(x7)
];

/// Jumps to a page that is not executable.
const DATA_FETCHED: &[u32] = &[
    0x0010_0293, // addi x5, x0, 1
    0x03f2_9293, // slli x5, x5, 63
    0x0008_0337, // lui x6, 0x80
    0x0103_0313, // addi x6, x6, 0x10
    0x0062_e2b3, // or x5, x5, x6
    0x1802_9073, // csrrw x0, satp, x5
    0x0000_13b7, // lui x7, 1
    0x0003_8067, // jalr x0, 0(x7)
];

/// Jumps to a page that is none.
const NO_PAGE_FETCHED: &[u32] = &[
    0x0010_0293, // addi x5, x0, 1
    0x03f2_9293, // slli x5, x5, 63
    0x0008_0337, // lui x6, 0x80
    0x0103_0313, // addi x6, x6, 0x10
    0x0062_e2b3, // or x5, x5, x6
    0x1802_9073, // csrrw x0, satp, x5
    0x0000_23b7, // lui x7, 2
    0x0003_8067, // jalr x0, 0(x7)
];

/// Stores over the end of a page whose next is none; the handler loads the word that it would have begun in.
const STORE_OVER_PAGES: &[u32] = &[
    0x0000_0297, // auipc x5, 0
    0x0402_8293, // addi x5, x5, 0x40
    0x1052_9073, // csrrw x0, stvec, x5
    0x0010_0293, // addi x5, x0, 1
    0x03f2_9293, // slli x5, x5, 63
    0x0008_0337, // lui x6, 0x80
    0x0103_0313, // addi x6, x6, 0x10
    0x0062_e2b3, // or x5, x5, x6
    0x1802_9073, // csrrw x0, satp, x5
    0x0000_23b7, // lui x7, 2
    0xfe73_be23, // sd x7, -4(x7)
    0x0000_0013, // addi x0, x0, 0
    0x0000_0013, // addi x0, x0, 0
    0x0000_0013, // addi x0, x0, 0
    0x0000_0013, // addi x0, x0, 0
    0x0000_0013, // addi x0, x0, 0
    0xff83_b503, // ld x10, -8(x7)
];

/// Loads over the end of a page, whose next is not its next in RAM.
const LOAD_OVER_PAGES: &[u32] = &[
    0x0010_0293, // addi x5, x0, 1
    0x03f2_9293, // slli x5, x5, 63
    0x0008_0337, // lui x6, 0x80
    0x0103_0313, // addi x6, x6, 0x10
    0x0062_e2b3, // or x5, x5, x6
    0x1802_9073, // csrrw x0, satp, x5
    0x0010_0493, // addi x9, x0, 1
    0x01f4_9493, // slli x9, x9, 31
    0x0001_25b7, // lui x11, 0x12
    0x00b4_84b3, // add x9, x9, x11
    0x2000_15b7, // lui x11, 0x20001
    0xcc75_8593, // addi x11, x11, -0x339
    0x00b4_b823, // sd x11, 0x10(x9)
    0x0000_23b7, // lui x7, 2
    0xffc3_b503, // ld x10, -4(x7)
    0xfea3_be23, // sd x10, -4(x7)
    0x0003_b503, // ld x10, 0(x7)
];

#[test]
fn addresses_are_translated(rt: HostRuntime) -> Result<(), Fail> {
    let cases = [
        ("a leaf of 2 MiB", REMAP, 8, at(0x8000_0020, 8, 0x33)),
        ("mapped anew", REMAP, 18, at(0x8000_0048, 18, 0x44)),
        (
            "a misaligned leaf",
            MISALIGNED_LEAF,
            8,
            trap(13, 0x8000_001c, 0x40_0000, 8),
        ),
        (
            "a reserved bit",
            RESERVED_BIT,
            8,
            trap(13, 0x8000_001c, 0x4000, 8),
        ),
        (
            "a table outside",
            TABLE_OUTSIDE,
            8,
            trap(5, 0x8000_001c, 0x4000_0000, 8),
        ),
        (
            "not canonical",
            NOT_CANONICAL,
            9,
            trap(13, 0x8000_0020, 0x40_0000_0000, 9),
        ),
        ("with SUM", USER_PAGE, 10, at(0x8000_0028, 10, 0x11)),
        (
            "without SUM",
            USER_PAGE,
            12,
            Want {
                x10: 0x11,
                ..trap(13, 0x8000_002c, 0x3000, 12)
            },
        ),
        ("data fetched", DATA_FETCHED, 9, trap(12, 0x1000, 0x1000, 9)),
        (
            "no page fetched",
            NO_PAGE_FETCHED,
            9,
            trap(12, 0x2000, 0x2000, 9),
        ),
    ];
    all_come_to(&rt, rt.alloc(), &cases)
}

#[test]
fn accesses_go_over_pages(rt: HostRuntime) -> Result<(), Fail> {
    let cases = [
        (
            "a fault of the second page",
            STORE_OVER_PAGES,
            11,
            caught(15, 0x8000_0028, 0x2000, 11),
        ),
        (
            "nothing is stored",
            STORE_OVER_PAGES,
            12,
            Want {
                pc: 0x8000_0044,
                x10: 0x5566_7788_99aa_bbcc,
                ..trap(15, 0x8000_0028, 0x2000, 12)
            },
        ),
        (
            "two pages",
            LOAD_OVER_PAGES,
            15,
            at(0x8000_003c, 15, 0x44_5566_7788),
        ),
        (
            "stored back",
            LOAD_OVER_PAGES,
            17,
            at(0x8000_0044, 17, 0x44),
        ),
    ];
    all_come_to(&rt, rt.alloc(), &cases)
}
