// Translation that is kept until a fence: map by map, of one hart and of two.
use super::{Case, Of, all_come_to, alone, retired, turn, unanswered};
use hart_turn::TurnEnd;
use std::test::Fail;

/// Loads at 0x1000, lets that be the page at 0x80021000, loads again, fences that page alone, and loads again.
const STALE: &[u32] = &[
    0x0080_0293, // addi x5, x0, 8
    0x03c2_9293, // slli x5, x5, 60
    0x0008_0337, // lui x6, 0x80
    0x0103_0313, // addi x6, x6, 0x10
    0x0062_e2b3, // or x5, x5, x6
    0x1802_9073, // csrrw x0, satp, x5
    0x0000_13b7, // lui x7, 1
    0x0003_b503, // ld x10, 0(x7)
    0x2000_8e37, // lui x28, 0x20008
    0x4c7e_0e13, // addi x28, x28, 0x4c7
    0x0001_2e97, // auipc x29, 0x12: 0x80012028
    0xffce_b023, // sd x28, -0x20(x29)
    0x0003_b583, // ld x11, 0(x7)
    0x1203_8073, // sfence.vma x7, x0
    0x0003_b603, // ld x12, 0(x7)
];

/// Loads in 2 MiB, lets them be those at 0x80000000, loads again, fences another page of them, and loads again.
const SUPERPAGE: &[u32] = &[
    0x0080_0293, // addi x5, x0, 8
    0x03c2_9293, // slli x5, x5, 60
    0x0008_0337, // lui x6, 0x80
    0x0103_0313, // addi x6, x6, 0x10
    0x0062_e2b3, // or x5, x5, x6
    0x1802_9073, // csrrw x0, satp, x5
    0x0020_33b7, // lui x7, 0x203
    0x0003_b503, // ld x10, 0(x7)
    0x2000_0e37, // lui x28, 0x20000
    0x0c7e_0e13, // addi x28, x28, 0xc7
    0x0001_1e97, // auipc x29, 0x11: 0x80011028
    0xffce_b023, // sd x28, -0x20(x29)
    0x0003_b583, // ld x11, 0(x7)
    0x0020_1f37, // lui x30, 0x201
    0x120f_0073, // sfence.vma x30, x0
    0x0003_b603, // ld x12, 0(x7)
];

/// Loads in 2 MiB that begin at no multiple of that.
const MISALIGNED: &[u32] = &[
    0x0080_0293, // addi x5, x0, 8
    0x03c2_9293, // slli x5, x5, 60
    0x0008_0337, // lui x6, 0x80
    0x0103_0313, // addi x6, x6, 0x10
    0x0062_e2b3, // or x5, x5, x6
    0x1802_9073, // csrrw x0, satp, x5
    0x0040_03b7, // lui x7, 0x400
    0x0003_b503, // ld x10, 0(x7)
];

/// Loads by an entry with bit 54 set.
const RESERVED_BIT: &[u32] = &[
    0x0080_0293, // addi x5, x0, 8
    0x03c2_9293, // slli x5, x5, 60
    0x0008_0337, // lui x6, 0x80
    0x0103_0313, // addi x6, x6, 0x10
    0x0062_e2b3, // or x5, x5, x6
    0x1802_9073, // csrrw x0, satp, x5
    0x0000_43b7, // lui x7, 4
    0x0003_b503, // ld x10, 0(x7)
];

/// Loads by a table that lies in no RAM.
const NO_TABLE: &[u32] = &[
    0x0080_0293, // addi x5, x0, 8
    0x03c2_9293, // slli x5, x5, 60
    0x0008_0337, // lui x6, 0x80
    0x0103_0313, // addi x6, x6, 0x10
    0x0062_e2b3, // or x5, x5, x6
    0x1802_9073, // csrrw x0, satp, x5
    0x4000_03b7, // lui x7, 0x40000
    0x0003_b503, // ld x10, 0(x7)
];

/// Loads on the user's page with SUM set, and with SUM cleared, with no fence.
const SUM_CLEARED: &[u32] = &[
    0x0080_0293, // addi x5, x0, 8
    0x03c2_9293, // slli x5, x5, 60
    0x0008_0337, // lui x6, 0x80
    0x0103_0313, // addi x6, x6, 0x10
    0x0062_e2b3, // or x5, x5, x6
    0x1802_9073, // csrrw x0, satp, x5
    0x0000_33b7, // lui x7, 3
    0x0004_0437, // lui x8, 0x40: SUM
    0x1004_2073, // csrrs x0, sstatus, x8
    0x0003_b503, // ld x10, 0(x7)
    0x1004_3073, // csrrc x0, sstatus, x8
    0x0003_b583, // ld x11, 0(x7)
];

/// Stores over two pages, the second of which is none.
const TWO_PAGES: &[u32] = &[
    0x0080_0293, // addi x5, x0, 8
    0x03c2_9293, // slli x5, x5, 60
    0x0008_0337, // lui x6, 0x80
    0x0103_0313, // addi x6, x6, 0x10
    0x0062_e2b3, // or x5, x5, x6
    0x1802_9073, // csrrw x0, satp, x5
    0x0000_23b7, // lui x7, 2
    0xfe63_be23, // sd x6, -4(x7)
];

/// Starts hart 1 at 0x80000100, lets 0x1000 be the page at 0x80021000, and fences it at hart 1.
const STORES_AND_FENCES: &[u32] = &[
    0x0080_0293, // addi x5, x0, 8
    0x03c2_9293, // slli x5, x5, 60
    0x0008_0337, // lui x6, 0x80
    0x0103_0313, // addi x6, x6, 0x10
    0x0062_e2b3, // or x5, x5, x6
    0x1802_9073, // csrrw x0, satp, x5
    0x0048_58b7, // lui x17, 0x485
    0x34d8_8893, // addi x17, x17, 0x34d: HSM
    0x0010_0513, // addi x10, x0, 1
    0x0000_0597, // auipc x11, 0
    0x0dc5_8593, // addi x11, x11, 0xdc: 0x80000100
    0x0000_0073, // ecall: start
    0x2000_8e37, // lui x28, 0x20008
    0x4c7e_0e13, // addi x28, x28, 0x4c7
    0x0001_2e97, // auipc x29, 0x12: 0x80012038
    0xfdce_b823, // sd x28, -0x30(x29)
    0x5246_58b7, // lui x17, 0x52465
    0xe438_8893, // addi x17, x17, -0x1bd: RFENCE
    0x0010_0813, // addi x16, x0, 1
    0x0020_0513, // addi x10, x0, 2
    0x0000_0593, // addi x11, x0, 0
    0x0000_1637, // lui x12, 1
    0x0000_16b7, // lui x13, 1
    0x0000_0073, // ecall: remote SFENCE.VMA
];

/// Loads at 0x1000 twice, and again behind an instruction.
const LOADS: &[u32] = &[
    0x0080_0293, // addi x5, x0, 8
    0x03c2_9293, // slli x5, x5, 60
    0x0008_0337, // lui x6, 0x80
    0x0103_0313, // addi x6, x6, 0x10
    0x0062_e2b3, // or x5, x5, x6
    0x1802_9073, // csrrw x0, satp, x5
    0x0000_13b7, // lui x7, 1
    0x0003_b503, // ld x10, 0(x7)
    0x0003_b583, // ld x11, 0(x7)
    0x0000_0013, // addi x0, x0, 0
    0x0003_b603, // ld x12, 0(x7)
];

#[test]
fn a_fence_of_one_page_ends_what_is_kept_of_it(rt: HostRuntime) -> Result<(), Fail> {
    let rows = [retired(0, 15)];
    let harts = [
        (0, Of::X(10), 0x11),
        (0, Of::X(11), 0x11),
        (0, Of::X(12), 0x22),
        (0, Of::Pc, 0x8000_003c),
        (0, Of::Count, 15),
    ];
    let large = [retired(0, 16)];
    let large_harts = [
        (0, Of::X(10), 0x33),
        (0, Of::X(11), 0x33),
        (0, Of::X(12), 0x44),
        (0, Of::Pc, 0x8000_0040),
        (0, Of::Count, 16),
    ];
    let cases = [
        alone("a page", STALE, &rows, &harts),
        alone("2 MiB", SUPERPAGE, &large, &large_harts),
    ];
    all_come_to(&rt, rt.alloc(), &cases)
}

#[test]
fn loads_fault_where_the_tables_say(rt: HostRuntime) -> Result<(), Fail> {
    let rows = [retired(0, 7), turn(0, TurnEnd::Trapped)];
    for (what, code, cause, value) in [
        ("misaligned", MISALIGNED, 13, 0x40_0000),
        ("bit 54", RESERVED_BIT, 13, 0x4000),
        ("table outside RAM", NO_TABLE, 5, 0x4000_0000),
        ("second page", TWO_PAGES, 15, 0x2000),
    ] {
        let harts = [
            (0, Of::Cause, cause),
            (0, Of::Value, value),
            (0, Of::Epc, 0x8000_001c),
            (0, Of::Pc, 0),
            (0, Of::X(10), 0),
            (0, Of::Count, 8),
        ];
        let memory = [(0x2_0ff8, 0x5566_7788_99aa_bbcc)];
        let case = Case {
            memory: &memory,
            ..alone(what, code, &rows, &harts)
        };
        all_come_to(&rt, rt.alloc(), &[case])?;
    }
    Ok(())
}

#[test]
fn cleared_sum_needs_no_fence(rt: HostRuntime) -> Result<(), Fail> {
    let rows = [retired(0, 11), turn(0, TurnEnd::Trapped)];
    let harts = [
        (0, Of::X(10), 0x11),
        (0, Of::X(11), 0),
        (0, Of::Cause, 13),
        (0, Of::Value, 0x3000),
        (0, Of::Epc, 0x8000_002c),
        (0, Of::Count, 12),
    ];
    all_come_to(&rt, rt.alloc(), &[alone("SUM", SUM_CLEARED, &rows, &harts)])
}

// The places of hart 0 at hart 1 are words 224 to 231. What is asked: page 1 in bits 63..12, one page in bits 11..3, and 2.
#[test]
fn another_hart_loads_by_old_entries_until_it_is_fenced(rt: HostRuntime) -> Result<(), Fail> {
    let rows = [
        turn(1, TurnEnd::Idle),
        retired(0, 12),
        turn(1, TurnEnd::Started),
        retired(1, 8),
        retired(0, 4),
        retired(1, 1),
        retired(0, 7),
        unanswered(0, 224, 0x100a),
        unanswered(0, 224, 0x100a),
        retired(1, 1),
        retired(0, 1),
        retired(1, 1),
    ];
    let harts = [
        (0, Of::X(10), 0),
        (0, Of::X(11), 0),
        (0, Of::Pc, 0x8000_0060),
        (0, Of::Count, 24),
        (1, Of::X(10), 0x11),
        (1, Of::X(11), 0x11),
        (1, Of::X(12), 0x22),
        (1, Of::Pc, 0x8000_012c),
        (1, Of::Count, 11),
    ];
    let case = Case {
        other: LOADS,
        words: &[(224, 0)],
        memory: &[(0x1_2008, 0x2000_84c7)],
        ..alone("two harts", STORES_AND_FENCES, &rows, &harts)
    };
    all_come_to(&rt, rt.alloc(), &[case])
}
