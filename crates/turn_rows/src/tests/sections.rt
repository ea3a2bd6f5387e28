// Two harts beside each other: a store that needs the section, and a fence in three pieces.
use super::{Case, Of, all_come_to, alone, retired, turn, unanswered};
use guest_ram::Seen;
use hart_turn::{Anew, TurnEnd, Wait4};
use std::test::Fail;

/// Starts hart 1 at 0x80000100, and stores 8 bytes at 0x80020004.
const CROSSES: &[u32] = &[
    0x0048_58b7, // lui x17, 0x485
    0x34d8_8893, // addi x17, x17, 0x34d: HSM
    0x0010_0513, // addi x10, x0, 1
    0x0000_0597, // auipc x11, 0
    0x0f45_8593, // addi x11, x11, 0xf4: 0x80000100
    0x0000_0073, // ecall: start
    0x1234_5337, // lui x6, 0x12345
    0x6783_0313, // addi x6, x6, 0x678
    0x0203_1393, // slli x7, x6, 32
    0x0073_6333, // or x6, x6, x7
    0x0002_0397, // auipc x7, 0x20: 0x80020028
    0xfc63_be23, // sd x6, -0x24(x7)
];

/// Counts.
const RUNS: &[u32] = &[
    0x0014_0413, // addi x8, x8, 1
    0x0014_0413, // addi x8, x8, 1
    0x0014_0413, // addi x8, x8, 1
    0x0014_0413, // addi x8, x8, 1
];

/// Fences 130 pages from 0x1000 on at hart 1.
const FENCES_PAGES: &[u32] = &[
    0x5246_58b7, // lui x17, 0x52465
    0xe438_8893, // addi x17, x17, -0x1bd: RFENCE
    0x0010_0813, // addi x16, x0, 1
    0x0020_0513, // addi x10, x0, 2
    0x0000_1637, // lui x12, 1
    0x0008_26b7, // lui x13, 0x82
    0x0000_0073, // ecall: remote SFENCE.VMA
];

/// Starts hart 1 at 0x80000100, and then does the same.
const STARTS_AND_FENCES: &[u32] = &[
    0x0048_58b7, // lui x17, 0x485
    0x34d8_8893, // addi x17, x17, 0x34d: HSM
    0x0010_0513, // addi x10, x0, 1
    0x0000_0597, // auipc x11, 0
    0x0f45_8593, // addi x11, x11, 0xf4: 0x80000100
    0x0000_0073, // ecall: start
    0x5246_58b7, // lui x17, 0x52465
    0xe438_8893, // addi x17, x17, -0x1bd: RFENCE
    0x0010_0813, // addi x16, x0, 1
    0x0020_0513, // addi x10, x0, 2
    0x0000_0593, // addi x11, x0, 0
    0x0000_1637, // lui x12, 1
    0x0008_26b7, // lui x13, 0x82
    0x0000_0073, // ecall: remote SFENCE.VMA
];

// Word 1 is PEND, who claims the section, by its number and 1. Words 8 and 24 say which of the harts is inside, and word 25 calls hart 1 out.
#[test]
fn a_crossing_store_waits_until_the_other_is_outside(rt: HostRuntime) -> Result<(), Fail> {
    let inside = Seen { word: 24, value: 1 };
    let claimed = Seen { word: 1, value: 1 };
    let rows = [
        retired(0, 11),
        turn(1, TurnEnd::Started),
        retired(1, 1),
        turn(0, TurnEnd::Again(Anew::Section)),
        turn(0, TurnEnd::Waiting(Wait4::Section(inside))),
        turn(1, TurnEnd::Waiting(Wait4::Entry(claimed))),
        retired(0, 1),
        retired(1, 1),
    ];
    let waiting = Case {
        other: RUNS,
        words: &[(1, 1), (8, 0), (24, 1), (25, 1)],
        memory: &[(0x2_0000, 0x11), (0x2_0008, 0)],
        ..alone(
            "waits",
            CROSSES,
            &rows[..5],
            &[
                (0, Of::Pc, 0x8000_002c),
                (0, Of::Count, 11),
                (1, Of::Count, 1),
            ],
        )
    };
    let stored = Case {
        other: RUNS,
        words: &[(1, 0), (8, 0), (24, 1), (25, 0)],
        memory: &[(0x2_0000, 0x1234_5678_0000_0011), (0x2_0008, 0x1234_5678)],
        ..alone(
            "stores",
            CROSSES,
            &rows,
            &[
                (0, Of::Pc, 0x8000_0030),
                (0, Of::Count, 12),
                (1, Of::Count, 2),
                (1, Of::X(8), 2),
            ],
        )
    };
    all_come_to(&rt, rt.alloc(), &[waiting, stored])
}

// The places of hart 0 at hart 1 are words 224 to 231. What is asked: a page's number in bits 63..12, how many in bits 11..3, and 2. 130 pages from
// page 1 on are 64, 64 and 2, from pages 1, 65 and 129 on.
#[test]
fn a_fence_of_130_pages_goes_in_three_pieces(rt: HostRuntime) -> Result<(), Fail> {
    let rows = [
        retired(0, 6),
        unanswered(0, 224, 0x1202),
        turn(1, TurnEnd::Idle),
        unanswered(0, 225, 0x4_1202),
        turn(1, TurnEnd::Idle),
        turn(1, TurnEnd::Idle),
        retired(0, 1),
    ];
    let asked = Case {
        words: &[(224, 0x1202), (225, 0x4_1202), (226, 0x8_1012), (227, 0)],
        ..alone(
            "asked",
            FENCES_PAGES,
            &rows[..2],
            &[
                (0, Of::X(10), 2),
                (0, Of::Pc, 0x8000_0018),
                (0, Of::Count, 6),
            ],
        )
    };
    let done = Case {
        words: &[(224, 0), (225, 0), (226, 0), (227, 0)],
        ..alone(
            "done",
            FENCES_PAGES,
            &rows,
            &[
                (0, Of::X(10), 0),
                (0, Of::X(11), 0),
                (0, Of::Pc, 0x8000_001c),
                (0, Of::Count, 7),
                (1, Of::Count, 0),
            ],
        )
    };
    all_come_to(&rt, rt.alloc(), &[asked, done])
}

// A hart that runs serves one piece a turn, and makes an instruction behind it.
#[test]
fn a_running_hart_answers_a_fence_between_instructions(rt: HostRuntime) -> Result<(), Fail> {
    let rows = [
        retired(0, 6),
        turn(1, TurnEnd::Started),
        retired(1, 1),
        retired(0, 7),
        unanswered(0, 224, 0x1202),
        retired(1, 1),
        unanswered(0, 225, 0x4_1202),
        retired(1, 2),
        retired(0, 1),
    ];
    let harts = [
        (0, Of::X(10), 0),
        (0, Of::Count, 14),
        (1, Of::X(8), 4),
        (1, Of::Count, 4),
    ];
    let case = Case {
        other: RUNS,
        words: &[(24, 0), (224, 0), (225, 0), (226, 0)],
        ..alone("running", STARTS_AND_FENCES, &rows, &harts)
    };
    all_come_to(&rt, rt.alloc(), &[case])
}
