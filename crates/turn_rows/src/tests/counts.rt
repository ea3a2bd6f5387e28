// How many steps turns make, and a store that comes between a load and its exchange.
use super::{Of, all_come_to, alone, retired, shown, turn};
use crate::{Race, Row, play_race};
use case_guests::with_map;
use elf_load::parse;
use hart_turn::{Anew, TurnEnd};
use std::alloc::Global;
use std::process::Abort;
use std::test::Fail;
use step_laws::{pend_word, ram_word_at, run_word};

/// Stores on a page, which marks that, and then makes a sum, a load and a store there, and sums.
const COUNTED: &[u32] = &[
    0x0080_0293, // addi x5, x0, 8
    0x03c2_9293, // slli x5, x5, 60
    0x0008_0337, // lui x6, 0x80
    0x0103_0313, // addi x6, x6, 0x10
    0x0062_e2b3, // or x5, x5, x6
    0x1802_9073, // csrrw x0, satp, x5
    0x0002_0397, // auipc x7, 0x20: 0x80020018
    0x0203_b423, // sd x0, 0x28(x7)
    0x0014_0413, // addi x8, x8, 1
    0x0283_b483, // ld x9, 0x28(x7)
    0x0283_b423, // sd x8, 0x28(x7)
    0x0014_0413, // addi x8, x8, 1
    0xffdf_f06f, // jal x0, -4
];

/// Stores a byte at 0x80020001.
const STORES_A_BYTE: &[u32] = &[
    0x0002_0397, // auipc x7, 0x20: 0x80020000
    0x0770_0313, // addi x6, x0, 0x77
    0x0063_80a3, // sb x6, 1(x7)
];

/// So many instructions of hart 0 in so many steps each.
fn stepping(times: u32, steps: u64) -> Row {
    Row {
        hart: 0,
        times,
        to: TurnEnd::Retired,
        steps: Some(steps),
    }
}

// Inside a turn loads STOP, the own KICK and IPI, then for the fetch the entry's CODE, its PAGE and the word of code: 6. A load or a store of 8 bytes
// on a page that was stored to adds READ or WRITE, PAGE and the word of RAM. The last of 64 instructions stores RUN too. A turn that goes in loads
// STOP, clears the own KICK, loads a place of each other actor, hart 1 and the monitor, stores RUN and loads PEND before its IPI and its fetch. The
// last 64 turns are one that goes in, 62 inside, and one that leaves.
#[test]
fn turns_inside_make_few_steps(rt: HostRuntime) -> Result<(), Fail> {
    let rows = [
        retired(0, 8),
        stepping(1, 6),
        stepping(1, 9),
        stepping(1, 9),
        stepping(52, 6),
        stepping(1, 7),
        stepping(1, 10),
        stepping(62, 6),
        stepping(1, 7),
    ];
    let harts = [(0, Of::X(8), 60), (0, Of::X(9), 0), (0, Of::Count, 128)];
    all_come_to(&rt, rt.alloc(), &[alone("steps", COUNTED, &rows, &harts)])
}

/// The same guest, whose store of a byte is an atomic sum of 4 bytes at 0x80020000.
const ADDS: &[u32] = &[
    0x0002_0397, // auipc x7, 0x20: 0x80020000
    0x0770_0313, // addi x6, x0, 0x77
    0x0063_a52f, // amoadd.w x10, x6, (x7)
];

/// How often an instruction is counted, where hart 0 stands, what x10 and the word at 0x80020000 are behind it.
#[derive(Clone, Copy)]
struct Wanted {
    count: u64,
    pc: u64,
    x10: u64,
    word: u64,
}

/// Plays rows of a guest, before whose first exchange of the word at 0x80020000, which held 0x11, hart 1 stores 0x5a there.
fn races_to(
    rt: &impl Abort,
    alloc: Global,
    code: &[u32],
    rows: &[Row],
    wanted: &Wanted,
) -> Result<(), Fail> {
    let file = with_map(alloc, code, &[])?;
    let image = parse(alloc, &file, 1024)?;
    let plan = Race {
        limit: 1000,
        rows,
        value: 0x5a,
    };
    let raced = play_race(alloc, &image, &file, &plan)?;
    assert_eq!(rt; raced.right, rows.len());
    assert_eq!(rt; shown(&raced.hart, Of::Count), wanted.count);
    assert_eq!(rt; shown(&raced.hart, Of::Pc), wanted.pc);
    assert_eq!(rt; shown(&raced.hart, Of::X(6)), 0x77);
    assert_eq!(rt; shown(&raced.hart, Of::X(7)), 0x8002_0000);
    assert_eq!(rt; shown(&raced.hart, Of::X(10)), wanted.x10);
    assert_eq!(rt; raced.words.get(ram_word_at(0x2_0000 / 8)), wanted.word);
    // it stays inside, and claims nothing
    assert_eq!(rt; raced.words.get(run_word(0)), 1);
    assert_eq!(rt; raced.words.get(pend_word()), 0);
    Ok(())
}

// The word's number is 1082392 + 0x20000 / 8.
#[test]
fn a_lost_exchange_is_made_anew(rt: HostRuntime) -> Result<(), Fail> {
    let lost = TurnEnd::Again(Anew::Lost {
        word: 1_098_776,
        seen: 0x11,
        found: 0x5a,
    });
    let rows = [retired(0, 2), turn(0, lost), retired(0, 1)];
    let before = Wanted {
        count: 2,
        pc: 0x8000_0008,
        x10: 0,
        word: 0x5a,
    };
    let stored = Wanted {
        count: 3,
        pc: 0x8000_000c,
        x10: 0,
        word: 0x775a,
    };
    let added = Wanted {
        count: 3,
        pc: 0x8000_000c,
        x10: 0x5a,
        word: 0xd1,
    };
    races_to(&rt, rt.alloc(), STORES_A_BYTE, &rows[..2], &before)?;
    races_to(&rt, rt.alloc(), STORES_A_BYTE, &rows, &stored)?;
    races_to(&rt, rt.alloc(), ADDS, &rows[..2], &before)?;
    races_to(&rt, rt.alloc(), ADDS, &rows, &added)
}
