// Walks of every entry of the page tables and of bad ones, an entry in a table, a lock that is held, marks.
ghost use Rattle.std.specs.Prelude.{◌<◌};

use crate::{Row, held_lock, probes, rows_right, taken_marks};
use dirty_bitmap::is_marked;
use rv64_priv::{Kind, Regime};
use std::test::Fail;
use step_laws::Layout;
use sv39_walk::WalkEnd;
use tlb_entry::{Hit, entry_of};
use tlb_table::slot_of;

const LAYOUT: Layout = Layout {
    harts: 1,
    pages: 1024,
};

const SV39: u64 = 0x8000_0000_0008_0010;

const SUPERVISOR: Regime = Regime {
    satp: SV39,
    user: false,
    sum: false,
    mxr: false,
};

const USER: Regime = Regime {
    satp: SV39,
    user: true,
    sum: false,
    mxr: false,
};

const WITH_SUM: Regime = Regime {
    satp: SV39,
    user: false,
    sum: true,
    mxr: false,
};

const WITH_MXR: Regime = Regime {
    satp: SV39,
    user: false,
    sum: false,
    mxr: true,
};

const BARE: Regime = Regime {
    satp: 0,
    user: false,
    sum: false,
    mxr: false,
};

fn row(regime: Regime, va: u64, kind: Kind, end: WalkEnd) -> Row {
    Row {
        regime,
        va,
        kind,
        end,
    }
}

fn leaf(pte: u64, page: u64, level: u8) -> WalkEnd {
    WalkEnd::Leaf { pte, page, level }
}

#[test]
fn walks_end_as_the_tables_say(rt: HostRuntime) -> Result<(), Fail> {
    let rows = [
        // 4 KiB, 2 MiB and 1 GiB
        row(
            SUPERVISOR,
            0x1234,
            Kind::Load,
            leaf(0x2000_80c7, 0x8002_0000, 0),
        ),
        row(
            SUPERVISOR,
            0x1234,
            Kind::Store,
            leaf(0x2000_80c7, 0x8002_0000, 0),
        ),
        row(SUPERVISOR, 0x1234, Kind::Fetch, WalkEnd::PageFault),
        row(USER, 0x1234, Kind::Load, WalkEnd::PageFault),
        row(
            SUPERVISOR,
            0x20_3000,
            Kind::Load,
            leaf(0x2008_00c7, 0x8020_3000, 1),
        ),
        row(
            SUPERVISOR,
            0x8000_1000,
            Kind::Fetch,
            leaf(0x2000_00cf, 0x8000_1000, 2),
        ),
        row(SUPERVISOR, 0xbfff_f000, Kind::Load, WalkEnd::AccessFault),
        // no entry, a page for user mode, bit 54, 2 MiB that aren't aligned, a table outside of RAM
        row(SUPERVISOR, 0x2000, Kind::Load, WalkEnd::PageFault),
        row(SUPERVISOR, 0x3000, Kind::Load, WalkEnd::PageFault),
        row(
            WITH_SUM,
            0x3000,
            Kind::Load,
            leaf(0x2000_80d7, 0x8002_0000, 0),
        ),
        row(USER, 0x3000, Kind::Store, leaf(0x2000_80d7, 0x8002_0000, 0)),
        row(SUPERVISOR, 0x4000, Kind::Load, WalkEnd::PageFault),
        row(SUPERVISOR, 0x40_0000, Kind::Load, WalkEnd::PageFault),
        row(SUPERVISOR, 0x4000_0000, Kind::Load, WalkEnd::AccessFault),
        // without A, without D, W without R, a pointer at level 0, X alone
        row(SUPERVISOR, 0x5000, Kind::Load, WalkEnd::PageFault),
        row(
            SUPERVISOR,
            0x6000,
            Kind::Load,
            leaf(0x2000_8047, 0x8002_0000, 0),
        ),
        row(SUPERVISOR, 0x6000, Kind::Store, WalkEnd::PageFault),
        row(SUPERVISOR, 0x7000, Kind::Store, WalkEnd::PageFault),
        row(SUPERVISOR, 0x8000, Kind::Load, WalkEnd::PageFault),
        row(SUPERVISOR, 0x9000, Kind::Load, WalkEnd::PageFault),
        row(
            WITH_MXR,
            0x9000,
            Kind::Load,
            leaf(0x2000_80c9, 0x8002_0000, 0),
        ),
        row(
            SUPERVISOR,
            0x9000,
            Kind::Fetch,
            leaf(0x2000_80c9, 0x8002_0000, 0),
        ),
        // the UART, and an address outside of RAM
        row(
            SUPERVISOR,
            0xa000,
            Kind::Store,
            leaf(0x0400_00cf, 0x1000_0000, 0),
        ),
        row(SUPERVISOR, 0xa000, Kind::Fetch, WalkEnd::AccessFault),
        row(SUPERVISOR, 0xb000, Kind::Load, WalkEnd::AccessFault),
        // bits 63 to 39 aren't bit 38
        row(SUPERVISOR, 0x40_0000_0000, Kind::Load, WalkEnd::PageFault),
        row(
            SUPERVISOR,
            0x8000_0000_0000_1000,
            Kind::Load,
            WalkEnd::PageFault,
        ),
        // physical addresses
        row(BARE, 0x8002_0123, Kind::Store, leaf(0xcf, 0x8002_0000, 0)),
        row(BARE, 0x10_0000, Kind::Load, leaf(0xcf, 0x10_0000, 0)),
        row(BARE, 0x10_0000, Kind::Fetch, WalkEnd::AccessFault),
        row(BARE, 0x8040_0000, Kind::Load, WalkEnd::AccessFault),
    ];
    let right = rows_right(rt.alloc(), LAYOUT, &rows)?;
    assert_eq!(rt; right, rows.len());
    Ok(())
}

#[test]
fn an_entry_is_found_where_it_was_put(rt: HostRuntime) -> Result<(), Fail> {
    let found = probes(rt.alloc(), LAYOUT)?;
    let hit = Hit {
        slot: 1,
        page: 0x8002_0000,
        not_dirty: false,
        device: false,
    };
    assert_eq!(rt; found.used, (1, 1));
    assert_eq!(rt; found.load, Some(hit));
    let waiting = Hit {
        not_dirty: true,
        ..hit
    };
    assert_eq!(rt; found.store, Some(waiting));
    assert_eq!(rt; found.fetch, None);
    assert_eq!(rt; found.user, None);
    assert_eq!(rt; found.other_page, None);
    assert_eq!(rt; found.cleared, None);
    Ok(())
}

#[test]
fn the_monitor_holds_the_lock(rt: HostRuntime) -> Result<(), Fail> {
    // its number as an actor is 8
    assert_eq!(rt; held_lock(rt.alloc(), LAYOUT)?, 9);
    Ok(())
}

#[test]
fn marks_are_taken(rt: HostRuntime) -> Result<(), Fail> {
    let word = taken_marks(rt.alloc(), LAYOUT)?;
    assert_eq!(rt; word, 0x8000_0000_0000_0020);
    for page in 0..64 {
        assert_eq!(rt; is_marked(&[word], page), page == 5 || page == 63);
    }
    Ok(())
}

#[test]
fn slots_of_each_size(rt: HostRuntime) {
    for (size, slot) in [
        (64, 0x3f),
        (128, 0x7f),
        (256, 0xff),
        (512, 0x1ff),
        (1024, 0x3ff),
    ] {
        assert_eq!(rt; slot_of(0x7fff_ffff_ffff, size), slot);
        assert_eq!(rt; slot_of(u64::from(size) * 4096 + 0xfff, size), 0);
        assert_eq!(rt; slot_of(u64::from(size) * 4096 + 0x5000, size), 5);
    }
}

/// The words of the entry of a page of which a page-table entry has these bits: R, W, X, U, A and D, from bit 0 on.
fn words(bits: u64, device: bool, regime: &Regime) -> (u64, u64, u64)
    requires { bits < 64 }
{
    let pte = 1 + bits % 16 * 2 + bits / 16 * 64 + 0x2000_8000;
    let entry = entry_of(pte, 0x1234, 0x8002_0000, device, regime);
    (entry.read, entry.write, entry.code)
}

/// What they are to be, by the fields' meaning in the Privileged Architecture.
fn wanted(bits: u64, device: bool, regime: &Regime) -> (u64, u64, u64) {
    let [r, w, x, u, a, d] = [
        bits % 2 == 1,
        bits / 2 % 2 == 1,
        bits / 4 % 2 == 1,
        bits / 8 % 2 == 1,
        bits / 16 % 2 == 1,
        bits / 32 % 2 == 1,
    ];
    let to_data = if regime.user { u } else { !u || regime.sum };
    let to_code = u == regime.user;
    let key = match (device, regime.user) {
        (false, false) => 0x1000,
        (false, true) => 0x1008,
        (true, false) => 0x1004,
        (true, true) => 0x100c,
    };
    let clean = if device { 0 } else { 2 };
    (
        if a && to_data && (r || x && regime.mxr) {
            key
        } else {
            1
        },
        if a && d && to_data && w {
            key + clean
        } else {
            1
        },
        if a && to_code && x && !device { key } else { 1 },
    )
}

#[test]
fn entries_of_each_leaf(rt: HostRuntime) {
    for bits in 0..64 {
        for regime in [SUPERVISOR, USER, WITH_SUM, WITH_MXR] {
            for device in [false, true] {
                assert_eq!(rt;
                    words(bits, device, &regime),
                    wanted(bits, device, &regime),
                    "at {bits}"
                );
            }
        }
    }
}
