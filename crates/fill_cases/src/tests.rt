// Fills, hits, marks and flushes over the page tables of a machine.
use crate::{Deed, Row, rows_right, rows_right_beside};
use rv64_priv::{Kind, Regime};
use std::test::Fail;
use step_laws::Layout;
use tlb_fill::Translated;
use tlb_lock::Busy;

const LAYOUT: Layout = Layout {
    harts: 1,
    pages: 1024,
};

const SUPERVISOR: Regime = Regime {
    satp: 0x8000_0000_0008_0010,
    user: false,
    sum: false,
    mxr: false,
};

const USER: Regime = Regime {
    satp: 0x8000_0000_0008_0010,
    user: true,
    sum: false,
    mxr: false,
};

const BARE: Regime = Regime {
    satp: 0,
    user: false,
    sum: false,
    mxr: false,
};

fn to(regime: Regime, va: u64, kind: Kind, to: Translated, used: u16) -> Row {
    Row {
        deed: Deed::Translate {
            regime,
            va,
            kind,
            to,
        },
        used,
    }
}

fn fault(cause: u64, tval: u64) -> Translated {
    Translated::Fault { cause, tval }
}

fn flush(page: u32, count: u16, used: u16) -> Row {
    Row {
        deed: Deed::FlushPages {
            page,
            count,
            held: false,
        },
        used,
    }
}

const FLUSH_ALL: Row = Row {
    deed: Deed::FlushAll { held: false },
    used: 0,
};

// LOCK as the monitor, the ninth actor, leaves it
const BUSY: Translated = Translated::Busy(Busy { holder: 9 });

#[test]
fn fills_hits_and_flushes(rt: HostRuntime) -> Result<(), Fail> {
    let rows = [
        // a load fills, the next hits; a store lets the entry be used for stores
        to(
            SUPERVISOR,
            0x1234,
            Kind::Load,
            Translated::Ram(0x8002_0234),
            1,
        ),
        to(
            SUPERVISOR,
            0x1ff8,
            Kind::Load,
            Translated::Ram(0x8002_0ff8),
            1,
        ),
        to(
            SUPERVISOR,
            0x1238,
            Kind::Store,
            Translated::Ram(0x8002_0238),
            1,
        ),
        to(
            SUPERVISOR,
            0x1238,
            Kind::Store,
            Translated::Ram(0x8002_0238),
            1,
        ),
        // X and U are not set
        to(SUPERVISOR, 0x1234, Kind::Fetch, fault(12, 0x1234), 1),
        to(USER, 0x1234, Kind::Load, fault(13, 0x1234), 1),
        to(USER, 0x1234, Kind::Store, fault(15, 0x1234), 1),
        // keys by mode: the page for user mode has another slot
        to(USER, 0x3008, Kind::Store, Translated::Ram(0x8002_0008), 2),
        to(SUPERVISOR, 0x3008, Kind::Load, fault(13, 0x3008), 2),
        // a flush of another page leaves the entry, one of its own page doesn't
        flush(2, 1, 2),
        to(
            SUPERVISOR,
            0x1000,
            Kind::Load,
            Translated::Ram(0x8002_0000),
            2,
        ),
        flush(0, 2, 2),
        to(
            SUPERVISOR,
            0x1000,
            Kind::Load,
            Translated::Ram(0x8002_0000),
            3,
        ),
        // without D: the load fills, the store faults
        to(
            SUPERVISOR,
            0x6000,
            Kind::Load,
            Translated::Ram(0x8002_0000),
            4,
        ),
        to(SUPERVISOR, 0x6000, Kind::Store, fault(15, 0x6000), 4),
        // the UART: loads and stores, and no fetch
        to(
            SUPERVISOR,
            0xa005,
            Kind::Load,
            Translated::Device(0x1000_0005),
            5,
        ),
        to(
            SUPERVISOR,
            0xa000,
            Kind::Store,
            Translated::Device(0x1000_0000),
            5,
        ),
        to(SUPERVISOR, 0xa000, Kind::Fetch, fault(1, 0xa000), 5),
        // a table outside of RAM; no entry
        to(
            SUPERVISOR,
            0x4000_0000,
            Kind::Load,
            fault(5, 0x4000_0000),
            5,
        ),
        to(SUPERVISOR, 0x2000, Kind::Load, fault(13, 0x2000), 5),
        // 2 MiB: a flush of another page of it leaves nothing
        to(
            SUPERVISOR,
            0x20_b123,
            Kind::Load,
            Translated::Ram(0x8020_b123),
            6,
        ),
        flush(0x200, 1, 0),
        to(
            SUPERVISOR,
            0x1000,
            Kind::Load,
            Translated::Ram(0x8002_0000),
            1,
        ),
        // 1 GiB
        to(
            SUPERVISOR,
            0x8000_5004,
            Kind::Fetch,
            Translated::Ram(0x8000_5004),
            2,
        ),
        FLUSH_ALL,
        // bare mode fills and hits as any other
        to(
            BARE,
            0x8000_1004,
            Kind::Store,
            Translated::Ram(0x8000_1004),
            1,
        ),
        to(
            BARE,
            0x8000_1008,
            Kind::Load,
            Translated::Ram(0x8000_1008),
            1,
        ),
        to(BARE, 0x7fff_fff8, Kind::Load, fault(5, 0x7fff_fff8), 1),
    ];
    assert_eq!(&rt; rows_right(rt.alloc(), LAYOUT, &rows)?, rows.len());
    Ok(())
}

#[test]
fn changes_nothing_where_the_monitor_holds_the_lock(rt: HostRuntime) -> Result<(), Fail> {
    let hit = to(
        SUPERVISOR,
        0x1234,
        Kind::Load,
        Translated::Ram(0x8002_0234),
        1,
    );
    let held = [
        // a hit takes no lock, a store's first one does; a miss does where the walk finds a leaf
        hit,
        to(SUPERVISOR, 0x1238, Kind::Store, BUSY, 1),
        to(SUPERVISOR, 0x6000, Kind::Load, BUSY, 1),
        to(SUPERVISOR, 0x2000, Kind::Load, fault(13, 0x2000), 1),
        Row {
            deed: Deed::FlushPages {
                page: 1,
                count: 1,
                held: true,
            },
            used: 1,
        },
        Row {
            deed: Deed::FlushAll { held: true },
            used: 1,
        },
        // the entry is there still, for loads alone
        hit,
        to(SUPERVISOR, 0x1238, Kind::Store, BUSY, 1),
    ];
    assert_eq!(&rt;
        rows_right_beside(rt.alloc(), LAYOUT, &[hit], &held)?,
        (1, held.len())
    );
    Ok(())
}
