// The device map at each width and edge, interrupts, reasons to end, and a full console.
use crate::{Deed, Filled, fill_console, rows_right};
use machine_model::Reason;
use rv64_exec::IpiOp;
use std::test::Fail;
use step_laws::{Layout, cons_word, console_word, ipi_word, stop_word};

const LAYOUT: Layout = Layout {
    harts: 2,
    pages: 256,
};

fn loads(pa: u64, width: u8, value: u64) -> Deed {
    Deed::Load {
        pa,
        width,
        value: Some(value),
    }
}

fn loads_none(pa: u64, width: u8) -> Deed {
    Deed::Load {
        pa,
        width,
        value: None,
    }
}

fn stores(pa: u64, width: u8, value: u64, is_taken: bool) -> Deed {
    Deed::Store {
        pa,
        width,
        value,
        is_taken,
    }
}

#[test]
fn loads_by_the_map(rt: HostRuntime) -> Result<(), Fail> {
    let rows = [
        loads(0x1000_0000, 1, 0),
        loads(0x1000_0004, 1, 0),
        loads(0x1000_0005, 1, 0x60),
        loads(0x1000_0007, 1, 0),
        loads(0x10_0000, 4, 0),
        // another width, and the bytes around
        loads_none(0x1000_0000, 2),
        loads_none(0x1000_0004, 4),
        loads_none(0x1000_0000, 8),
        loads_none(0x1000_0008, 1),
        loads_none(0x0fff_ffff, 1),
        loads_none(0x1000_0fff, 1),
        loads_none(0x10_0000, 1),
        loads_none(0x10_0000, 2),
        loads_none(0x10_0000, 8),
        loads_none(0x10_0004, 4),
        loads_none(0x10_0001, 4),
        loads_none(0x10_0ffc, 4),
    ];
    let (right, words) = rows_right(rt.alloc(), LAYOUT, &rows)?;
    assert_eq!(rt; right, 17);
    assert_eq!(rt; words.get(cons_word()), 0);
    assert_eq!(rt; words.get(stop_word()), 0);
    Ok(())
}

#[test]
fn stores_by_the_map(rt: HostRuntime) -> Result<(), Fail> {
    let rows = [
        stores(0x1000_0000, 1, 0x1_4f, true),
        stores(0x1000_0000, 1, 0x4b, true),
        // the other registers take a byte and do nothing with it
        stores(0x1000_0001, 1, 0x21, true),
        stores(0x1000_0007, 1, 0x21, true),
        stores(0x1000_0008, 1, 0x21, false),
        stores(0x1000_0000, 2, 0x21, false),
        stores(0x1000_0000, 4, 0x21, false),
        stores(0x1000_0000, 8, 0x21, false),
        // the finisher
        stores(0x10_0000, 2, 0x5555, false),
        stores(0x10_0000, 8, 0x5555, false),
        stores(0x10_0004, 4, 0x5555, false),
        stores(0x10_0000, 4, 0x1234, true),
    ];
    let (right, words) = rows_right(rt.alloc(), LAYOUT, &rows)?;
    assert_eq!(rt; right, 12);
    assert_eq!(rt; words.get(cons_word()), 2);
    assert_eq!(rt; words.get(console_word(0)), 0x14f);
    assert_eq!(rt; words.get(console_word(1)), 0x14b);
    assert_eq!(rt; words.get(console_word(2)), 0);
    assert_eq!(rt; words.get(stop_word()), 0);
    Ok(())
}

#[test]
fn the_first_reason_stands(rt: HostRuntime) -> Result<(), Fail> {
    let rows = [
        stores(0x10_0000, 4, 0x7_3333, true),
        stores(0x10_0000, 4, 0x5555, true),
        Deed::Fail(Reason::Fail(7)),
    ];
    let (right, words) = rows_right(rt.alloc(), LAYOUT, &rows)?;
    assert_eq!(rt; right, 3);
    assert_eq!(rt; words.get(stop_word()), 0x702);
    let passes = [
        stores(0x10_0000, 4, 0xffff_ffff_ffff_5555, true),
        Deed::Fail(Reason::Pass),
    ];
    let (right, words) = rows_right(rt.alloc(), LAYOUT, &passes)?;
    assert_eq!(rt; right, 2);
    assert_eq!(rt; words.get(stop_word()), 1);
    let fails = [Deed::Fail(Reason::Fail(9))];
    let (right, words) = rows_right(rt.alloc(), LAYOUT, &fails)?;
    assert_eq!(rt; right, 1);
    assert_eq!(rt; words.get(stop_word()), 0x902);
    Ok(())
}

#[test]
fn interrupts_pend_by_bits(rt: HostRuntime) -> Result<(), Fail> {
    let rows = [
        Deed::Ipi {
            op: IpiOp::Set,
            mask: 3,
            found: 0,
        },
        Deed::Ipi {
            op: IpiOp::Read,
            mask: 3,
            found: 3,
        },
        Deed::Ipi {
            op: IpiOp::Set,
            mask: 4,
            found: 3,
        },
        Deed::Ipi {
            op: IpiOp::Clear,
            mask: 2,
            found: 7,
        },
        Deed::Ipi {
            op: IpiOp::Clear,
            mask: 2,
            found: 5,
        },
        Deed::Ipi {
            op: IpiOp::Read,
            mask: 0,
            found: 5,
        },
        Deed::Put(0x2e),
    ];
    let (right, words) = rows_right(rt.alloc(), LAYOUT, &rows)?;
    assert_eq!(rt; right, 7);
    assert_eq!(rt; words.get(ipi_word()), 5);
    assert_eq!(rt; words.get(console_word(0)), 0x12e);
    Ok(())
}

#[test]
fn a_full_console_ends_the_machine(rt: HostRuntime) -> Result<(), Fail> {
    let (filled, words) = fill_console(rt.alloc(), LAYOUT, 0x61)?;
    assert_eq!(rt;
        filled,
        Some(Filled {
            put: 1_048_576,
            beyond: Some(1_048_576),
            is_taken: true,
        })
    );
    assert_eq!(rt; words.get(cons_word()), 1_048_578);
    assert_eq!(rt; words.get(console_word(1_048_575)), 0x161);
    assert_eq!(rt; words.get(stop_word()), 4);
    Ok(())
}
