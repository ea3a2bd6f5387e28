// Machines of the smallest and the largest size, two harts on threads, and tours that make each kind of step.
use crate::{Rings, Started, Tracked, ring_tour, snapshot_tour, start_tour, tour, two_harts};
use guest_ram::open_machine;
use std::test::Fail;
use step_laws::{
    Layout, TlbField, cons_word, dirty_word, done_word, hsm_word, ipi_word, kick_word, live_word,
    lock_word, opaque_word, pend_word, place_word, ram_word_at, run_word, size_word, start_word,
    stop_word, tlb_word,
};

#[test]
fn smallest_and_largest_open(rt: HostRuntime) {
    for (harts, pages) in [(1, 256), (8, 4096)] {
        let made = open_machine(rt.alloc(), Layout { harts, pages });
        assert!(rt; made.is_ok());
    }
}

#[test]
fn two_harts_add_up(rt: HostRuntime) -> Result<(), Fail> {
    let words = two_harts(
        &rt,
        rt.alloc(),
        Layout {
            harts: 2,
            pages: 256,
        },
    )?;
    assert_eq!(rt; words.get(ram_word_at(0)), 2);
    assert_eq!(rt; words.get(ram_word_at(7)), 2);
    assert_eq!(rt; words.get(ram_word_at(8)), 0);
    assert_eq!(rt; words.get(cons_word()), 2);
    assert_eq!(rt; words.get(stop_word()), 0);
    assert_eq!(rt; words.get(dirty_word(0)), 1);
    Ok(())
}

#[test]
fn each_body_leaves_its_words(rt: HostRuntime) -> Result<(), Fail> {
    let words = tour(
        rt.alloc(),
        Layout {
            harts: 2,
            pages: 256,
        },
    )?;
    // the section is released, the call taken, the locks are free
    assert_eq!(rt; words.get(pend_word()), 0);
    assert_eq!(rt; words.get(run_word(0)), 0);
    assert_eq!(rt; words.get(kick_word(1)), 0);
    assert_eq!(rt; words.get(lock_word(0)), 0);
    // 12, 10, 15, 6; 4, 7, 8, 8, 11
    assert_eq!(rt; words.get(ram_word_at(8)), 11);
    // what the loader stored in RAM, and the interrupt that hart 1 asked for
    assert_eq!(rt; words.get(ram_word_at(16)), 7);
    assert_eq!(rt; words.get(ipi_word()), 2);
    assert_eq!(rt; words.get(stop_word()), 1);
    assert_eq!(rt; words.get(done_word(0)), 0);
    assert_eq!(rt; words.get(done_word(1)), 1);
    // hart 1 is stopped as at the beginning
    assert_eq!(rt; words.get(live_word()), 1);
    assert_eq!(rt; words.get(hsm_word(1)), 1);
    // the slot that was filled, one that was cleared, a victim, and one above the size; the monitor set bit 1 of each WRITE word but the last
    assert_eq!(rt; words.get(size_word(0)), 128);
    assert_eq!(rt; words.get(size_word(1)), 64);
    assert_eq!(rt; words.get(tlb_word(0, 100, TlbField::Read)), 0x4000_0000);
    assert_eq!(rt; words.get(tlb_word(0, 100, TlbField::Write)), 0x4000_0002);
    assert_eq!(rt; words.get(tlb_word(0, 100, TlbField::Page)), 0x8000_1000);
    assert_eq!(rt; words.get(tlb_word(0, 3, TlbField::Write)), 3);
    assert_eq!(rt; words.get(tlb_word(0, 127, TlbField::Code)), 1);
    assert_eq!(rt; words.get(tlb_word(0, 1031, TlbField::Write)), 3);
    assert_eq!(rt; words.get(tlb_word(0, 128, TlbField::Write)), 0);
    assert_eq!(rt; words.get(tlb_word(1, 3, TlbField::Write)), 1);
    // the page that hart 1 marked was taken
    assert_eq!(rt; words.get(dirty_word(0)), 0);
    Ok(())
}

#[test]
fn a_ring_takes_eight(rt: HostRuntime) -> Result<(), Fail> {
    let (words, rings) = ring_tour(
        rt.alloc(),
        Layout {
            harts: 2,
            pages: 256,
        },
    )?;
    // the ninth drain is refused; behind eight acks a flush of all and one of four pages from 0x80000 on go the whole way
    let wanted = Rings {
        drains: 8,
        drained: 8,
        flushes: 2,
        served: (1, 0x8000_0022),
        done: true,
    };
    assert!(rt; rings == wanted);
    assert_eq!(rt; words.get(place_word(1, 0, 0)), 0);
    assert_eq!(rt; words.get(place_word(1, 0, 1)), 0);
    assert_eq!(rt; words.get(place_word(1, 0, 7)), 0);
    assert_eq!(rt; words.get(lock_word(1)), 0);
    Ok(())
}

#[test]
fn a_start_is_taken_once(rt: HostRuntime) -> Result<(), Fail> {
    let (words, started) = start_tour(
        rt.alloc(),
        Layout {
            harts: 2,
            pages: 256,
        },
    )?;
    // the second start finds the hart called; it stops first and isn't the last, the starter is
    let wanted = Started {
        made: (true, false),
        ran: Some((0x8000_2000, 77, false)),
        state: 1,
        last: true,
    };
    assert!(rt; started == wanted);
    assert_eq!(rt; words.get(live_word()), 0);
    assert_eq!(rt; words.get(hsm_word(0)), 1);
    assert_eq!(rt; words.get(hsm_word(1)), 1);
    assert_eq!(rt; words.get(start_word(1)), 0x8000_2000);
    assert_eq!(rt; words.get(opaque_word(1)), 77);
    Ok(())
}

#[test]
fn a_snapshot_waits_for_both(rt: HostRuntime) -> Result<(), Fail> {
    let (words, tracked) = snapshot_tour(
        rt.alloc(),
        Layout {
            harts: 2,
            pages: 256,
        },
    )?;
    // the monitor waits for hart 0, then for hart 1, and then for none
    let wanted = Tracked {
        stored: true,
        awaited: Some((0, 1, 2)),
        dirtied: true,
    };
    assert!(rt; tracked == wanted);
    assert_eq!(rt; words.get(ram_word_at(7)), 1);
    // page 0 was taken; page 1 was marked behind the snapshot, and its entry is for stores
    assert_eq!(rt; words.get(dirty_word(0)), 2);
    assert_eq!(rt; words.get(tlb_word(1, 1025, TlbField::Write)), 0x4000_0000);
    assert_eq!(rt; words.get(tlb_word(1, 1025, TlbField::Page)), 0x8000_1000);
    // all other entries were passed over
    assert_eq!(rt; words.get(tlb_word(0, 3, TlbField::Write)), 3);
    assert_eq!(rt; words.get(tlb_word(1, 3, TlbField::Write)), 3);
    assert_eq!(rt; words.get(place_word(0, 8, 0)), 0);
    assert_eq!(rt; words.get(place_word(1, 8, 0)), 0);
    Ok(())
}
