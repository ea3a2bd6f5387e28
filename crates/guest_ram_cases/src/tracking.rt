// A snapshot beside two harts: one that marks a page and stores there, and one with nothing to do.
ghost use Rattle.std.specs.Prelude.{◌≡◌, ◌≤◌, ◌<◌, [], ℕ, IfOk, length, false};
ghost use Rattle.step_laws.specs.Layout.{IsInLimits};
ghost use Rattle.step_laws.specs.Marks.{awaiting, last_place};
ghost use Rattle.step_laws.specs.Output.{has_touched};
ghost use Rattle.step_laws.specs.Places.{acked_requests};
ghost use Rattle.step_laws.specs.Steps.{words_of};
ghost use Rattle.step_laws.specs.Words.{monitor};
ghost use Rattle.guest_ram.specs.Areas.{AnyWord, IsApart, IsOfPlaces};
ghost use Rattle.guest_ram.specs.Ports.{layout_of, IsActing, GoesBy};
ghost use Rattle.guest_ram.specs.Shown.{all_words};
ghost use Rattle.guest_ram_cases.specs.Requests.{IsEmptyTable, IsServing};
ghost use Rattle.guest_ram_cases.specs.Sweeps.{IsAtStage, waiting_stage};
ghost use Rattle.guest_ram_cases.specs.Tours.{IsFresh};

use crate::ending::begin_turn;
use crate::entering::{enter, leave};
use crate::filling::{Entry, fill};
use crate::inside::add_to_row;
use crate::locking::{lock, unlock};
use crate::marking::{dirty_slot, mark};
use crate::seating::{Seats, close_seats, open_seats};
use crate::serving::serve_drain;
use crate::snapshotting::{await_drains, begin_snapshot};
use guest_ram::{Port, Words};
use std::alloc::Global;
use step_laws::{Layout, MONITOR, NoMemory};

/// What the calls came to.
#[derive(Clone, Copy, Debug, PartialEq, Eq)]
pub struct Tracked {
    /// Whether the hart stored on its page.
    pub stored: bool,
    /// The hart that the monitor waited for: before any ack, behind that of hart 0, and behind that of hart 1. None where it didn't come
    /// so far.
    pub awaited: Option<(u8, u8, u8)>,
    /// Whether the hart marked another page behind the snapshot.
    pub dirtied: bool,
}

/// Marks the first page and stores there, in a turn of its own, and begins the next. `false`: another has claimed the section.
pub fn store_on_page<P: Port>(port: &mut P) -> bool
    requires fresh { IsFresh (P.shows port.old) }
    requires hart { (P.shows port.old).own.actor < (layout_of (P.shows port.old)).harts }
    ensures untouched { has_touched (P.shows port.new).own.steps ≡ false }
    ensures acting { IsActing (P.shows port.new) }
    ensures goes { GoesBy 14 IsApart (P.shows port.old) (P.shows port.new) }
{
    mark(port, 0);
    if enter(port).is_err() {
        begin_turn(port);
        return false;
    }
    add_to_row(port, 0, 8, 1);
    leave(port);
    begin_turn(port);
    true
}

/// Waits three times: before any ack, behind the first hart's and behind the second's.
pub fn wait_for_both<P: Port>(port: &mut P, first: &mut P, second: &mut P) -> (u8, u8, u8)
    requires stage { IsAtStage (P.shows port.old) (awaiting 0) }
    requires places { (t : ℕ) → last_place t (P.shows port.old).own.steps ≡ 0 }
    requires first { IsServing (P.shows first.old) monitor }
    requires second { IsServing (P.shows second.old) monitor }
    requires none { acked_requests (P.shows first.old).own.actor monitor (P.shows first.old).own.steps ≡ [] }
    requires no_other { acked_requests (P.shows second.old).own.actor monitor (P.shows second.old).own.steps ≡ [] }
    ensures stage { IsAtStage (P.shows port.new) (waiting_stage (P.shows port.new) result.2) }
    ensures second { IsServing (P.shows second.new) monitor }
    ensures goes { GoesBy 24 IsOfPlaces (P.shows port.old) (P.shows port.new) }
    ensures goes_first { GoesBy 2 IsOfPlaces (P.shows first.old) (P.shows first.new) }
    ensures goes_second { GoesBy 2 IsOfPlaces (P.shows second.old) (P.shows second.new) }
{
    let before = await_drains(port, 0);
    let _first = serve_drain(first, MONITOR, 0);
    let between = await_drains(port, before);
    let _second = serve_drain(second, MONITOR, 0);
    let behind = await_drains(port, between);
    (before, between, behind)
}

/// Fills a victim with an entry for the second page, and marks that so that the entry is for stores. `false`: the lock was not free.
pub fn dirty_victim<P: Port>(port: &mut P) -> bool
    requires acting { IsActing (P.shows port.old) }
    requires hart { (P.shows port.old).own.actor < (layout_of (P.shows port.old)).harts }
    requires table { IsEmptyTable (P.shows port.old) }
    ensures goes { GoesBy 9 AnyWord (P.shows port.old) (P.shows port.new) }
{
    if lock(port).is_err() {
        return false;
    }
    let entry = Entry {
        read: 0x4000_0000,
        write: 0x4000_0002,
        code: 1,
        page: 0x8000_1000,
    };
    fill(port, 1025, &entry);
    dirty_slot(port, 1025, 1);
    unlock(port);
    true
}

/// Hart 1 stores, the monitor makes a snapshot. The words at the end, and what the calls came to.
pub fn snapshot_tour(alloc: Global, layout: Layout) -> Result<(Words, Tracked), NoMemory>
    requires limits { IsInLimits layout }
    requires harts { 2 ≤ layout.harts }
    ensures count { IfOk result (λ made. length (all_words made.0) ≡ words_of layout) }
{
    let Seats {
        table,
        loader,
        first,
        second,
        monitor,
    } = open_seats(alloc, layout, 7)?;
    let mut idle = first.pass(&table);
    let mut storing = second.pass(&table);
    let mut watching = monitor.pass(&table);
    let stored = store_on_page(&mut storing);
    let awaited = if begin_snapshot(&mut watching) {
        Some(wait_for_both(&mut watching, &mut idle, &mut storing))
    } else {
        None
    };
    let dirtied = dirty_victim(&mut storing);
    let idle = idle.rest();
    let storing = storing.rest();
    let watching = watching.rest();
    let words = close_seats(table, loader, idle, storing, watching);
    Ok((
        words,
        Tracked {
            stored,
            awaited,
            dirtied,
        },
    ))
}
