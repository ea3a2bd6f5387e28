// A machine on which each kind of body that belongs to tables, sections and RAM was called once, by passes of one table.
ghost use Rattle.std.specs.Prelude.{◌≡◌, ◌≤◌, ◌<◌, IfOk, length};
ghost use Rattle.step_laws.specs.Layout.{IsInLimits};
ghost use Rattle.step_laws.specs.Map.{monitor};
ghost use Rattle.step_laws.specs.Sections.{IsOut};
ghost use Rattle.step_laws.specs.Steps.{words_of};
ghost use Rattle.guest_ram.specs.Ports.{layout_of, IsActing};
ghost use Rattle.guest_ram.specs.Shown.{all_words};
ghost use Rattle.guest_ram_cases.specs.Tours.{IsFresh, IsSameSeat};

use crate::claiming::{all_out, claim, release};
use crate::ending::{end_machine, sign_off};
use crate::entering::{enter, leave};
use crate::filling::{Entry, fill};
use crate::inside::{interrupt, read_console};
use crate::kicking::{kick, take_kick};
use crate::locking::{lock, unlock};
use crate::looking::{first_size, write_word};
use crate::marking::mark;
use crate::operating::{combine_all, store_all};
use crate::seating::{Seats, close_seats, open_seats};
use crate::sizing::double_size;
use crate::sweeping::{sweep, take_words};
use guest_ram::{Port, Words};
use std::alloc::Global;
use step_laws::{Layout, NoMemory};

/// Hart 0 doubles the size of its table and fills a slot, in a section of its lock.
fn tour_table<P: Port>(port: &mut P)
    requires fresh { IsFresh (P.shows port.old) }
    requires hart { (P.shows port.old).own.actor < (layout_of (P.shows port.old)).harts }
    ensures acting { IsActing (P.shows port.new) }
    ensures out { IsOut (P.shows port.new).own.steps }
    ensures seat { IsSameSeat (P.shows port.old) (P.shows port.new) }
{
    let own = port.actor();
    if lock(port).is_err() {
        return;
    }
    let entry = Entry {
        read: 0x4000_0000,
        write: 0x4000_0002,
        code: 1,
        page: 0x8000_1000,
    };
    double_size(port, own);
    fill(port, 100, &entry);
    unlock(port);
}

/// It claims the section, looks at all others, and calls hart 1 out.
fn tour_section<P: Port>(port: &mut P)
    requires acting { IsActing (P.shows port.old) }
    requires out { IsOut (P.shows port.old).own.steps }
    requires first { (P.shows port.old).own.actor ≡ 0 }
    requires harts { 2 ≤ (layout_of (P.shows port.old)).harts }
    ensures seat { IsSameSeat (P.shows port.old) (P.shows port.new) }
{
    if claim(port).is_err() {
        return;
    }
    let _seen = all_out(port);
    release(port);
    kick(port, 1);
}

/// Hart 1 looks at its table, makes every operation on a word of RAM, takes the call, ends the machine and makes its last step.
fn tour_other<P: Port>(port: &mut P)
    requires fresh { IsFresh (P.shows port.old) }
    requires hart { (P.shows port.old).own.actor < (layout_of (P.shows port.old)).harts }
    ensures seat { IsSameSeat (P.shows port.old) (P.shows port.new) }
{
    let _size = first_size(port);
    let _write = write_word(port, 3);
    let own = port.actor();
    mark(port, 0);
    if enter(port).is_err() {
        return;
    }
    let _found = store_all(port, 8);
    combine_all(port, 8);
    let _seen = read_console(port, 0);
    let _pending = interrupt(port, own);
    leave(port);
    take_kick(port);
    let _reason = end_machine(port, 1);
    sign_off(port);
}

/// The monitor takes the dirty words and passes over the table of hart 0.
fn tour_monitor<P: Port>(port: &mut P)
    requires fresh { IsFresh (P.shows port.old) }
    requires monitor_is { (P.shows port.old).own.actor ≡ monitor }
    ensures seat { IsSameSeat (P.shows port.old) (P.shows port.new) }
{
    take_words(port);
    let _swept = sweep(port, 0);
}

/// The words behind them all.
pub fn tour(alloc: Global, layout: Layout) -> Result<Words, NoMemory>
    requires limits { IsInLimits layout }
    requires harts { 2 ≤ layout.harts }
    ensures count { IfOk result (λ words. length (all_words words) ≡ words_of layout) }
{
    let Seats {
        table,
        loader,
        first,
        second,
        monitor,
    } = open_seats(alloc, layout, 7)?;
    let mut hart = first.pass(&table);
    tour_table(&mut hart);
    tour_section(&mut hart);
    let mut other = second.pass(&table);
    tour_other(&mut other);
    let mut third = monitor.pass(&table);
    tour_monitor(&mut third);
    let hart = hart.rest();
    let other = other.rest();
    let third = third.rest();
    Ok(close_seats(table, loader, hart, other, third))
}
