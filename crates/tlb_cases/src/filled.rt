// An entry that is put into a table and looked up.
ghost use Rattle.std.specs.Prelude.{◌≡◌, ◌≢◌, ◌≤◌, ◌<◌, ◌%◌};
ghost use Rattle.step_laws.specs.Layout.{IsInLimits};
ghost use Rattle.tlb_cases.specs.Idle.{IsWith};

use crate::mapped::{Mapped, open_mapped};
use guest_ram::Port;
use rv64_priv::{Kind, Regime};
use std::alloc::Global;
use step_laws::{Layout, NoMemory};
use tlb_entry::{Book, Entry, Hit, entry_of};
use tlb_lock::{try_lock, unlock};
use tlb_table::{clear, probe, put, slot_of};

/// What lookups found behind a put of the page 0x1000 with the leaf 0x200080c7, which loads and stores may use in supervisor mode.
#[derive(Clone, Copy, Debug, PartialEq, Eq)]
pub struct Probed {
    /// How many slots were filled behind one put, and behind a second into the same slot.
    pub used: (u16, u16),
    pub load: Option<Hit>,
    pub store: Option<Hit>,
    pub fetch: Option<Hit>,
    pub user: Option<Hit>,
    /// The page 0x41000, which has the same slot.
    pub other_page: Option<Hit>,
    /// The load again, behind a clear.
    pub cleared: Option<Hit>,
}

/// Puts an entry, in a section of the lock, where that is free.
pub fn put_once<P: Port>(port: &mut P, book: &mut Book, slot: u16, entry: &Entry)
    requires with { IsWith book.old 0 (P.shows port.old) }
    requires slot { slot < book.old.size }
    requires not_dirty { entry.now.write % 4 ≢ 0 }
    ensures with { IsWith book.new 0 (P.shows port.new) }
    ensures size { book.new.size ≡ book.old.size }
{
    if try_lock(port, book.hart).is_err() {
        return;
    }
    put(port, book, slot, entry);
    unlock(port, book.hart);
}

/// Clears a slot likewise.
fn clear_once<P: Port>(port: &mut P, book: &Book, slot: u16)
    requires with { IsWith book.now 0 (P.shows port.old) }
    requires slot { slot < 1024 }
    ensures with { IsWith book.now 0 (P.shows port.new) }
{
    if try_lock(port, book.hart).is_err() {
        return;
    }
    clear(port, book, slot);
    unlock(port, book.hart);
}

/// A lookup.
fn find<P: Port>(port: &mut P, book: &Book, va: u64, user: bool, kind: Kind) -> Option<Hit>
    requires with { IsWith book.now 0 (P.shows port.old) }
    ensures with { IsWith book.now 0 (P.shows port.new) }
{
    probe(port, book, va, user, kind)
}

fn find_all<P: Port>(port: &mut P, book: &mut Book) -> Probed
    requires with { IsWith book.old 0 (P.shows port.old) }
{
    let regime = Regime {
        satp: 0x8000_0000_0008_0010,
        user: false,
        sum: false,
        mxr: false,
    };
    let slot = slot_of(0x1234, book.size);
    let entry = Entry {
        write: 0x1002,
        ..entry_of(0x2000_80c7, 0x1234, 0x8002_0000, false, &regime)
    };
    put_once(port, book, slot, &entry);
    let once = book.used;
    put_once(port, book, slot, &entry);
    let used = (once, book.used);
    let load = find(port, book, 0x1ff8, false, Kind::Load);
    let store = find(port, book, 0x1ff8, false, Kind::Store);
    let fetch = find(port, book, 0x1ff8, false, Kind::Fetch);
    let user = find(port, book, 0x1ff8, true, Kind::Load);
    let other_page = find(port, book, 0x4_1ff8, false, Kind::Load);
    clear_once(port, book, slot);
    let cleared = find(port, book, 0x1ff8, false, Kind::Load);
    Probed {
        used,
        load,
        store,
        fetch,
        user,
        other_page,
        cleared,
    }
}

/// The lookups of a hart with a new table.
pub fn probes(alloc: Global, layout: Layout) -> Result<Probed, NoMemory>
    requires limits { IsInLimits layout }
    requires pages { 1024 ≤ layout.pages }
{
    let Mapped {
        table,
        hart,
        monitor: _monitor,
    } = open_mapped(alloc, layout)?;
    let mut pass = hart.pass(&table);
    let mut book = Book::new(0);
    Ok(find_all(&mut pass, &mut book))
}
