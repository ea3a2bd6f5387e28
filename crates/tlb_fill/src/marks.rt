// Marks of pages by their physical addresses, and what lets an entry be used for stores.
ghost use Rattle.std.specs.Prelude.{◌≡◌, ◌<◌, ℕ, OnOk, IfErr};
ghost use Rattle.rv64_priv.specs.declared.state.Kind.TheVariants.{Store};
ghost use Rattle.step_laws.specs.declared.map.TlbField.{TlbField};
ghost use Rattle.step_laws.specs.declared.map.TlbField.TheVariants.{Page};
ghost use Rattle.step_laws.specs.Map.{Tlb};
ghost use Rattle.step_laws.specs.Tables.{held_lock, is_clear_due, table_word};
ghost use Rattle.guest_ram.specs.Ports.{layout_of, IsActing, GoesBy};
ghost use Rattle.kept_fills.specs.Beside.{IsBeside};
ghost use Rattle.kept_fills.specs.Fills.{HasSameTable};
ghost use Rattle.tlb_lock.specs.Locking.{HasFoundHolder};
ghost use Rattle.tlb_table.specs.Changes.{IsKnownIn};
ghost use Rattle.tlb_fill.specs.Stepping.{HasMarkedAt, HasMarkedFor, HasSettled, IsArmedAt, IsOfHit, IsOfMarks};

use dirty_bitmap::mark;
use guest_ram::Port;
use rv64_priv::Kind;
use step_laws::{RAM_BASE, TlbField, tlb_word};
use tlb_entry::{Book, Hit};
use tlb_lock::{Busy, try_lock, unlock};

/// The number of RAM's first page among all pages.
const FIRST_PAGE: u64 = RAM_BASE / 4096;

/// Bit 1 of a WRITE word.
const NOT_DIRTY: u64 = 2;

/// Marks the page of RAM at a physical address. A device has no marks.
fn mark_at<P: Port>(port: &mut P, address: u64)
    requires acting { IsActing (P.shows port.old) }
    requires hart { (P.shows port.old).own.actor < (layout_of (P.shows port.old)).harts }
    ensures marked { HasMarkedAt address (P.shows port.old) (P.shows port.new) }
    ensures known { IsKnownIn address (P.shows port.new) }
    ensures armed { IsArmedAt address (P.shows port.new) }
    ensures held { held_lock (P.shows port.new).own.steps ≡ held_lock (P.shows port.old).own.steps }
    ensures table { (slot : ℕ) (field : TlbField) → table_word (Tlb (P.shows port.new).own.actor slot field) (P.shows port.new).own.steps ≡ table_word (Tlb (P.shows port.old).own.actor slot field) (P.shows port.old).own.steps }
    ensures due { (slot : ℕ) (field : TlbField) → is_clear_due (P.shows port.new).own.actor slot field (P.shows port.new).own.steps ≡ is_clear_due (P.shows port.old).own.actor slot field (P.shows port.old).own.steps }
    ensures acting { IsActing (P.shows port.new) }
    ensures goes { GoesBy 1 IsOfMarks (P.shows port.old) (P.shows port.new) }
{
    let page = address / 4096;
    if page < FIRST_PAGE {
        return;
    }
    let number = page - FIRST_PAGE;
    let pages = port.layout().pages;
    if number >= u64::from(pages) {
        return;
    }
    mark(port, number as u32);
}

/// Marks it for a store.
pub fn mark_for<P: Port>(port: &mut P, kind: Kind, address: u64)
    requires acting { IsActing (P.shows port.old) }
    requires hart { (P.shows port.old).own.actor < (layout_of (P.shows port.old)).harts }
    ensures marked { HasMarkedFor kind address (P.shows port.old) (P.shows port.new) }
    ensures known { kind ≡ Store → IsKnownIn address (P.shows port.new) }
    ensures armed { kind ≡ Store → IsArmedAt address (P.shows port.new) }
    ensures held { held_lock (P.shows port.new).own.steps ≡ held_lock (P.shows port.old).own.steps }
    ensures table { (slot : ℕ) (field : TlbField) → table_word (Tlb (P.shows port.new).own.actor slot field) (P.shows port.new).own.steps ≡ table_word (Tlb (P.shows port.old).own.actor slot field) (P.shows port.old).own.steps }
    ensures due { (slot : ℕ) (field : TlbField) → is_clear_due (P.shows port.new).own.actor slot field (P.shows port.new).own.steps ≡ is_clear_due (P.shows port.old).own.actor slot field (P.shows port.old).own.steps }
    ensures acting { IsActing (P.shows port.new) }
    ensures goes { GoesBy 1 IsOfMarks (P.shows port.old) (P.shows port.new) }
{
    match kind {
        Kind::Store => mark_at(port, address),
        Kind::Load | Kind::Fetch => {}
    }
}

/// Lets the slot of a hit be used for stores: marks its page, and then clears bit 1 of its WRITE word.
pub fn allow_stores<P: Port>(port: &mut P, book: &Book, hit: &Hit) -> Result<(), Busy>
    requires beside { IsBeside book.now (P.shows port.old) }
    requires slot { hit.now.slot < 1024 }
    requires page { hit.now.page ≡ table_word (Tlb (P.shows port.old).own.actor hit.now.slot Page) (P.shows port.old).own.steps }
    ensures settled { OnOk result (HasSettled hit.now.slot hit.now.page (P.shows port.old) (P.shows port.new)) }
    ensures busy { IfErr result (λ busy. HasFoundHolder (P.shows port.old).own.actor busy.holder (P.shows port.old) (P.shows port.new)) }
    ensures same { HasSameTable (P.shows port.old) (P.shows port.new) }
    ensures armed { OnOk result (IsArmedAt hit.now.page (P.shows port.new)) }
    ensures beside { IsBeside book.now (P.shows port.new) }
    ensures goes { GoesBy 4 IsOfHit (P.shows port.old) (P.shows port.new) }
{
    match try_lock(port, book.hart) {
        Err(busy) => return Err(busy),
        Ok(()) => {}
    }
    mark_at(port, hit.page);
    let write = tlb_word(book.hart, hit.slot, TlbField::Write);
    port.fetch_and(write, !NOT_DIRTY);
    unlock(port, book.hart);
    Ok(())
}
