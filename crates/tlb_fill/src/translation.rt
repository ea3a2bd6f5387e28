// A translation: the lookup, the walk, and the entry that is put.
ghost use Rattle.std.specs.Prelude.{◌≡◌, ◌≢◌, ◌<◌, ◌≤◌, ℕ, true, List};
ghost use Rattle.rv64_priv.specs.declared.state.Kind.TheVariants.{Store};
ghost use Rattle.rv64_priv.specs.Walk as spec;
ghost use Rattle.step_laws.specs.declared.map.TlbField.{TlbField};
ghost use Rattle.step_laws.specs.declared.map.TlbField.TheVariants.{Page};
ghost use Rattle.step_laws.specs.Map.{Tlb};
ghost use Rattle.step_laws.specs.Sections.{MayTouch};
ghost use Rattle.step_laws.specs.Tables.{table_word};
ghost use Rattle.guest_ram.specs.Ports.{layout_of, GoesBy};
ghost use Rattle.walk_laws.specs.KeptWalks.{Item};
ghost use Rattle.tlb_table.specs.Lookups.{slot};
ghost use Rattle.kept_fills.specs.Beside.{IsBeside};
ghost use Rattle.kept_fills.specs.Fills.{Fill, GoesWithFills, HasSameTable};
ghost use Rattle.tlb_fill.specs.Answered.{AnswersAllowed, ArmsFor, HitsKept, HitsNow, LeavesAll};
ghost use Rattle.tlb_fill.specs.Outcomes.{ArmsAt, Changes, Fills};
ghost use Rattle.tlb_fill.specs.Stepping.{Fits, HasTranslated, IsEntered, IsOfFill, IsOfHit, IsServed, IsWalkedFor, answer, waits};

use crate::marks::{allow_stores, mark_for};
use guest_ram::Port;
use rv64_priv::{Kind, Regime, access_fault, page_fault};
use sv39_walk::{WalkEnd, walk};
use tlb_entry::{Book, Entry, Hit, entry_of};
use tlb_lock::{Busy, try_lock, unlock};
use tlb_table::{probe, put, slot_of};

/// What a virtual address leads to: a physical address in RAM or on a device, or a fault with its cause and its value; or the lock of the
/// hart's TLB was held.
#[derive(Clone, Copy, Debug, PartialEq, Eq)]
pub enum Translated {
    Ram(u64),
    Device(u64),
    Fault { cause: u64, tval: u64 },
    Busy(Busy),
}

/// The leaf of a walk.
#[derive(Clone, Copy)]
struct LeafFound {
    pte: u64,
    page: u64,
    level: u8,
}

#[inline]
fn is_device(page: u64) -> bool
    ensures { result ≡ spec.is_device page }
{
    page / 4096 == 0x1_0000 || page / 4096 == 0x100
}

#[inline]
fn answer(device: bool, page: u64, va: u64) -> Translated
    ensures { result ≡ answer device page va }
{
    let at = page / 4096 * 4096 + va % 4096;
    if device {
        Translated::Device(at)
    } else {
        Translated::Ram(at)
    }
}

#[inline]
fn waits(kind: Kind, not_dirty: bool) -> bool
    ensures { result ≡ waits kind not_dirty }
{
    match kind {
        Kind::Store => not_dirty,
        Kind::Load | Kind::Fetch => false,
    }
}

/// Answers a hit. A store lets the entry be used for stores first.
fn serve_hit<P: Port>(port: &mut P, book: &Book, va: u64, kind: Kind, hit: &Hit) -> Translated
    requires beside { IsBeside book.now (P.shows port.old) }
    requires slot { hit.now.slot < 1024 }
    requires page { hit.now.page ≡ table_word (Tlb (P.shows port.old).own.actor hit.now.slot Page) (P.shows port.old).own.steps }
    ensures served { IsServed (P.shows port.old) (P.shows port.new) va kind hit.now result }
    ensures same { HasSameTable (P.shows port.old) (P.shows port.new) }
    ensures armed { waits kind hit.now.not_dirty ≡ true → ArmsAt hit.now.page (P.shows port.new) result }
    ensures beside { IsBeside book.now (P.shows port.new) }
    ensures goes { GoesBy 4 IsOfHit (P.shows port.old) (P.shows port.new) }
{
    if !waits(kind, hit.not_dirty) {
        return answer(hit.device, hit.page, va);
    }
    match allow_stores(port, book, hit) {
        Err(busy) => Translated::Busy(busy),
        Ok(()) => answer(hit.device, hit.page, va),
    }
}

/// The entry of a leaf. For a store it says that its page is dirty, since the store marks it.
fn entry_for(regime: &Regime, va: u64, kind: Kind, leaf: LeafFound) -> Entry
    ensures { Fits result regime.now va kind leaf.pte leaf.page }
{
    let entry = entry_of(leaf.pte, va, leaf.page, is_device(leaf.page), regime);
    match kind {
        Kind::Store => Entry {
            write: entry.write / 4 * 4 + entry.write % 2,
            ..entry
        },
        Kind::Load | Kind::Fetch => entry,
    }
}

/// Puts the entry of a leaf; for a store its page is marked first.
fn enter<P: Port>(
    port: &mut P,
    book: &mut Book,
    regime: &Regime,
    va: u64,
    kind: Kind,
    leaf: LeafFound,
) -> Translated
    requires beside { IsBeside book.old (P.shows port.old) }
    ensures entered { IsEntered (P.shows port.old) (P.shows port.new) book.old book.new regime.now va kind leaf.pte leaf.page leaf.level result }
    ensures changes { Changes (P.shows port.old) (P.shows port.new) book.old book.new regime.now va leaf.pte leaf.page leaf.level result }
    ensures armed { kind ≡ Store → ArmsAt leaf.page (P.shows port.new) result }
    ensures beside { IsBeside book.new (P.shows port.new) }
    ensures goes { GoesBy 11 IsOfHit (P.shows port.old) (P.shows port.new) }
{
    let entry = entry_for(regime, va, kind, leaf);
    match try_lock(port, book.hart) {
        Err(busy) => return Translated::Busy(busy),
        Ok(()) => {}
    }
    mark_for(port, kind, leaf.page);
    let slot = slot_of(va, book.size);
    put(port, book, slot, &entry);
    unlock(port, book.hart);
    book.large = leaf.level != 0 || book.large;
    answer(is_device(leaf.page), leaf.page, va)
}

/// Walks, and enters the leaf.
fn fill<P: Port>(port: &mut P, book: &mut Book, regime: &Regime, va: u64, kind: Kind) -> Translated
    requires beside { IsBeside book.old (P.shows port.old) }
    requires may { MayTouch (layout_of (P.shows port.old)) (P.shows port.old).own.actor (P.shows port.old).own.steps }
    ensures walked { IsWalkedFor (P.shows port.old) (P.shows port.new) book.old book.new regime.now va kind result }
    ensures table { Fills (P.shows port.old) (P.shows port.new) book.old book.new regime.now va kind result }
    ensures armed { kind ≡ Store → ArmsFor kind (P.shows port.new) result }
    ensures beside { IsBeside book.new (P.shows port.new) }
    ensures goes { GoesBy 14 IsOfFill (P.shows port.old) (P.shows port.new) }
{
    match walk(port, regime, va, kind) {
        WalkEnd::Leaf { pte, page, level } => enter(
            port,
            book,
            regime,
            va,
            kind,
            LeafFound { pte, page, level },
        ),
        WalkEnd::PageFault => Translated::Fault {
            cause: page_fault(kind),
            tval: va,
        },
        WalkEnd::AccessFault => Translated::Fault {
            cause: access_fault(kind),
            tval: va,
        },
    }
}

/// Translates an address for a kind of access: by the hart's TLB where an entry of it hits, and else by a walk, whose leaf is entered. A
/// store marks its page before it answers. `Fault` has the cause and the address; where another holds the hart's lock nothing is entered.
pub fn translate<P: Port>(
    book: &mut Book,
    port: &mut P,
    regime: &Regime,
    va: u64,
    kind: Kind,
) -> Translated
    requires beside { IsBeside book.old (P.shows port.old) }
    requires may { MayTouch (layout_of (P.shows port.old)) (P.shows port.old).own.actor (P.shows port.old).own.steps }
    ensures made { HasTranslated (P.shows port.old) (P.shows port.new) book.old book.new regime.now va kind result }
    ensures allowed { (items : List Item) (fills : List Fill) → GoesWithFills (P.shows port.old) book.old regime.now items fills → AnswersAllowed (P.shows port.old) (P.shows port.new) book.new regime.now va kind result items fills }
    ensures hits_now { HitsNow (P.shows port.new) book.old.size regime.now va kind result }
    ensures hit_stays { HitsKept (P.shows port.old) book.old.size regime.now va kind → HasSameTable (P.shows port.old) (P.shows port.new) × (book.new ≡ book.old) × GoesBy 6 IsOfHit (P.shows port.old) (P.shows port.new) }
    ensures leaves { LeavesAll (P.shows port.old) (P.shows port.new) book.old book.new result }
    ensures others { (other : ℕ) (field : TlbField) → other ≢ slot va book.old.size → table_word (Tlb (P.shows port.new).own.actor other field) (P.shows port.new).own.steps ≡ table_word (Tlb (P.shows port.old).own.actor other field) (P.shows port.old).own.steps }
    ensures armed { ArmsFor kind (P.shows port.new) result }
    ensures beside { IsBeside book.new (P.shows port.new) }
    ensures goes { GoesBy 15 IsOfFill (P.shows port.old) (P.shows port.new) }
{
    match probe(port, book, va, regime.user, kind) {
        Some(hit) => serve_hit(port, book, va, kind, &hit),
        None => fill(port, book, regime, va, kind),
    }
}
