// Marking a page of RAM as dirty, which a hart does before it stores there or lets an entry be used for stores.
ghost use Rattle.std.specs.Prelude.{◌≡◌, ◌<◌, ℕ, true};
ghost use Rattle.step_laws.specs.Marks.{is_armed, is_known_dirty, is_page};
ghost use Rattle.step_laws.specs.declared.map.TlbField.{TlbField};
ghost use Rattle.step_laws.specs.declared.map.TlbField.TheVariants.{Page};
ghost use Rattle.step_laws.specs.Map.{Tlb};
ghost use Rattle.step_laws.specs.Tables.{table_word};
ghost use Rattle.step_laws.specs.Words.{all_slots};
ghost use Rattle.guest_ram.specs.Areas.{AnyWord, IsOfRam};
ghost use Rattle.guest_ram.specs.Ports.{Shown, layout_of, IsActing, GoesBy};
ghost use Rattle.guest_ram_cases.specs.Entries.{HasDirtied, IsHolding, IsPaid};
ghost use Rattle.guest_ram_cases.specs.Made.{HasMarked};

use guest_ram::Port;
use step_laws::{TlbField, dirty_word, tlb_word};

/// Marks a page. From then on the hart may store there, until its turn ends or it acks a request.
#[tactic(auto, using(crate::proofs::Marks::may_mark_page, crate::proofs::Marks::page_bit, crate::proofs::Marks::armed_marked, crate::proofs::Marks::known_marked, crate::proofs::Marks::page_few))]
pub fn mark<P: Port>(port: &mut P, page: u32)
    requires acting { IsActing (P.shows port.old) }
    requires hart { (P.shows port.old).own.actor < (layout_of (P.shows port.old)).harts }
    requires page { page < (layout_of (P.shows port.old)).pages }
    ensures marked { HasMarked (P.shows port.old) (P.shows port.new) page }
    ensures armed { is_armed (P.shows port.new).own.actor page (P.shows port.new).own.steps ≡ true }
    ensures known { is_known_dirty (P.shows port.new).own.actor page (P.shows port.new).own.steps ≡ true }
    ensures holds { IsHolding (P.shows port.old) → IsHolding (P.shows port.new) }
    ensures pays { IsPaid (P.shows port.old) → IsPaid (P.shows port.new) }
    ensures table { (slot : ℕ) (field : TlbField) → table_word (Tlb (P.shows port.new).own.actor slot field) (P.shows port.new).own.steps ≡ table_word (Tlb (P.shows port.old).own.actor slot field) (P.shows port.old).own.steps }
    ensures acting { IsActing (P.shows port.new) }
    ensures goes { GoesBy 1 IsOfRam (P.shows port.old) (P.shows port.new) }
{
    port.fetch_or(dirty_word((page / 64) as u8), 1u64 << (page % 64));
}

/// Marks a page and lets a slot that is for it be used for stores, in a section of the own lock.
pub fn dirty_slot<P: Port>(port: &mut P, slot: u16, page: u32)
    requires acting { IsActing (P.shows port.old) }
    requires hart { (P.shows port.old).own.actor < (layout_of (P.shows port.old)).harts }
    requires held { IsHolding (P.shows port.old) }
    requires paid { IsPaid (P.shows port.old) }
    requires slot { slot < all_slots }
    requires page { page < (layout_of (P.shows port.old)).pages }
    requires kept { is_page page (table_word (Tlb (P.shows port.old).own.actor slot Page) (P.shows port.old).own.steps) ≡ true }
    ensures marked { (between : Shown) × HasMarked (P.shows port.old) between page × HasDirtied between slot (P.shows port.new) }
    ensures held { IsHolding (P.shows port.new) }
    ensures paid { IsPaid (P.shows port.new) }
    ensures acting { IsActing (P.shows port.new) }
    ensures goes { GoesBy 2 AnyWord (P.shows port.old) (P.shows port.new) }
{
    mark(port, page);
    let write = tlb_word(port.actor(), slot, TlbField::Write);
    port.fetch_and(write, !2);
}
