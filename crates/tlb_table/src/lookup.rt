// Lookups, which no lock can stop: what they make their steps with can only load words of the own table.
ghost use Rattle.std.specs.Prelude.{◌≡◌, ◌<◌, is_some};
ghost use Rattle.step_laws.specs.Fields.{IsSize};
ghost use Rattle.guest_ram.specs.Areas.{IsOfTable};
ghost use Rattle.guest_ram.specs.Ports.{layout_of, IsActing, GoesBy};
ghost use Rattle.tlb_entry.specs.Books.{GoesWith};
ghost use Rattle.tlb_entry.specs.Compare.{field_of, hit};
ghost use Rattle.tlb_entry.specs.Kept.{kept};
ghost use Rattle.tlb_table.specs.Lookups.{HasProbed, IsAlike, slot};

use guest_ram::Look;
use rv64_priv::Kind;
use step_laws::{TlbField, tlb_word};
use tlb_entry::{Book, Hit, compare_field, hits};

/// The main slot of an address in a table with so many main slots.
#[inline]
#[tactic(auto, using(crate::proofs::Sizes::mask_slot, crate::proofs::Sizes::size_some, crate::proofs::Sizes::slot_below))]
pub fn slot_of(va: u64, size: u16) -> u16
    requires { IsSize size }
    ensures value { result ≡ slot va size }
    ensures below { result < size }
{
    ((va >> 12) & u64::from(size - 1)) as u16
}

/// The entry of the address for this mode and this kind of access, where the table has it.
#[inline]
pub fn probe<L: Look>(look: &mut L, book: &Book, va: u64, user: bool, kind: Kind) -> Option<Hit>
    requires acting { IsActing (L.shows look.old) }
    requires hart { (L.shows look.old).own.actor < (layout_of (L.shows look.old)).harts }
    requires book { GoesWith book.now (L.shows look.old).own.actor (L.shows look.old).own.steps }
    ensures probed { HasProbed (L.shows look.old) (L.shows look.new) (slot va book.now.size) va user kind result }
    ensures kept { is_some result ≡ hit (kept (L.shows look.old).own.actor (slot va book.now.size) (field_of kind) (L.shows look.old).own.steps) va user }
    ensures alike { IsAlike (L.shows look.old) (L.shows look.new) }
    ensures book { GoesWith book.now (L.shows look.new).own.actor (L.shows look.new).own.steps }
    ensures acting { IsActing (L.shows look.new) }
    ensures goes { GoesBy 2 IsOfTable (L.shows look.old) (L.shows look.new) }
{
    let slot = slot_of(va, book.size);
    let compare = look.look(tlb_word(book.hart, slot, compare_field(kind)));
    if !hits(compare, va, user) {
        return None;
    }
    let page = look.look(tlb_word(book.hart, slot, TlbField::Page));
    Some(Hit::new(slot, compare, page))
}
