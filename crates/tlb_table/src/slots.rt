// Changes of slots, in a section of the own lock.
ghost use Rattle.std.specs.Prelude.{◌≡◌, ◌≢◌, ◌<◌, ◌%◌, ℕ, suc, true, false};
ghost use Rattle.step_laws.specs.declared.map.TlbField.{TlbField};
ghost use Rattle.step_laws.specs.declared.map.TlbField.TheVariants.{Page};
ghost use Rattle.step_laws.specs.Discipline.{IsInUse};
ghost use Rattle.step_laws.specs.Map.{Tlb};
ghost use Rattle.step_laws.specs.Tables.{held_lock, is_clear_due, is_compare, size_of, table_word};
ghost use Rattle.step_laws.specs.Words.{all_slots};
ghost use Rattle.guest_ram.specs.Areas.{IsOfTable};
ghost use Rattle.guest_ram.specs.Ports.{layout_of, IsActing, GoesBy};
ghost use Rattle.tlb_entry.specs.Books.{GoesWith};
ghost use Rattle.tlb_entry.specs.Filled.{entry_word};
ghost use Rattle.tlb_entry.specs.Kept.{counted, is_free, used_of};
ghost use Rattle.tlb_table.specs.Lookups.{IsAlike};
ghost use Rattle.tlb_table.specs.Changes.{HasCleared, HasFilled, HasLooked, HasPut, IsKnownIn, OwesNoMore};

use guest_ram::{Look, Port};
use step_laws::{TlbField, tlb_word};
use tlb_entry::{Book, Entry};

/// Whether the compare words of a slot are invalid.
fn is_free<L: Look>(look: &mut L, hart: u8, slot: u16) -> bool
    requires acting { IsActing (L.shows look.old) }
    requires own { hart ≡ (L.shows look.old).own.actor }
    requires hart { hart < (layout_of (L.shows look.old)).harts }
    requires slot { slot < all_slots }
    ensures looked { HasLooked slot (L.shows look.old) (L.shows look.new) }
    ensures free { result ≡ is_free (L.shows look.old).own.actor slot (L.shows look.old).own.steps }
    ensures alike { IsAlike (L.shows look.old) (L.shows look.new) }
    ensures acting { IsActing (L.shows look.new) }
    ensures goes { GoesBy 3 IsOfTable (L.shows look.old) (L.shows look.new) }
{
    let read = look.look(tlb_word(hart, slot, TlbField::Read));
    let write = look.look(tlb_word(hart, slot, TlbField::Write));
    let code = look.look(tlb_word(hart, slot, TlbField::Code));
    read % 2 == 1 && write % 2 == 1 && code % 2 == 1
}

/// Stores the words of an entry in a slot, which is invalid for stores while its page changes.
fn fill<P: Port>(port: &mut P, hart: u8, slot: u16, entry: &Entry)
    requires acting { IsActing (P.shows port.old) }
    requires own { hart ≡ (P.shows port.old).own.actor }
    requires hart { hart < (layout_of (P.shows port.old)).harts }
    requires held { held_lock (P.shows port.old).own.steps ≡ suc (P.shows port.old).own.actor }
    requires slot { slot < 1024 }
    requires used { IsInUse (P.shows port.old).own.actor slot (P.shows port.old).own.steps }
    requires marked { entry.now.write % 4 ≡ 0 → IsKnownIn entry.now.page (P.shows port.old) }
    ensures filled { HasFilled slot entry.now (P.shows port.old) (P.shows port.new) }
    ensures words { (field : TlbField) → table_word (Tlb (P.shows port.new).own.actor slot field) (P.shows port.new).own.steps ≡ entry_word entry.now field }
    ensures others { (other : ℕ) (field : TlbField) → other ≢ slot → table_word (Tlb (P.shows port.new).own.actor other field) (P.shows port.new).own.steps ≡ table_word (Tlb (P.shows port.old).own.actor other field) (P.shows port.old).own.steps }
    ensures used { used_of (P.shows port.new).own.actor (P.shows port.new).own.steps ≡ counted (is_free (P.shows port.old).own.actor slot (P.shows port.old).own.steps) (size_of (P.shows port.old).own.actor (P.shows port.old).own.steps) (used_of (P.shows port.old).own.actor (P.shows port.old).own.steps) }
    ensures size { size_of (P.shows port.new).own.actor (P.shows port.new).own.steps ≡ size_of (P.shows port.old).own.actor (P.shows port.old).own.steps }
    ensures held { held_lock (P.shows port.new).own.steps ≡ suc (P.shows port.new).own.actor }
    ensures owes { OwesNoMore (P.shows port.old) (P.shows port.new) }
    ensures acting { IsActing (P.shows port.new) }
    ensures goes { GoesBy 5 IsOfTable (P.shows port.old) (P.shows port.new) }
{
    let write = tlb_word(hart, slot, TlbField::Write);
    port.store(write, 1);
    port.store(tlb_word(hart, slot, TlbField::Page), entry.page);
    port.store(tlb_word(hart, slot, TlbField::Read), entry.read);
    port.store(tlb_word(hart, slot, TlbField::Code), entry.code);
    port.store(write, entry.write);
}

/// Puts an entry into a main slot in place of what it held. Where its WRITE word is valid and says that its page is dirty, the page was
/// marked in this section of the lock, or was found to be dirty there.
pub fn put<P: Port>(port: &mut P, book: &mut Book, slot: u16, entry: &Entry)
    requires acting { IsActing (P.shows port.old) }
    requires hart { (P.shows port.old).own.actor < (layout_of (P.shows port.old)).harts }
    requires book { GoesWith book.old (P.shows port.old).own.actor (P.shows port.old).own.steps }
    requires held { held_lock (P.shows port.old).own.steps ≡ suc (P.shows port.old).own.actor }
    requires slot { slot < book.old.size }
    requires marked { entry.now.write % 4 ≡ 0 → IsKnownIn entry.now.page (P.shows port.old) }
    ensures put { HasPut slot entry.now (P.shows port.old) (P.shows port.new) }
    ensures words { (field : TlbField) → table_word (Tlb (P.shows port.new).own.actor slot field) (P.shows port.new).own.steps ≡ entry_word entry.now field }
    ensures others { (other : ℕ) (field : TlbField) → other ≢ slot → table_word (Tlb (P.shows port.new).own.actor other field) (P.shows port.new).own.steps ≡ table_word (Tlb (P.shows port.old).own.actor other field) (P.shows port.old).own.steps }
    ensures counts { book.new ≡ record book.old { used = counted (is_free (P.shows port.old).own.actor slot (P.shows port.old).own.steps) book.old.size book.old.used } }
    ensures book { GoesWith book.new (P.shows port.new).own.actor (P.shows port.new).own.steps }
    ensures held { held_lock (P.shows port.new).own.steps ≡ suc (P.shows port.new).own.actor }
    ensures owes { OwesNoMore (P.shows port.old) (P.shows port.new) }
    ensures acting { IsActing (P.shows port.new) }
    ensures goes { GoesBy 8 IsOfTable (P.shows port.old) (P.shows port.new) }
{
    let free = is_free(port, book.hart, slot);
    fill(port, book.hart, slot, entry);
    book.used = count(free, book.size, book.used);
}

fn count(free: bool, size: u16, used: u16) -> u16
    ensures { result ≡ counted free size used }
{
    if free && used < size { used + 1 } else { used }
}

/// Makes the compare words of a slot invalid.
pub fn clear<P: Port>(port: &mut P, book: &Book, slot: u16)
    requires acting { IsActing (P.shows port.old) }
    requires hart { (P.shows port.old).own.actor < (layout_of (P.shows port.old)).harts }
    requires book { GoesWith book.now (P.shows port.old).own.actor (P.shows port.old).own.steps }
    requires held { held_lock (P.shows port.old).own.steps ≡ suc (P.shows port.old).own.actor }
    requires slot { slot < all_slots }
    ensures cleared { HasCleared slot (P.shows port.old) (P.shows port.new) }
    ensures invalid { (field : TlbField) → is_compare field ≡ true → table_word (Tlb (P.shows port.new).own.actor slot field) (P.shows port.new).own.steps ≡ 1 }
    ensures page { table_word (Tlb (P.shows port.new).own.actor slot Page) (P.shows port.new).own.steps ≡ table_word (Tlb (P.shows port.old).own.actor slot Page) (P.shows port.old).own.steps }
    ensures others { (other : ℕ) (field : TlbField) → other ≢ slot → table_word (Tlb (P.shows port.new).own.actor other field) (P.shows port.new).own.steps ≡ table_word (Tlb (P.shows port.old).own.actor other field) (P.shows port.old).own.steps }
    ensures book { GoesWith book.now (P.shows port.new).own.actor (P.shows port.new).own.steps }
    ensures held { held_lock (P.shows port.new).own.steps ≡ suc (P.shows port.new).own.actor }
    ensures owes { OwesNoMore (P.shows port.old) (P.shows port.new) }
    ensures pays { (field : TlbField) → is_compare field ≡ true → is_clear_due (P.shows port.new).own.actor slot field (P.shows port.new).own.steps ≡ false }
    ensures acting { IsActing (P.shows port.new) }
    ensures goes { GoesBy 3 IsOfTable (P.shows port.old) (P.shows port.new) }
{
    port.store(tlb_word(book.hart, slot, TlbField::Read), 1);
    port.store(tlb_word(book.hart, slot, TlbField::Write), 1);
    port.store(tlb_word(book.hart, slot, TlbField::Code), 1);
}
