// What a flush does between taking the lock and freeing it.
ghost use Rattle.std.specs.Prelude.{◌≡◌, ◌<◌, ◌≤◌, ◌+◌, ◌*◌, ◌^◌, ℕ, true, false, ◌⊎◌};
ghost use Rattle.step_laws.specs.Tables.{is_clear_due, is_compare, is_swept, size_of, table_word};
ghost use Rattle.step_laws.specs.declared.map.TlbField.{TlbField};
ghost use Rattle.step_laws.specs.Map.{Tlb};
ghost use Rattle.guest_ram.specs.Areas.{IsOfTable};
ghost use Rattle.guest_ram.specs.Ports.{GoesBy};
ghost use Rattle.flush.specs.Flushed.{IsLeft, IsWithin};
ghost use Rattle.flush.specs.Sweeping.{HasCleared, HasSwept, IsInside, OnField, OnPage};

use guest_ram::{Look, Port};
use step_laws::{TlbField, size_word, tlb_word};
use tlb_entry::Book;
use tlb_table::clear;

/// How many main slots a table has behind a full flush.
const FIRST_SIZE: u16 = 64;

/// Stores SIZE, and makes the book a new one. The words are to be cleared behind it.
fn begin_anew<P: Port>(port: &mut P, book: &mut Book)
    requires inside { IsInside book.old (P.shows port.old) }
    ensures book { book.new ≡ record { hart = book.old.hart; size = 64; used = 0; large = false } }
    ensures inside { IsInside book.new (P.shows port.new) }
    ensures left { (slot : ℕ) (field : TlbField) → IsLeft (P.shows port.old) (P.shows port.new) slot field }
    ensures owes { (slot : ℕ) (field : TlbField) → is_compare field ≡ true → is_swept book.old.size 64 slot ≡ false → is_clear_due (P.shows port.old).own.actor slot field (P.shows port.old).own.steps ≡ false → is_clear_due (P.shows port.new).own.actor slot field (P.shows port.new).own.steps ≡ false }
    ensures goes { GoesBy 1 IsOfTable (P.shows port.old) (P.shows port.new) }
{
    port.store(size_word(book.hart), 64);
    book.size = FIRST_SIZE;
    book.used = 0;
    book.large = false;
}

/// Clears the main slots below a number, and the victims.
fn clear_slots<P: Port>(port: &mut P, book: &Book, size: u16)
    requires inside { IsInside book.now (P.shows port.old) }
    requires size { size ≤ 1024 }
    ensures cleared { HasCleared (λ slot. (slot < size) ⊎ ((1024 ≤ slot) × (slot < 1032))) (P.shows port.old) (P.shows port.new) }
    ensures inside { IsInside book.now (P.shows port.new) }
    ensures goes { GoesBy (3 * size + 24) IsOfTable (P.shows port.old) (P.shows port.new) }
{
    for slot in 0..size {
        clear(port, book, slot);
    }
    for victim in 1024..1032 {
        clear(port, book, victim);
    }
}

/// Makes a compare word of a page's main slot invalid where it is valid for that page, in either mode.
fn sweep_field<P: Port>(port: &mut P, book: &Book, page: u64, field: TlbField)
    requires inside { IsInside book.now (P.shows port.old) }
    requires compare { is_compare field ≡ true }
    ensures swept { HasSwept (OnField page field) (P.shows port.old) (P.shows port.new) }
    ensures inside { IsInside book.now (P.shows port.new) }
    ensures goes { GoesBy 2 IsOfTable (P.shows port.old) (P.shows port.new) }
{
    let slot = (page % u64::from(book.size)) as u16;
    let word = tlb_word(book.hart, slot, field);
    let compare = port.look(word);
    if compare % 2 == 0 && compare / 4096 == page {
        port.store(word, 1);
    }
}

/// Makes the entries of a page invalid.
fn sweep_page<P: Port>(port: &mut P, book: &Book, page: u64)
    requires inside { IsInside book.now (P.shows port.old) }
    ensures swept { HasSwept (OnPage page) (P.shows port.old) (P.shows port.new) }
    ensures inside { IsInside book.now (P.shows port.new) }
    ensures goes { GoesBy 6 IsOfTable (P.shows port.old) (P.shows port.new) }
{
    sweep_field(port, book, page, TlbField::Read);
    sweep_field(port, book, page, TlbField::Write);
    sweep_field(port, book, page, TlbField::Code);
}

/// Makes the entries of pages invalid.
pub fn sweep<P: Port>(port: &mut P, book: &Book, first: u64, count: u16)
    requires inside { IsInside book.now (P.shows port.old) }
    requires page { first < 2 ^ 52 }
    ensures swept { HasSwept (λ n _. IsWithin first count n) (P.shows port.old) (P.shows port.new) }
    ensures inside { IsInside book.now (P.shows port.new) }
    ensures goes { GoesBy (6 * count) IsOfTable (P.shows port.old) (P.shows port.new) }
{
    for i in 0..count {
        sweep_page(port, book, first + u64::from(i));
    }
}

/// Makes the whole table invalid, and the book a new one.
pub fn empty<P: Port>(port: &mut P, book: &mut Book)
    requires inside { IsInside book.old (P.shows port.old) }
    ensures book { book.new ≡ record { hart = book.old.hart; size = 64; used = 0; large = false } }
    ensures inside { IsInside book.new (P.shows port.new) }
    ensures invalid { (slot : ℕ) (field : TlbField) → is_compare field ≡ true → is_swept book.old.size 64 slot ≡ true → table_word (Tlb (P.shows port.new).own.actor slot field) (P.shows port.new).own.steps ≡ 1 }
    ensures left { (slot : ℕ) (field : TlbField) → (is_compare field ≡ false) ⊎ (is_swept book.old.size 64 slot ≡ false) → IsLeft (P.shows port.old) (P.shows port.new) slot field }
    ensures owes { (slot : ℕ) (field : TlbField) → is_compare field ≡ true → is_clear_due (P.shows port.old).own.actor slot field (P.shows port.old).own.steps ≡ false → is_clear_due (P.shows port.new).own.actor slot field (P.shows port.new).own.steps ≡ false }
    ensures goes { GoesBy (3 * book.old.size + 25) IsOfTable (P.shows port.old) (P.shows port.new) }
{
    let size = book.size;
    begin_anew(port, book);
    clear_slots(port, book, size);
}
