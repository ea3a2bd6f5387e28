// The bits, as harts set them and as the monitor takes and reads them.
ghost use Rattle.std.specs.Prelude.{◌≡◌, ◌<◌, ◌*◌, ℕ, length, true, false};
ghost use Rattle.step_laws.specs.Marks.{dirty_words, is_armed, is_known_dirty, stage, swapping};
ghost use Rattle.step_laws.specs.Tables.{held_lock, is_clear_due, is_compare, table_word};
ghost use Rattle.step_laws.specs.declared.map.TlbField.{TlbField};
ghost use Rattle.step_laws.specs.Map.{Tlb};
ghost use Rattle.step_laws.specs.Words.{monitor};
ghost use Rattle.guest_ram.specs.Areas.{IsOfRam};
ghost use Rattle.guest_ram.specs.Ports.{layout_of, IsActing, GoesBy};
ghost use Rattle.dirty_bitmap.specs.DirtyBits.{HasMarked, HasTaken, is_marked, stage_after_take};

use guest_ram::Port;
use step_laws::dirty_word;

/// How many pages' bits a word has.
const PAGES_A_WORD: u32 = 64;

/// Marks a page of RAM, by its number. From then on the hart may store there until its turn ends or it acks a request, and until it frees
/// its lock it may let an entry of its TLB be used for stores there.
#[tactic(auto, using(crate::proofs::Marked::may_mark_page, crate::proofs::Marked::page_bit, crate::proofs::Marked::page_few))]
pub fn mark<P: Port>(port: &mut P, page: u32)
    requires acting { IsActing (P.shows port.old) }
    requires hart { (P.shows port.old).own.actor < (layout_of (P.shows port.old)).harts }
    requires page { page < (layout_of (P.shows port.old)).pages }
    ensures marked { HasMarked (P.shows port.old) (P.shows port.new) page }
    ensures armed { is_armed (P.shows port.new).own.actor page (P.shows port.new).own.steps ≡ true }
    ensures known { is_known_dirty (P.shows port.new).own.actor page (P.shows port.new).own.steps ≡ true }
    ensures held { held_lock (P.shows port.new).own.steps ≡ held_lock (P.shows port.old).own.steps }
    ensures table { (slot : ℕ) (field : TlbField) → table_word (Tlb (P.shows port.new).own.actor slot field) (P.shows port.new).own.steps ≡ table_word (Tlb (P.shows port.old).own.actor slot field) (P.shows port.old).own.steps }
    ensures due { (slot : ℕ) (field : TlbField) → is_clear_due (P.shows port.new).own.actor slot field (P.shows port.new).own.steps ≡ is_clear_due (P.shows port.old).own.actor slot field (P.shows port.old).own.steps }
    ensures acting { IsActing (P.shows port.new) }
    ensures goes { GoesBy 1 IsOfRam (P.shows port.old) (P.shows port.new) }
{
    port.fetch_or(
        dirty_word((page / PAGES_A_WORD) as u8),
        1u64 << (page % PAGES_A_WORD),
    );
}

/// Takes a word of bits and leaves it 0, in a snapshot of the monitor that has taken the words before it.
pub fn take_word<P: Port>(port: &mut P, index: u32) -> u64
    requires acting { IsActing (P.shows port.old) }
    requires monitor { (P.shows port.old).own.actor ≡ monitor }
    requires index { index < dirty_words (layout_of (P.shows port.old)) }
    requires stage { stage (layout_of (P.shows port.old)) (P.shows port.old).own.steps ≡ swapping index }
    ensures taken { HasTaken (P.shows port.old) (P.shows port.new) index result }
    ensures stage { stage (layout_of (P.shows port.new)) (P.shows port.new).own.steps ≡ stage_after_take (layout_of (P.shows port.old)) index }
    ensures held { held_lock (P.shows port.new).own.steps ≡ held_lock (P.shows port.old).own.steps }
    ensures acting { IsActing (P.shows port.new) }
    ensures goes { GoesBy 1 IsOfRam (P.shows port.old) (P.shows port.new) }
{
    port.swap(dirty_word(index as u8), 0)
}

/// Whether a page is marked in words that were taken, in their order.
pub fn is_marked(words: &[u64], page: u32) -> bool
    requires { page < 64 * length words.now }
    ensures { result ≡ is_marked words.now page }
{
    (words[(page / PAGES_A_WORD) as usize] >> (page % PAGES_A_WORD)) % 2 == 1
}
