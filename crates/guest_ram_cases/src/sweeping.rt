// A snapshot's first parts, by the monitor: it takes the dirty words, and then passes over the harts' tables, where each WRITE word gets
// the bit that its page isn't dirty.
ghost use Rattle.std.specs.Prelude.{◌≡◌, ◌≢◌, ◌<◌, ◌+◌, OnOk, IfErr};
ghost use Rattle.step_laws.specs.Marks.{passing, swapping};
ghost use Rattle.guest_ram.specs.Areas.{IsOfRam, IsOfTable};
ghost use Rattle.guest_ram.specs.Ports.{layout_of, GoesBy};
ghost use Rattle.guest_ram_cases.specs.Entries.{HasFoundLock};
ghost use Rattle.guest_ram_cases.specs.Sweeps.{IsAtStage, after_pass};

use guest_ram::{Port, Seen};
use step_laws::{TlbField, dirty_word, lock_word, size_word, tlb_word};

/// Takes all dirty words, and with them the pages that are marked. Then the passes begin.
pub fn take_words<P: Port>(port: &mut P)
    requires stage { IsAtStage (P.shows port.old) (swapping 0) }
    ensures stage { IsAtStage (P.shows port.new) (passing 0) }
    ensures goes { GoesBy 64 IsOfRam (P.shows port.old) (P.shows port.new) }
{
    let words = (port.layout().pages + 63) / 64;
    for index in 0..words {
        port.swap(dirty_word(index as u8), 0);
    }
}

/// Takes the hart's lock, sets the bit in all slots, and frees the lock. Answers who holds it, where that is another.
#[tactic(auto, using(crate::proofs::Swept::may_sweep_lock, crate::proofs::Swept::may_sweep_size, crate::proofs::Swept::may_sweep_slot))]
pub fn sweep<P: Port>(port: &mut P, hart: u8) -> Result<(), Seen>
    requires stage { IsAtStage (P.shows port.old) (passing hart) }
    requires hart { hart < (layout_of (P.shows port.old)).harts }
    ensures stage { OnOk result (IsAtStage (P.shows port.new) (after_pass (P.shows port.old) hart)) }
    ensures refused { IfErr result (λ seen. HasFoundLock (P.shows port.old) hart seen.value (P.shows port.new)) }
    ensures goes { GoesBy 1035 IsOfTable (P.shows port.old) (P.shows port.new) }
{
    let word = lock_word(hart);
    let own = u64::from(port.actor()) + 1;
    let found = port.compare_exchange(word, 0, own);
    if found != 0 {
        return Err(Seen { word, value: found });
    }
    let size = port.load(size_word(hart)) as u16;
    for slot in 0..size {
        port.fetch_or(tlb_word(hart, slot, TlbField::Write), 2);
    }
    for victim in 1024..1032 {
        port.fetch_or(tlb_word(hart, victim, TlbField::Write), 2);
    }
    port.store(word, 0);
    Ok(())
}
