// The words with which harts begin: how many run, their states and their TLBs.
ghost use Rattle.std.specs.Prelude.{◌≡◌, ◌<◌, ◌≤◌, ◌+◌, true};
ghost use Rattle.step_laws.specs.Loader.{IsBooted};
ghost use Rattle.step_laws.specs.Tables.{is_first_slot};
ghost use Rattle.step_laws.specs.Words.{all_slots};
ghost use Rattle.guest_ram.specs.Ports.{layout_of, IsBooting, GoesBy};
ghost use Rattle.guest_boot.specs.Stored.{AreStored, IsOfBoot, IsOfHart, IsSlot};

use guest_ram::Port;
use step_laws::{TlbField, hsm_word, live_word, size_word, tlb_word};

/// Makes a slot of a hart's TLB invalid.
#[tactic(auto, using(guest_ram::proofs::MaySteps::boot_kinds))]
fn clear_slot<P: Port>(port: &mut P, hart: u8, slot: u16)
    requires booting { IsBooting (P.shows port.old) }
    requires hart { hart < (layout_of (P.shows port.old)).harts }
    requires first { is_first_slot slot ≡ true }
    requires small { slot < all_slots }
    ensures booting { IsBooting (P.shows port.new) }
    ensures stored { AreStored (IsSlot hart slot (slot + 1)) (P.shows port.new).own.steps }
    ensures goes { GoesBy 3 IsOfBoot (P.shows port.old) (P.shows port.new) }
{
    port.store(tlb_word(hart, slot, TlbField::Read), 1);
    port.store(tlb_word(hart, slot, TlbField::Write), 1);
    port.store(tlb_word(hart, slot, TlbField::Code), 1);
}

/// Gives a hart an empty TLB of 64 slots, and no victims.
#[tactic(auto, using(guest_ram::proofs::MaySteps::boot_kinds))]
fn boot_table<P: Port>(port: &mut P, hart: u8)
    requires booting { IsBooting (P.shows port.old) }
    requires hart { hart < (layout_of (P.shows port.old)).harts }
    ensures booting { IsBooting (P.shows port.new) }
    ensures stored { AreStored (IsOfHart hart) (P.shows port.new).own.steps }
    ensures goes { GoesBy 217 IsOfBoot (P.shows port.old) (P.shows port.new) }
{
    port.store(size_word(hart), 64);
    for slot in 0..64 {
        clear_slot(port, hart, slot);
    }
    for victim in 1024..1032 {
        clear_slot(port, hart, victim);
    }
}

/// Stores all that harts and the monitor need to begin, but for RAM: hart 0 runs, the others are stopped, and every TLB is empty.
#[tactic(auto, using(guest_ram::proofs::MaySteps::boot_kinds))]
pub(crate) fn boot_words<P: Port>(port: &mut P)
    requires booting { IsBooting (P.shows port.old) }
    ensures booting { IsBooting (P.shows port.new) }
    ensures booted { IsBooted (layout_of (P.shows port.new)) (P.shows port.new).own.steps }
    ensures goes { GoesBy 1745 IsOfBoot (P.shows port.old) (P.shows port.new) }
{
    let harts = port.layout().harts;
    port.store(live_word(), 1);
    for stopped in 1..harts {
        port.store(hsm_word(stopped), 1);
    }
    for hart in 0..harts {
        boot_table(port, hart);
    }
}
