// What the loader stores before harts make steps, but for RAM.
ghost use Rattle.std.specs.Prelude.{◌≡◌, ◌<◌, ◌+◌, ◌*◌, true};
ghost use Rattle.step_laws.specs.Loader.{IsBooted};
ghost use Rattle.step_laws.specs.Words.{all_slots};
ghost use Rattle.step_laws.specs.Tables.{is_first_slot};
ghost use Rattle.guest_ram.specs.Ports.{layout_of, IsBooting, GoesBy};
ghost use Rattle.guest_ram.specs.Areas.{AnyWord, IsOfRam};
ghost use Rattle.guest_ram_cases.specs.Booted.{IsClear, IsHartBooted};
ghost use Rattle.guest_ram_cases.specs.Made.{ram_stored};

use guest_ram::Port;
use step_laws::{TlbField, hsm_word, live_word, ram_word_at, size_word, tlb_word};

/// Makes a slot of a hart's TLB invalid.
#[tactic(auto, using(guest_ram::proofs::MaySteps::boot_kinds))]
fn clear_slot<P: Port>(port: &mut P, hart: u8, slot: u16)
    requires booting { IsBooting (P.shows port.old) }
    requires hart { hart < (layout_of (P.shows port.old)).harts }
    requires slot { is_first_slot slot ≡ true }
    requires small { slot < all_slots }
    ensures booting { IsBooting (P.shows port.new) }
    ensures clear { IsClear hart slot (P.shows port.new).own.steps }
    ensures goes { GoesBy 3 AnyWord (P.shows port.old) (P.shows port.new) }
{
    port.store(tlb_word(hart, slot, TlbField::Read), 1);
    port.store(tlb_word(hart, slot, TlbField::Write), 1);
    port.store(tlb_word(hart, slot, TlbField::Code), 1);
}

/// Gives a hart an empty TLB of 64 slots.
#[tactic(auto, using(guest_ram::proofs::MaySteps::boot_kinds))]
fn boot_table<P: Port>(port: &mut P, hart: u8)
    requires booting { IsBooting (P.shows port.old) }
    requires hart { hart < (layout_of (P.shows port.old)).harts }
    ensures booting { IsBooting (P.shows port.new) }
    ensures booted { IsHartBooted hart (P.shows port.new).own.steps }
    ensures goes { GoesBy 217 AnyWord (P.shows port.old) (P.shows port.new) }
{
    port.store(size_word(hart), 64);
    for slot in 0..64 {
        clear_slot(port, hart, slot);
    }
    for victim in 1024..1032 {
        clear_slot(port, hart, victim);
    }
}

/// Stores a word of RAM, as the loader does with an image.
#[tactic(auto, using(guest_ram::proofs::MaySteps::boot_kinds))]
pub fn boot_ram<P: Port>(port: &mut P, index: u32, value: u64)
    requires booting { IsBooting (P.shows port.old) }
    requires index { index < 512 * (layout_of (P.shows port.old)).pages }
    ensures booting { IsBooting (P.shows port.new) }
    ensures step { (P.shows port.new) ≡ ram_stored (P.shows port.old) index value }
    ensures goes { GoesBy 1 IsOfRam (P.shows port.old) (P.shows port.new) }
{
    let word = ram_word_at(index);
    port.store(word, value);
}

/// Stores all that harts and the monitor need to begin, but for RAM.
#[tactic(auto, using(guest_ram::proofs::MaySteps::boot_kinds))]
pub fn boot_words<P: Port>(port: &mut P)
    requires booting { IsBooting (P.shows port.old) }
    ensures booting { IsBooting (P.shows port.new) }
    ensures booted { IsBooted (layout_of (P.shows port.new)) (P.shows port.new).own.steps }
    ensures goes { GoesBy 1745 AnyWord (P.shows port.old) (P.shows port.new) }
{
    let harts = port.layout().harts;
    port.store(live_word(), 1);
    for stopped in 1..harts {
        port.store(hsm_word(stopped), 1);
    }
    for hart in 0..harts {
        boot_table(port, hart);
    }
}
