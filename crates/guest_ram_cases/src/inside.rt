// What an actor does while it is inside.
ghost use Rattle.std.specs.Prelude.{◌≡◌, ◌≤◌, ◌<◌, ◌+◌, ◌*◌, ℕ, OnOk, IfErr};
ghost use Rattle.step_laws.specs.Sections.{phase, inside};
ghost use Rattle.step_laws.specs.Words.{console_places};
ghost use Rattle.guest_ram.specs.Areas.{IsOfCalls, IsOfOutput, IsOfRam};
ghost use Rattle.guest_ram.specs.Ports.{layout_of, IsActing, GoesBy};
ghost use Rattle.guest_ram_cases.specs.Made.{HasAdded, HasFound, HasPut, IsArmedFor, console_read, interrupted};

use guest_ram::Port;
use step_laws::{CONSOLE_PLACES, cons_word, console_word, ipi_word, ram_word_at};

/// Puts a byte on the console. An `Err` has the place that was drawn where there was none left.
#[tactic(auto, using(guest_ram::proofs::MaySteps::touch_kinds, guest_ram::proofs::Moves::actor_few))]
pub fn put_byte<P: Port>(port: &mut P, byte: u8) -> Result<(), u64>
    requires acting { IsActing (P.shows port.old) }
    requires inside { phase (P.shows port.old).own.steps ≡ inside }
    ensures put { OnOk result (HasPut (P.shows port.old) (P.shows port.new) byte) }
    ensures full { IfErr result (λ place. HasFound (P.shows port.old) (P.shows port.new) place) }
    ensures inside { phase (P.shows port.new).own.steps ≡ inside }
    ensures acting { IsActing (P.shows port.new) }
    ensures goes { GoesBy 2 IsOfOutput (P.shows port.old) (P.shows port.new) }
{
    let place = port.fetch_add(cons_word(), 1);
    if place >= u64::from(CONSOLE_PLACES) {
        return Err(place);
    }
    port.store(console_word(place as u32), u64::from(byte) + 256);
    Ok(())
}

/// Adds to each of a row of words of RAM, on pages that are marked.
#[tactic(auto, using(guest_ram::proofs::MaySteps::touch_kinds, guest_ram::proofs::Moves::actor_few))]
pub fn add_to_row<P: Port>(port: &mut P, from: u32, count: u32, value: u64)
    requires acting { IsActing (P.shows port.old) }
    requires hart { (P.shows port.old).own.actor < (layout_of (P.shows port.old)).harts }
    requires inside { phase (P.shows port.old).own.steps ≡ inside }
    requires row { from + count ≤ 512 * (layout_of (P.shows port.old)).pages }
    requires armed { IsArmedFor from count (P.shows port.old) }
    ensures inside { phase (P.shows port.new).own.steps ≡ inside }
    ensures acting { IsActing (P.shows port.new) }
    ensures added { HasAdded (P.shows port.old) (P.shows port.new) from count value }
    ensures goes { GoesBy count IsOfRam (P.shows port.old) (P.shows port.new) }
{
    for i in 0..count {
        port.fetch_add(ram_word_at(from + i), value);
    }
}

/// How many places of the console were drawn, and what stands in a place: the byte and 256, or 0.
#[tactic(auto, using(guest_ram::proofs::MaySteps::touch_kinds))]
pub fn read_console<P: Port>(port: &mut P, place: u32) -> (u64, u64)
    requires acting { IsActing (P.shows port.old) }
    requires inside { phase (P.shows port.old).own.steps ≡ inside }
    requires place { place < console_places }
    ensures steps { (P.shows port.new) ≡ console_read (P.shows port.old) place result.0 result.1 }
    ensures inside { phase (P.shows port.new).own.steps ≡ inside }
    ensures acting { IsActing (P.shows port.new) }
    ensures goes { GoesBy 2 IsOfOutput (P.shows port.old) (P.shows port.new) }
{
    let count = port.load(cons_word());
    let found = port.load(console_word(place));
    (count, found)
}

/// Asks for an interrupt of a hart. Answers the harts' bits as they were.
#[tactic(auto, using(guest_ram::proofs::MaySteps::touch_kinds, crate::proofs::Turns::hart_bit))]
pub fn interrupt<P: Port>(port: &mut P, hart: u8) -> u64
    requires acting { IsActing (P.shows port.old) }
    requires inside { phase (P.shows port.old).own.steps ≡ inside }
    requires hart { hart < (layout_of (P.shows port.old)).harts }
    ensures step { (P.shows port.new) ≡ interrupted (P.shows port.old) hart result }
    ensures inside { phase (P.shows port.new).own.steps ≡ inside }
    ensures acting { IsActing (P.shows port.new) }
    ensures goes { GoesBy 1 IsOfCalls (P.shows port.old) (P.shows port.new) }
{
    port.fetch_or(ipi_word(), 1u64 << hart)
}
