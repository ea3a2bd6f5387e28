// The size of the own table, in a section of its lock.
ghost use Rattle.std.specs.Prelude.{◌≡◌, ◌<◌};
ghost use Rattle.step_laws.specs.Tables.{size_of};
ghost use Rattle.step_laws.specs.Words.{all_slots};
ghost use Rattle.guest_ram.specs.Areas.{IsOfTable};
ghost use Rattle.guest_ram.specs.Ports.{GoesBy};
ghost use Rattle.guest_ram_cases.specs.Entries.{HasEmptied, IsOwning, IsPaid, IsPaidFor, KeepsPaid};

use guest_ram::Port;
use step_laws::{TlbField, size_word, tlb_word};

/// Makes a slot invalid.
fn empty<P: Port>(port: &mut P, own: u8, slot: u16)
    requires owning { IsOwning (P.shows port.old) own }
    requires slot { slot < all_slots }
    ensures emptied { HasEmptied (P.shows port.old) slot (P.shows port.new) }
    ensures owning { IsOwning (P.shows port.new) own }
    ensures paid { IsPaidFor slot (P.shows port.new) }
    ensures others { KeepsPaid (P.shows port.old) (P.shows port.new) }
    ensures size { size_of (P.shows port.new).own.actor (P.shows port.new).own.steps ≡ size_of (P.shows port.old).own.actor (P.shows port.old).own.steps }
    ensures goes { GoesBy 3 IsOfTable (P.shows port.old) (P.shows port.new) }
{
    port.store(tlb_word(own, slot, TlbField::Read), 1);
    port.store(tlb_word(own, slot, TlbField::Write), 1);
    port.store(tlb_word(own, slot, TlbField::Code), 1);
}

/// Raises the size from 64 to 128, and makes all slots below it and the victims invalid.
pub fn double_size<P: Port>(port: &mut P, own: u8)
    requires owning { IsOwning (P.shows port.old) own }
    requires paid { IsPaid (P.shows port.old) }
    requires size { size_of (P.shows port.old).own.actor (P.shows port.old).own.steps ≡ 64 }
    ensures size { size_of (P.shows port.new).own.actor (P.shows port.new).own.steps ≡ 128 }
    ensures owning { IsOwning (P.shows port.new) own }
    ensures paid { IsPaid (P.shows port.new) }
    ensures goes { GoesBy 409 IsOfTable (P.shows port.old) (P.shows port.new) }
{
    port.store(size_word(own), 128);
    for slot in 0..128 {
        empty(port, own, slot);
    }
    for victim in 1024..1032 {
        empty(port, own, victim);
    }
}
