// A look at the own TLB.
ghost use Rattle.std.specs.Prelude.{◌≡◌, ◌<◌, []};
ghost use Rattle.step_laws.specs.declared.map.TlbField.TheVariants.{Write};
ghost use Rattle.step_laws.specs.Map.{Tlb};
ghost use Rattle.step_laws.specs.TableLaws.{IsLastField};
ghost use Rattle.step_laws.specs.Tables.{table_word};
ghost use Rattle.step_laws.specs.Words.{all_slots};
ghost use Rattle.guest_ram.specs.Areas.{IsOfTable};
ghost use Rattle.guest_ram.specs.Ports.{layout_of, IsActing, GoesBy};
ghost use Rattle.guest_ram_cases.specs.Entries.{size_loaded, slot_loaded};

use guest_ram::Port;
use step_laws::{TlbField, size_word, tlb_word};

/// The number of main slots that a hart begins with.
#[tactic(auto, using(guest_ram::proofs::Moves::actor_few, guest_ram::proofs::Moves::acting_adds))]
pub fn first_size<P: Port>(port: &mut P) -> u64
    requires acting { IsActing (P.shows port.old) }
    requires hart { (P.shows port.old).own.actor < (layout_of (P.shows port.old)).harts }
    requires fresh { (P.shows port.old).own.steps ≡ [] }
    ensures size { result ≡ 64 }
    ensures step { (P.shows port.new) ≡ size_loaded (P.shows port.old) result }
    ensures acting { IsActing (P.shows port.new) }
    ensures goes { GoesBy 1 IsOfTable (P.shows port.old) (P.shows port.new) }
{
    let size = size_word(port.actor());
    port.look(size)
}

/// The WRITE word of a slot of the own table: as it was stored last, but that the monitor may have set bit 1.
#[tactic(auto, using(guest_ram::proofs::Moves::actor_few, guest_ram::proofs::Moves::acting_adds))]
pub fn write_word<P: Port>(port: &mut P, slot: u16) -> u64
    requires acting { IsActing (P.shows port.old) }
    requires hart { (P.shows port.old).own.actor < (layout_of (P.shows port.old)).harts }
    requires slot { slot < all_slots }
    ensures last { IsLastField Write (table_word (Tlb (P.shows port.old).own.actor slot Write) (P.shows port.old).own.steps) result }
    ensures step { (P.shows port.new) ≡ slot_loaded (P.shows port.old) slot Write result }
    ensures acting { IsActing (P.shows port.new) }
    ensures goes { GoesBy 1 IsOfTable (P.shows port.old) (P.shows port.new) }
{
    let write = tlb_word(port.actor(), slot, TlbField::Write);
    port.look(write)
}
