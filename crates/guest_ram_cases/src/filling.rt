// The hart's own table, in a section of its lock.
ghost use Rattle.std.specs.Prelude.{◌≡◌, ◌≢◌, ◌<◌, ◌%◌, true};
ghost use Rattle.step_laws.specs.Discipline.{IsInUse};
ghost use Rattle.step_laws.specs.Tables.{size_of, table_word};
ghost use Rattle.step_laws.specs.declared.map.TlbField.TheVariants.{Page};
ghost use Rattle.step_laws.specs.Map.{Tlb};
ghost use Rattle.step_laws.specs.Words.{all_slots};
ghost use Rattle.guest_ram.specs.Areas.{IsOfTable};
ghost use Rattle.guest_ram.specs.Ports.{layout_of, IsActing, GoesBy};
ghost use Rattle.guest_ram_cases.specs.Entries.{HasFilled, IsHolding, IsPaid};

use guest_ram::Port;
use step_laws::{TlbField, tlb_word};

/// What a slot holds: a compare word for reads, writes and code, and the page.
#[derive(Clone, Copy, Debug, PartialEq, Eq)]
pub struct Entry {
    pub read: u64,
    pub write: u64,
    pub code: u64,
    pub page: u64,
}

/// Stores an entry that isn't for stores to a page that is dirty already.
pub fn fill<P: Port>(port: &mut P, slot: u16, entry: &Entry)
    requires acting { IsActing (P.shows port.old) }
    requires hart { (P.shows port.old).own.actor < (layout_of (P.shows port.old)).harts }
    requires held { IsHolding (P.shows port.old) }
    requires slot { slot < all_slots }
    requires used { IsInUse (P.shows port.old).own.actor slot (P.shows port.old).own.steps }
    requires marked { entry.now.write % 4 ≢ 0 }
    requires paid { IsPaid (P.shows port.old) }
    ensures filled { HasFilled (P.shows port.old) slot entry.now (P.shows port.new) }
    ensures page { table_word (Tlb (P.shows port.new).own.actor slot Page) (P.shows port.new).own.steps ≡ entry.now.page }
    ensures held { IsHolding (P.shows port.new) }
    ensures paid { IsPaid (P.shows port.new) }
    ensures size { size_of (P.shows port.new).own.actor (P.shows port.new).own.steps ≡ size_of (P.shows port.old).own.actor (P.shows port.old).own.steps }
    ensures acting { IsActing (P.shows port.new) }
    ensures goes { GoesBy 5 IsOfTable (P.shows port.old) (P.shows port.new) }
{
    let own = port.actor();
    let write = tlb_word(own, slot, TlbField::Write);
    port.store(write, 1);
    port.store(tlb_word(own, slot, TlbField::Page), entry.page);
    port.store(tlb_word(own, slot, TlbField::Read), entry.read);
    port.store(tlb_word(own, slot, TlbField::Code), entry.code);
    port.store(write, entry.write);
}
