// The lock of the own table.
ghost use Rattle.std.specs.Prelude.{◌≡◌, ◌<◌, OnOk, IfErr};
ghost use Rattle.step_laws.specs.Tables.{held_lock};
ghost use Rattle.guest_ram.specs.Areas.{IsOfTable};
ghost use Rattle.guest_ram.specs.Ports.{layout_of, IsActing, GoesBy};
ghost use Rattle.guest_ram_cases.specs.Entries.{HasFoundLock, HasLocked, HasUnlocked, IsHolding, IsPaid, KeepsTable};

use guest_ram::{Port, Seen};
use step_laws::lock_word;

/// Takes the lock, or answers who holds it.
#[tactic(auto, using(guest_ram::proofs::MaySteps::lock_kinds, guest_ram::proofs::Moves::acting_adds, guest_ram::proofs::Moves::actor_few, crate::proofs::Filled::lock_taken))]
pub fn lock<P: Port>(port: &mut P) -> Result<(), Seen>
    requires acting { IsActing (P.shows port.old) }
    requires hart { (P.shows port.old).own.actor < (layout_of (P.shows port.old)).harts }
    requires free { held_lock (P.shows port.old).own.steps ≡ 0 }
    ensures step { OnOk result (HasLocked (P.shows port.old) (P.shows port.old).own.actor (P.shows port.new)) }
    ensures held { OnOk result (IsHolding (P.shows port.new)) }
    ensures table { KeepsTable (P.shows port.old) (P.shows port.new) }
    ensures refused { IfErr result (λ seen. HasFoundLock (P.shows port.old) (P.shows port.old).own.actor seen.value (P.shows port.new)) }
    ensures acting { IsActing (P.shows port.new) }
    ensures goes { GoesBy 1 IsOfTable (P.shows port.old) (P.shows port.new) }
{
    let own = port.actor();
    let word = lock_word(own);
    let found = port.compare_exchange(word, 0, u64::from(own) + 1);
    if found != 0 {
        return Err(Seen { word, value: found });
    }
    Ok(())
}

/// Frees it.
#[tactic(auto, using(guest_ram::proofs::MaySteps::lock_kinds, guest_ram::proofs::Moves::lock_adds, guest_ram::proofs::Moves::acting_adds, guest_ram::proofs::Moves::actor_few))]
pub fn unlock<P: Port>(port: &mut P)
    requires acting { IsActing (P.shows port.old) }
    requires held { IsHolding (P.shows port.old) }
    requires paid { IsPaid (P.shows port.old) }
    ensures step { HasUnlocked (P.shows port.old) (P.shows port.old).own.actor (P.shows port.new) }
    ensures free { held_lock (P.shows port.new).own.steps ≡ 0 }
    ensures acting { IsActing (P.shows port.new) }
    ensures goes { GoesBy 1 IsOfTable (P.shows port.old) (P.shows port.new) }
{
    let own = lock_word(port.actor());
    port.store(own, 0);
}
