// One word says who holds it.
ghost use Rattle.std.specs.Prelude.{◌≡◌, ◌<◌, ℕ, OnOk, IfErr};
ghost use Rattle.step_laws.specs.declared.map.TlbField.{TlbField};
ghost use Rattle.step_laws.specs.Map.{Tlb};
ghost use Rattle.step_laws.specs.Tables.{held_lock, is_clear_due, size_of, table_word};
ghost use Rattle.guest_ram.specs.Areas.{IsOfTable};
ghost use Rattle.guest_ram.specs.Ports.{layout_of, IsActing, GoesBy};
ghost use Rattle.tlb_lock.specs.Locking.{HasFoundHolder, HasFreed, HasTaken, IsHolder, MayFree, MayTake};

use guest_ram::Port;
use step_laws::lock_word;

/// Another actor holds the lock: its number and 1.
#[derive(Clone, Copy, Debug, PartialEq, Eq)]
pub struct Busy {
    pub holder: u64,
}

/// Takes the lock of a hart's TLB where it is free.
#[tactic(auto, using(crate::proofs::Locked::hart_few))]
pub fn try_lock<P: Port>(port: &mut P, hart: u8) -> Result<(), Busy>
    requires acting { IsActing (P.shows port.old) }
    requires hart { hart < (layout_of (P.shows port.old)).harts }
    requires free { held_lock (P.shows port.old).own.steps ≡ 0 }
    requires may { MayTake hart (P.shows port.old) }
    ensures taken { OnOk result (HasTaken hart (P.shows port.old) (P.shows port.new)) }
    ensures busy { IfErr result (λ busy. HasFoundHolder hart busy.holder (P.shows port.old) (P.shows port.new)) }
    ensures held { OnOk result (IsHolder hart (P.shows port.new)) }
    ensures not_held { IfErr result (λ busy. held_lock (P.shows port.new).own.steps ≡ 0) }
    ensures table { (slot : ℕ) (field : TlbField) → table_word (Tlb (P.shows port.new).own.actor slot field) (P.shows port.new).own.steps ≡ table_word (Tlb (P.shows port.old).own.actor slot field) (P.shows port.old).own.steps }
    ensures due { (slot : ℕ) (field : TlbField) → is_clear_due (P.shows port.new).own.actor slot field (P.shows port.new).own.steps ≡ is_clear_due (P.shows port.old).own.actor slot field (P.shows port.old).own.steps }
    ensures size { size_of (P.shows port.new).own.actor (P.shows port.new).own.steps ≡ size_of (P.shows port.old).own.actor (P.shows port.old).own.steps }
    ensures acting { IsActing (P.shows port.new) }
    ensures goes { GoesBy 1 IsOfTable (P.shows port.old) (P.shows port.new) }
{
    let mine = u64::from(port.actor()) + 1;
    let found = port.compare_exchange(lock_word(hart), 0, mine);
    if found != 0 {
        return Err(Busy { holder: found });
    }
    Ok(())
}

/// Frees the lock that the actor holds.
#[tactic(auto, using(crate::proofs::Locked::hart_few))]
pub fn unlock<P: Port>(port: &mut P, hart: u8)
    requires acting { IsActing (P.shows port.old) }
    requires hart { hart < (layout_of (P.shows port.old)).harts }
    requires held { IsHolder hart (P.shows port.old) }
    requires may { MayFree hart (P.shows port.old) }
    ensures freed { HasFreed hart (P.shows port.old) (P.shows port.new) }
    ensures free { held_lock (P.shows port.new).own.steps ≡ 0 }
    ensures table { (slot : ℕ) (field : TlbField) → table_word (Tlb (P.shows port.new).own.actor slot field) (P.shows port.new).own.steps ≡ table_word (Tlb (P.shows port.old).own.actor slot field) (P.shows port.old).own.steps }
    ensures due { (slot : ℕ) (field : TlbField) → is_clear_due (P.shows port.new).own.actor slot field (P.shows port.new).own.steps ≡ is_clear_due (P.shows port.old).own.actor slot field (P.shows port.old).own.steps }
    ensures size { size_of (P.shows port.new).own.actor (P.shows port.new).own.steps ≡ size_of (P.shows port.old).own.actor (P.shows port.old).own.steps }
    ensures acting { IsActing (P.shows port.new) }
    ensures goes { GoesBy 1 IsOfTable (P.shows port.old) (P.shows port.new) }
{
    port.store(lock_word(hart), 0);
}
