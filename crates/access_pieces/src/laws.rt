// Laws of accesses: each function's contract is its law.
ghost use Rattle.access_pieces.specs.Laws.{AmosServe, ConditionalsServe, GiveUpsStand, LoadsServe, ReservesServe, StoresServe, TranslationsLead};

/// A load is served: behind its steps the log has the load's execution, with the answer that the reference machine gives in every state that
/// fits the steps, and the hart's last event is then one that counts an instruction; or the walks that were made, by which the instruction may be
/// given up. No mark waits for its store behind it that didn't before.
pub fn law_loads()
    ensures { LoadsServe }
{}

/// A load-reserved is served so, and a store-conditional, of which the execution that stores stands at its exchange.
pub fn law_reservations()
    ensures reserves { ReservesServe }
    ensures conditionals { ConditionalsServe }
{}

/// So is an atomic operation: its execution stands at the one operation that does it, or at its exchange; where that was lost it may be given up.
pub fn law_operations()
    ensures { AmosServe }
{}

/// So is a store: its execution stands at its one store or exchange, behind the second store of two, at the draw of a byte's place, or at the
/// exchange of STOP.
pub fn law_stores()
    ensures { StoresServe }
{}

/// A translation owes no event: each log that told of the port before goes on by its steps alone to one that tells of the port behind, and shows
/// a walk that leads to where the answer does, unless the lock was held. It marks no page but that of a store's answer.
pub fn law_translations()
    ensures { TranslationsLead }
{}

/// Where an instruction may be given up, the event that says so may stand behind the log, and what was marked for it waits no longer.
pub fn law_give_ups()
    ensures { GiveUpsStand }
{}
