// The law of calls.
ghost use Rattle.call_laws.specs.Laws.{CallsAreTheMachines};

/// What a call did is what the reference machine's call does where memory, the harts' states and the console's room are as the call found
/// them.
pub fn law_calls()
    ensures { CallsAreTheMachines }
{}
