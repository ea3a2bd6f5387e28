// Laws of served needs: each function's contract is its law.
ghost use Rattle.need_pieces.specs.Laws.{FencesWait, NeedsAreServed};

/// A need that was served is in each log that told of the port before: behind its steps the log has the instruction's execution, with the answer
/// that the reference machine gives in every state that fits the steps, behind the flush that the instruction made itself, and the hart's last event
/// is then one that counts an instruction; or it has the walks that were made, by which the instruction may be given up. No mark waits for its store
/// behind it that didn't before.
pub fn law_needs()
    ensures { NeedsAreServed }
{}

/// A call that asks for a fence makes no step: its execution stands where the fence is done.
pub fn law_fences()
    ensures { FencesWait }
{}
