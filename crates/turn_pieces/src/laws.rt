// What holds of turns and of their parts: each function's contract is its law.
ghost use Rattle.turn_pieces.specs.KeptWalks.{KeptIsSeen};
ghost use Rattle.turn_pieces.specs.Laws.{QuietIsPart, ChainsGrow};

/// Steps that need no event are a part of a turn.
pub fn law_quiet_steps()
    ensures { QuietIsPart }
{}

/// A walk that a record of steps and flushes keeps, by loads of this call or of long ago, is one that the log shows.
pub fn law_kept_walks()
    ensures { KeptIsSeen }
{}

/// Each step of a chain of turns may be made behind those before it, and each of its events is right there.
pub fn law_turns()
    ensures { ChainsGrow }
{}
