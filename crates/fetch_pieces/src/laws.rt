// Laws of fetches: each function's contract is its law.
ghost use Rattle.fetch_pieces.specs.Laws.{FetchesAreLogged};
ghost use Rattle.fetch_pieces.specs.Regimes.{FillsAgree, RestsAgree, TellsAgree, TrapsRest};

/// What a book says of its hart's entries depends on satp, SUM and MXR, and not on the mode: a log that tells of a port under one regime does
/// so under each other with the same three. A trap leaves them.
pub fn law_regimes()
    ensures fills { FillsAgree }
    ensures tells { TellsAgree }
    ensures rests { RestsAgree }
    ensures traps { TrapsRest }
{}

/// A fetch is in each log that told of the port before, of a hart that may fetch: the log goes on by the fetch's steps alone, and then, where the
/// fetch came to a word or a fault, by the event that says so. Behind a word the hart holds it, with whatever it decodes as; behind a fault the
/// hart has trapped, and is to stop at its limit where it came to it. Where the own lock was found held the hart may fetch as before.
pub fn law_fetched()
    ensures { FetchesAreLogged }
{}
