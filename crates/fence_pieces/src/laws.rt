// Laws of fences: each function's contract is its law.
ghost use Rattle.fence_pieces.specs.Ending.{FencesAreDone};
ghost use Rattle.fence_pieces.specs.Laws.{AsksRest, BehindStays, FencesAreAsked, FencesStand, FlushesStay, GrownIsBehind, PiecesAreFlushed, PiecesAreHeld, PiecesAreWhole, TurnsAreHeld, TurnsAreMade, TurnsGoOn};

/// Where each piece of a fence was posted at a hart and answered since its base, and the log has no fetch of the actor since then, the hart was
/// asked for all that the fence names. So the log has what the fence's execution asks for, once that is so of each other hart that it names, and the
/// own pieces are flushed where it names the own hart.
pub fn law_asked()
    ensures one { FencesAreAsked }
    ensures all { FencesStand }
{}

/// The own pieces of a fence are in each log that told of the port before: it goes on by their steps, with a flush where each frees the lock, and
/// each of them is flushed since the hart's last fetch. Where all pieces are, all that the fence names is. Where the lock was found held behind some,
/// one exchange stands behind their flushes.
pub fn law_own()
    ensures flushed { PiecesAreFlushed }
    ensures held { PiecesAreHeld }
    ensures whole { PiecesAreWhole }
{}

/// The posts and polls of a hart's own owe no event: each log that told of the port before goes on by them alone. None of them is an ack.
pub fn law_asks()
    ensures { AsksRest }
{}

/// A turn of a fence is in each log that told of the port before: the log goes on, with no fetch of the hart's, by the turn's steps, with a flush
/// for each own piece and no other event, and each of these pieces is flushed since the hart's last fetch. So it is where the lock was found held.
/// What turns flushed before stays flushed, so that once the last own piece is, all are.
pub fn law_turns()
    ensures made { TurnsAreMade }
    ensures held { TurnsAreHeld }
    ensures on { TurnsGoOn }
{}

/// An accepted fence is executed once it is done: where the hart holds a call for it, all own pieces are flushed since its last fetch if the mask names
/// it, and each piece was answered at each other hart named since a base with no fetch of the hart's behind it, the log goes on by the call's execution,
/// which succeeds, and settles with the port as it is. The hart's last event is then one that counts an instruction.
pub fn law_done()
    ensures { FencesAreDone }
{}

/// A log that goes on with no fetch of the actor's stands behind what it was. What stands so behind such a log stands behind the first, and a flush
/// since the actor's last fetch is still one.
pub fn law_behind()
    ensures grown { GrownIsBehind }
    ensures stays { BehindStays }
    ensures flushed { FlushesStay }
{}
