// Laws of served requests: each function's contract is its law.
ghost use Rattle.serving_pieces.specs.Laws.{HeldRests, IdleRests, RequestsAreServed, RoundsRest, StopsRest};

/// A request that was loaded, flushed for and acked is in each log that told of the port before: its load, the flush's steps with their event
/// where the lock is freed (a drain has none), and the ack, which may be made since the flush stands behind the load. Registers, held word and
/// count are as they were, and no mark waits for its store that didn't before.
pub fn law_served()
    ensures { RequestsAreServed }
{}

/// A source that had no request costs its load alone; one whose request found the lock held, its load and the exchange.
pub fn law_unserved()
    ensures idle { IdleRests }
    ensures held { HeldRests }
{}

/// A round, whether it came to its end or stopped at a held lock, is such parts one behind another.
pub fn law_rounds()
    ensures all { RoundsRest }
    ensures stopped { StopsRest }
{}
