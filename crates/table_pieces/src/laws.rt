// Laws of a hart's own table: each function's contract is its law.
ghost use Rattle.table_pieces.specs.Laws.{AccessesHit, AnswersHit, AtomicsHit, BusyRests, DisciplineClears, FullIsPlaced, HitsAreLoads, MissesWalk, OthersStay, PagesArePlaced};

/// The steps of a flush owe no event, and the one that frees the lock is the place of the flush's event. Each log that told of the port before
/// goes on to one that tells of the port behind, with that event placed: registers, held word and count are as they were, no walk that the book
/// keeps is covered, and no mark waits for its store that didn't before. Where the lock was held the log goes on by that one exchange.
pub fn law_flushes()
    ensures all { FullIsPlaced }
    ensures pages { PagesArePlaced }
    ensures busy { BusyRests }
{}

/// Where the table as the hart's own stores left it hits, a translation begins with two loads of the slot, and no step is on RAM; they are all
/// its steps unless a store has to clear bit 1 of WRITE. Where it doesn't hit, the compare word is loaded and the pages are walked. Behind an
/// answer it hits, and no slot has changed but the address's own. Where it hits for each page of an access, no step on RAM comes before the
/// access's own.
pub fn law_hits()
    ensures hits { HitsAreLoads }
    ensures misses { MissesWalk }
    ensures answers { AnswersHit }
    ensures others { OthersStay }
    ensures accesses { AccessesHit }
    ensures atomics { AtomicsHit }
{}

/// A hart whose record keeps to the discipline has cleared all words that its stores of SIZE asked for, wherever it holds no lock.
pub fn law_clears()
    ensures { DisciplineClears }
{}
