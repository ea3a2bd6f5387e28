// A law of the walk of the page tables: the function's contract is the law.
ghost use Rattle.rv64_priv.specs.Reads.{WalkIsFound};

/// The walk of an address is that of the words that its reads found.
pub fn law_walk()
    ensures { WalkIsFound }
{}
