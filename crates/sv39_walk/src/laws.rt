// Laws of walks: each function's contract is its law.
ghost use Rattle.sv39_walk.specs.Laws.{LeafServes, PageWalks};

/// A leaf that a walk of an address found for one kind of access is the end of the walk by the same words for each kind that it serves.
pub fn law_leaf_serves()
    ensures { LeafServes }
{}

/// The walk of an address, and the words that it loads, are those of every address of its page.
pub fn law_page_walks()
    ensures { PageWalks }
{}
