// Laws of walks that records show: each function's contract is its law.
ghost use Rattle.walk_laws.specs.KeptWalks.{WalkIsKept, StaysOverSteps, StaysOverFlush};
ghost use Rattle.walk_laws.specs.WalkLoads.{ReadsAreOfRam};

/// A walk loads words of RAM alone.
pub fn law_walk_loads()
    ensures { ReadsAreOfRam }
{}

/// A walk whose loads a call made is kept behind them, over all further steps, and over each flush that doesn't cover its
/// leaf.
pub fn law_kept_walks()
    ensures walk { WalkIsKept }
    ensures steps { StaysOverSteps }
    ensures flush { StaysOverFlush }
{}
