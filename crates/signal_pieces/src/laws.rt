// Laws of the steps between which a turn does its work: each function's contract is its law.
ghost use Rattle.signal_pieces.specs.Laws.{EndsPass, HeldStartsPass, InterruptsStand, LimitsStand, LooksLetFetch, SidesPass, StartsStand, StoppedPass, TurnsBegin};

/// Behind the load of STOP with which a turn begins the log rests: nothing is open, and no mark waits for its store. Where STOP was 0 the hart
/// may draw a console place.
pub fn law_begins()
    ensures { TurnsBegin }
{}

/// Entering and leaving, claims and releases, and calls to leave are steps alone in the log; so is an actor's last step.
pub fn law_sides()
    ensures sides { SidesPass }
    ensures ends { EndsPass }
{}

/// Where the look at IPI found an interrupt that the hart takes, its event stands there and the hart has trapped; where it found none, the hart
/// may fetch.
pub fn law_interrupts()
    ensures stands { InterruptsStand }
    ensures looks { LooksLetFetch }
{}

/// A start that was taken stands at the store of 0 in the own HSM, behind the flush of everything; whatever regime the hart then has. One that was
/// not, since the hart wasn't called or its lock was held, is steps alone.
pub fn law_starts()
    ensures taken { StartsStand }
    ensures none { StoppedPass }
    ensures held { HeldStartsPass }
{}

/// Where a hart's last event brought its count to the limit, the stop that is due stands at its exchange of STOP, and is due no longer.
pub fn law_limits()
    ensures { LimitsStand }
{}
