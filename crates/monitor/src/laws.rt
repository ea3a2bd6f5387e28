// Where a monitor's life begins: each function's contract is its law.
ghost use Rattle.monitor.specs.Laws.{NewMonitorsAreBetween, NewMonitorsGo};

/// A monitor as it is made goes with a port that has made no step, where the machine can do its commands, and with the empty log.
pub fn law_first()
    ensures goes { NewMonitorsGo }
    ensures between { NewMonitorsAreBetween }
{}
