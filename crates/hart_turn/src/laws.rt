// The law of new harts.
ghost use Rattle.hart_turn.specs.Laws.{NewHartsAreBetween, NewHartsAreSettled};

/// A hart as `Hart::new` makes it is between turns at a port that has made no step, and so is the empty log of a machine that begins so.
pub fn law_first()
    ensures settled { NewHartsAreSettled }
    ensures between { NewHartsAreBetween }
{}
