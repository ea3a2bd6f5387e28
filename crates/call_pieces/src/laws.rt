// The laws of calls in logs.
ghost use Rattle.call_pieces.specs.Laws.{CallsAreServed, OwnStartsAreServed, StopsAreSaid};
ghost use Rattle.call_pieces.specs.Printing.{BytesAreServed};

/// Each log that tells of the port before a call goes on by its steps, and its execution, to one that tells of the port behind. The hart's last
/// event is then one that counts an instruction: the execution, or the stop of all behind it. Behind a stop of the last hart the stop of all stands.
pub fn law_served()
    ensures calls { CallsAreServed }
    ensures own_starts { OwnStartsAreServed }
    ensures stops { StopsAreSaid }
{}

/// So it does for a call that prints bytes of RAM in its section.
pub fn law_printed()
    ensures { BytesAreServed }
{}
