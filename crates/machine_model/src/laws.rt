// Laws of the reference machine's runs, and of the words of reasons: each function's contract is its law.
ghost use Rattle.machine_model.specs.Laws.{PlainRunsAreRuns, PlainRunsAreSettled, CountsGrow, OutputGrows, OutputFits, ReasonStays, MemoryIsStored, HartsAreParts, OwnIsOwn, WalksStayAllowed, FoundIsAllowed};
ghost use Rattle.machine_model.specs.ReasonWords.{ReasonsAreTold, WordsAreTold, ReasonsMayStand};

/// The plain run of an order is a run: each of its events is lawful. Every stop that is due in it has come.
pub fn law_plain()
    ensures runs { PlainRunsAreRuns }
    ensures settled { PlainRunsAreSettled }
{}

/// Along a run counts and output grow, the first reason stays, and memory changes by store entries alone.
pub fn law_grows()
    ensures counts { CountsGrow }
    ensures output { OutputGrows }
    ensures fits { OutputFits }
    ensures reason { ReasonStays }
    ensures memory { MemoryIsStored }
{}

/// Each hart is changed by its own events and by starts of it, and what is its own by its own events alone; a walk stays
/// allowed over all events of others; and a walk whose reads found their words since the last renewal is allowed.
pub fn law_apart()
    ensures parts { HartsAreParts }
    ensures own { OwnIsOwn }
    ensures walks { WalksStayAllowed }
    ensures found { FoundIsAllowed }
{}

/// A reason is told by its word, and a word by its reason; the words of a layout's reasons may stand in STOP.
pub fn law_reasons()
    ensures reasons { ReasonsAreTold }
    ensures words { WordsAreTold }
    ensures stand { ReasonsMayStand }
{}
