// How a turn ends.

use guest_ram::Seen;
use machine_model::Reason;
use tlb_lock::Busy;

/// What a hart waits for: a lock that another holds, an answer to a request, that all others are outside, or that the section is given back.
#[derive(Clone, Copy, Debug, PartialEq, Eq)]
pub enum Wait4 {
    Lock(Busy),
    Ack(Seen),
    Section(Seen),
    Entry(Seen),
}

/// Why an instruction is to be made anew: its exchange found another value than its load, or it needs the section.
#[derive(Clone, Copy, Debug, PartialEq, Eq)]
pub enum Anew {
    Lost { word: u32, seen: u64, found: u64 },
    Section,
}

/// How a turn ended. `Rested` is a WFI that retired; `Idle` a stopped hart that nobody started; `Ended` the machine's end.
#[derive(Clone, Copy, Debug, PartialEq, Eq)]
pub enum TurnEnd {
    Retired,
    Rested,
    Trapped,
    Started,
    Idle,
    Waiting(Wait4),
    Again(Anew),
    Ended(Reason),
}
