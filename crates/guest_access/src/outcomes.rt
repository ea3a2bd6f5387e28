// What came of an access.
use rv64_exec::Answer;
use tlb_lock::Busy;

/// What came of an access: the answer for the instruction, or a fault with its cause and its value for stval; or why the access is to be made
/// anew. `Lost` has the word, what it was loaded as, and what the exchange then found. `NeedsSection` comes of bytes that lie in two words.
/// `Busy` has the holder of the lock of the hart's TLB.
#[derive(Clone, Copy)]
pub enum Got {
    Done(Answer),
    Fault { cause: u64, tval: u64 },
    Lost { word: u32, seen: u64, found: u64 },
    NeedsSection,
    Busy(Busy),
}
