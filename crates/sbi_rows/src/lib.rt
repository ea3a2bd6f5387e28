//! Calls of the SBI as rows: what a hart's registers hold, and what the call comes to. The machine on one thread and passes of the shared
//! machine are tried by the same rows. What is wanted stands in the RISC-V Supervisor Binary Interface Specification, version 2.0, "Base
//! Extension" to "Debug Console Extension" and "Legacy Extensions"; machines have `PAGES` pages of RAM.
#![tactic(auto)]

mod answers;
mod calls;
mod console;
mod fences;
mod harts;
mod text;

pub use answers::{
    ABSENT, BASE_ROWS, CONSOLE_ROWS, ENDINGS, EndRow, HART_ROWS, HART_ROWS_OF_FOUR,
    HART_ROWS_OF_ONE, NO_LEGACY, OTHER_FUNCTIONS, PRESENT, RESET_ROWS, UNSET,
};
pub use calls::{
    ALL, ASK, BASE, BEGIN, Call, CallRow, DBCN, Error, FENCE, Function, HSM, HartRow, IPI, NO_ARGS,
    PAGES, PUT, PUTCHAR, RAM, RESET, RFENCE, SEND, SHUTDOWN, SRST, START, STATUS, STOP, UPPER,
    VERSION, WRITE, WRITE_BYTE, Want,
};
pub use console::{BYTE_WRITES, PrintRow, Printed, WRITES};
pub use fences::{
    FENCE_ROWS, FENCES_OF_STOPPED, INTERRUPTS_OF_FOUR, MASKS, MASKS_OF_EIGHT, MASKS_OF_FOUR,
    MASKS_OF_ONE, MASKS_OF_TWO, MaskRow, Named, RANGES, RangeRow, Reach,
};
pub use harts::{
    ALL_RUN, BEGINS, BOTH_RUN, BeginRow, FIRST_LIST, FIRST_STARTED_AGAIN, FIRST_STOPS_FIRST,
    LAST_STOPS_AT_LIMIT, LONE_STOP, NEVER_BEGUN, PENDING_AT_LIMIT, PENDING_AT_STOP,
    RUNNING_AT_LIMIT, SECOND_STOPS, SECOND_STOPS_FIRST, SENT, STARTED, STATES, STOPS_IN_NO_ORDER,
};
pub use text::{FIRST_WORD, LAST_BYTE, LAST_WORD, TEXT, TEXT_BYTES, TEXT_PLACE};
