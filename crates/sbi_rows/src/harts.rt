// Harts that start, stop and start again, and what they ask for between ("Hart State Management Extension").
use crate::calls::Error::{AlreadyAvailable, InvalidAddress, InvalidParam};
use crate::calls::Want::{Ends, Fails, Gives, Stops};
use crate::calls::{
    ALL, ASK, BEGIN, HartRow, NO_ARGS, RAM, SEND, START, STATUS, STOP, VERSION, Want,
};
use machine_model::Reason;

/// What a start hands on: where the calls that the hart is to make stand, on the machine on one thread.
pub const FIRST_LIST: u64 = 0x8003_0000;

pub const SECOND_LIST: u64 = 0x8003_1000;

pub const THIRD_LIST: u64 = 0x8003_2000;

pub const FOURTH_LIST: u64 = 0x8003_3000;

/// How many bytes a call takes there.
const LISTED: u64 = 64;

const ALL_STOPPED: Want = Ends(Reason::AllStopped);

/// The state of a hart through two lives of hart 1, of two.
pub const STATES: [HartRow; 24] = [
    (0, STATUS, [0, 0, 0, 0], Gives(0)),
    (0, STATUS, [1, 0, 0, 0], Gives(1)),
    (0, START, [0, BEGIN, 0, 0], Fails(AlreadyAvailable)),
    (0, START, [9, BEGIN, 0, 0], Fails(InvalidParam)),
    (0, START, [1, BEGIN + 2, 0, 0], Fails(InvalidAddress)),
    (0, START, [1, 0x7fff_fffc, 0, 0], Fails(InvalidAddress)),
    (0, START, [1, 0x8040_0000, 0, 0], Fails(InvalidAddress)),
    (0, STATUS, [1, 0, 0, 0], Gives(1)),
    (0, START, [1, BEGIN, SECOND_LIST, 0], Gives(0)),
    (0, STATUS, [1, 0, 0, 0], Gives(2)),
    // what is refused leaves the start that is pending
    (0, START, [1, RAM, 7, 0], Fails(AlreadyAvailable)),
    (0, START, [1, BEGIN + 2, 0, 0], Fails(InvalidAddress)),
    (0, STATUS, [1, 0, 0, 0], Gives(2)),
    (1, STATUS, [1, 0, 0, 0], Gives(0)),
    (0, STATUS, [1, 0, 0, 0], Gives(0)),
    (
        0,
        START,
        [1, BEGIN, SECOND_LIST, 0],
        Fails(AlreadyAvailable),
    ),
    (
        1,
        START,
        [1, BEGIN, SECOND_LIST, 0],
        Fails(AlreadyAvailable),
    ),
    (1, START, [0, BEGIN, FIRST_LIST, 0], Fails(AlreadyAvailable)),
    (1, STOP, NO_ARGS, Stops),
    (0, STATUS, [1, 0, 0, 0], Gives(1)),
    (0, START, [1, BEGIN, SECOND_LIST + 4 * LISTED, 0], Gives(0)),
    (0, STATUS, [1, 0, 0, 0], Gives(2)),
    (1, STATUS, [0, 0, 0, 0], Gives(0)),
    (0, STATUS, [1, 0, 0, 0], Gives(0)),
];

/// Of two harts. Hart 0 is as any other: another starts it again.
pub const FIRST_STARTED_AGAIN: [HartRow; 9] = [
    (0, START, [1, BEGIN, SECOND_LIST, 0], Gives(0)),
    (0, STOP, NO_ARGS, Stops),
    (1, STATUS, [0, 0, 0, 0], Gives(1)),
    (1, START, [0, BEGIN, FIRST_LIST + 2 * LISTED, 0], Gives(0)),
    (1, STATUS, [0, 0, 0, 0], Gives(2)),
    (1, STOP, NO_ARGS, Stops),
    (0, STATUS, [1, 0, 0, 0], Gives(1)),
    (0, STATUS, [0, 0, 0, 0], Gives(0)),
    (0, STOP, NO_ARGS, ALL_STOPPED),
];

/// Of one hart or more: those that were never started are stopped.
pub const LONE_STOP: [HartRow; 1] = [(0, STOP, NO_ARGS, ALL_STOPPED)];

/// Of two harts, the last to stop ends the machine.
pub const FIRST_STOPS_FIRST: [HartRow; 5] = [
    (0, START, [1, BEGIN, SECOND_LIST, 0], Gives(0)),
    (1, ASK, NO_ARGS, Gives(VERSION)),
    (0, STOP, NO_ARGS, Stops),
    (1, ASK, NO_ARGS, Gives(VERSION)),
    (1, STOP, NO_ARGS, ALL_STOPPED),
];

pub const SECOND_STOPS_FIRST: [HartRow; 4] = [
    (0, START, [1, BEGIN, SECOND_LIST, 0], Gives(0)),
    (1, STOP, NO_ARGS, Stops),
    (0, ASK, NO_ARGS, Gives(VERSION)),
    (0, STOP, NO_ARGS, ALL_STOPPED),
];

/// Of four harts, each of which is started by the one before.
pub const STOPS_IN_NO_ORDER: [HartRow; 8] = [
    (0, START, [3, BEGIN, FOURTH_LIST, 0], Gives(0)),
    (3, START, [1, BEGIN, SECOND_LIST, 0], Gives(0)),
    (1, START, [2, BEGIN, THIRD_LIST, 0], Gives(0)),
    (2, ASK, NO_ARGS, Gives(VERSION)),
    (1, STOP, NO_ARGS, Stops),
    (3, STOP, NO_ARGS, Stops),
    (0, STOP, NO_ARGS, Stops),
    (2, STOP, NO_ARGS, ALL_STOPPED),
];

/// Of two harts: one whose start is pending keeps the machine.
pub const PENDING_AT_STOP: [HartRow; 4] = [
    (0, START, [1, BEGIN, SECOND_LIST, 0], Gives(0)),
    (0, STOP, NO_ARGS, Stops),
    (1, ASK, NO_ARGS, Gives(VERSION)),
    (1, STOP, NO_ARGS, ALL_STOPPED),
];

/// Of two harts, hart 1 never begins; is started; runs; has stopped.
pub const NEVER_BEGUN: [HartRow; 1] = [(0, STATUS, [1, 0, 0, 0], Gives(1))];

pub const STARTED: [HartRow; 1] = [(0, START, [1, BEGIN, SECOND_LIST, 0], Gives(0))];

pub const BOTH_RUN: [HartRow; 2] = [
    (0, START, [1, BEGIN, SECOND_LIST, 0], Gives(0)),
    (1, ASK, NO_ARGS, Gives(VERSION)),
];

pub const SECOND_STOPS: [HartRow; 3] = [
    (0, START, [1, BEGIN, SECOND_LIST, 0], Gives(0)),
    (1, ASK, NO_ARGS, Gives(VERSION)),
    (1, STOP, NO_ARGS, Stops),
];

/// Where hart 0's last call is its last instruction too: a stop of all comes before the limit, ..
pub const LAST_STOPS_AT_LIMIT: [HartRow; 1] = [(0, STOP, NO_ARGS, ALL_STOPPED)];

/// .. and where another hart of two is pending, or runs, the limit is reached by a hart that stops.
pub const PENDING_AT_LIMIT: [HartRow; 2] = [
    (0, START, [1, BEGIN, SECOND_LIST, 0], Gives(0)),
    (0, STOP, NO_ARGS, Ends(Reason::Limit(0))),
];

pub const RUNNING_AT_LIMIT: [HartRow; 3] = [
    (0, START, [1, BEGIN, SECOND_LIST, 0], Gives(0)),
    (1, ASK, NO_ARGS, Gives(VERSION)),
    (0, STOP, NO_ARGS, Ends(Reason::Limit(0))),
];

/// All of four harts run.
pub const ALL_RUN: [HartRow; 6] = [
    (0, START, [1, BEGIN, SECOND_LIST, 0], Gives(0)),
    (0, START, [2, BEGIN, THIRD_LIST, 0], Gives(0)),
    (0, START, [3, BEGIN, FOURTH_LIST, 0], Gives(0)),
    (1, ASK, NO_ARGS, Gives(VERSION)),
    (2, ASK, NO_ARGS, Gives(VERSION)),
    (3, ASK, NO_ARGS, Gives(VERSION)),
];

/// Of two harts: an interrupt that is sent to a hart that has not begun, or is stopped, is a success too.
pub const SENT: [HartRow; 7] = [
    (0, SEND, [2, 0, 0, 0], Gives(0)),
    (0, START, [1, BEGIN, SECOND_LIST, 0], Gives(0)),
    (0, SEND, [2, 0, 0, 0], Gives(0)),
    (1, ASK, NO_ARGS, Gives(VERSION)),
    (1, STOP, NO_ARGS, Stops),
    (0, SEND, [1, 1, 0, 0], Gives(0)),
    (0, SEND, [0, ALL, 0, 0], Gives(0)),
];

/// Of four harts, one that hart 0 starts, where it begins, and what it is handed.
pub type BeginRow = (u8, u64, u64);

pub const BEGINS: [BeginRow; 5] = [
    (3, BEGIN, 0x0123_4567_89ab_cdef),
    (3, RAM, 0x0123_4567_89ab_cdef),
    (3, 0x803f_fffc, 0x0123_4567_89ab_cdef),
    (1, BEGIN, 77),
    (1, BEGIN + 4, ALL),
];
