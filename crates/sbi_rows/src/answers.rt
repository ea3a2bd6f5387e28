// What each call answers, by its extension, its function and the edges of its arguments.
use crate::calls::Error::{AlreadyAvailable, InvalidAddress, InvalidParam, NotSupported};
use crate::calls::Want::{Fails, Gives, LegacyFails};
use crate::calls::{
    ALL, BEGIN, CallRow, DBCN, Function, HSM, HartRow, IPI, NO_ARGS, RAM, RESET, RFENCE, SHUTDOWN,
    SRST, UPPER, VERSION,
};
use machine_model::Reason;

/// The extensions that there are.
pub const PRESENT: [u64; 8] = [
    0x01,
    0x08,
    0x10,
    0x0073_5049,
    0x5246_4e43,
    0x0048_534d,
    0x5352_5354,
    0x4442_434e,
];

/// Legacy extensions that there are not.
pub const NO_LEGACY: [u64; 14] = [
    0x00, 0x02, 0x03, 0x04, 0x05, 0x06, 0x07, 0x09, 0x0a, 0x0b, 0x0c, 0x0d, 0x0e, 0x0f,
];

/// Others that there are not: the neighbours of those that there are, timer, performance counters, suspend, CPPC, nested
/// acceleration, steal time, the ranges for experiments, vendors and firmware, and those of an upper half.
pub const ABSENT: [u64; 21] = [
    0x11,
    0x0073_5048,
    0x0073_504a,
    0x0048_534c,
    0x0048_534e,
    0x4442_434d,
    0x4442_434f,
    0x5449_4d45,
    0x0050_4d55,
    0x5355_5350,
    0x4350_5043,
    0x4e41_434c,
    0x0053_5441,
    0x0800_0000,
    0x0900_0000,
    0x0a00_0000,
    0x1_0000_0001,
    0x1_0000_0008,
    0x1_0000_0010,
    0x8000_0000_0000_0010,
    ALL,
];

/// A call by registers that nothing has set, which is a legacy extension that there is not.
pub const UNSET: [HartRow; 1] = [(0, (0, 0), NO_ARGS, LegacyFails(NotSupported))];

pub const BASE_ROWS: [CallRow; 13] = [
    (0, NO_ARGS, Gives(VERSION)),
    (0, [ALL, ALL, ALL, ALL], Gives(VERSION)),
    (1, NO_ARGS, Gives(0x7fff)),
    (2, NO_ARGS, Gives(1)),
    (4, NO_ARGS, Gives(0)),
    (5, NO_ARGS, Gives(0)),
    (6, NO_ARGS, Gives(0)),
    (6, [0x10, 0x10, 0, 0], Gives(0)),
    (7, NO_ARGS, Fails(NotSupported)),
    (8, NO_ARGS, Fails(NotSupported)),
    (UPPER, NO_ARGS, Fails(NotSupported)),
    (UPPER + 3, [0x10, 0, 0, 0], Fails(NotSupported)),
    (ALL, NO_ARGS, Fails(NotSupported)),
];

/// Functions that there are not, of extensions that there are.
pub const OTHER_FUNCTIONS: [Function; 17] = [
    (IPI, 1),
    (IPI, 2),
    (IPI, UPPER),
    (IPI, ALL),
    (RFENCE, 3),
    (RFENCE, 4),
    (RFENCE, 7),
    (RFENCE, UPPER + 1),
    (RFENCE, ALL),
    (HSM, 3),
    (HSM, 4),
    (HSM, UPPER + 1),
    (HSM, ALL),
    (SRST, 1),
    (SRST, UPPER),
    (DBCN, 3),
    (DBCN, UPPER + 2),
];

/// Of the harts' states, where hart 0 calls and no hart 4 is there. A hart that is not there has its error first, and then an address.
pub const HART_ROWS: [CallRow; 20] = [
    (0, [0, BEGIN, 0, 0], Fails(AlreadyAvailable)),
    (0, [0, 0x803f_fffc, 0, 0], Fails(AlreadyAvailable)),
    (0, [0, BEGIN + 1, 0, 0], Fails(InvalidAddress)),
    (0, [0, BEGIN + 2, 0, 0], Fails(InvalidAddress)),
    (0, [0, 0, 0, 0], Fails(InvalidAddress)),
    (0, [0, 0x7fff_fffc, 0, 0], Fails(InvalidAddress)),
    (0, [0, 0x8040_0000, 0, 0], Fails(InvalidAddress)),
    (0, [0, UPPER + BEGIN, 0, 0], Fails(InvalidAddress)),
    (0, [0, ALL - 3, 0, 0], Fails(InvalidAddress)),
    (0, [4, BEGIN, 0, 0], Fails(InvalidParam)),
    (0, [9, BEGIN, 0, 0], Fails(InvalidParam)),
    (0, [9, BEGIN + 1, 0, 0], Fails(InvalidParam)),
    (0, [0x100, BEGIN, 0, 0], Fails(InvalidParam)),
    (0, [UPPER, BEGIN, 0, 0], Fails(InvalidParam)),
    (0, [ALL, 0, 0, 0], Fails(InvalidParam)),
    (2, NO_ARGS, Gives(0)),
    (2, [4, 0, 0, 0], Fails(InvalidParam)),
    (2, [0x100, 0, 0, 0], Fails(InvalidParam)),
    (2, [UPPER, 0, 0, 0], Fails(InvalidParam)),
    (2, [ALL, 0, 0, 0], Fails(InvalidParam)),
];

pub const HART_ROWS_OF_ONE: [CallRow; 2] = [
    (0, [1, BEGIN, 0, 0], Fails(InvalidParam)),
    (2, [1, 0, 0, 0], Fails(InvalidParam)),
];

pub const HART_ROWS_OF_FOUR: [CallRow; 4] = [
    (2, [1, 0, 0, 0], Gives(1)),
    (2, [3, 0, 0, 0], Gives(1)),
    (0, [3, BEGIN + 2, 0, 0], Fails(InvalidAddress)),
    (0, [3, 0x8040_0000, 0, 0], Fails(InvalidAddress)),
];

/// A reset's type and reason are 32 bits.
pub const RESET_ROWS: [CallRow; 13] = [
    (0, [0, 2, 0, 0], Fails(InvalidParam)),
    (0, [0, 0xffff_ffff, 0, 0], Fails(InvalidParam)),
    (0, [0, UPPER + 2, 0, 0], Fails(InvalidParam)),
    (0, [UPPER, 2, 0, 0], Fails(InvalidParam)),
    (0, [1, 0, 0, 0], Fails(NotSupported)),
    (0, [1, 1, 0, 0], Fails(NotSupported)),
    (0, [2, 0, 0, 0], Fails(NotSupported)),
    (0, [2, 1, 0, 0], Fails(NotSupported)),
    (0, [UPPER + 1, 0, 0, 0], Fails(NotSupported)),
    (0, [3, 0, 0, 0], Fails(InvalidParam)),
    (0, [0xf000_0000, 0, 0, 0], Fails(InvalidParam)),
    (0, [0xffff_ffff, 0, 0, 0], Fails(InvalidParam)),
    (0, [ALL, ALL, 0, 0], Fails(InvalidParam)),
];

/// A function, a0 to a3, and why the call ends the machine.
pub type EndRow = (Function, [u64; 4], Reason);

pub const ENDINGS: [EndRow; 9] = [
    (RESET, NO_ARGS, Reason::Pass),
    (RESET, [0, 1, 0, 0], Reason::Fail(1)),
    (RESET, [0, 0, ALL, ALL], Reason::Pass),
    (RESET, [UPPER, 0, 0, 0], Reason::Pass),
    (RESET, [0, UPPER, 0, 0], Reason::Pass),
    (RESET, [ALL - 0xffff_ffff, UPPER + 1, 0, 0], Reason::Fail(1)),
    ((SHUTDOWN, 0), NO_ARGS, Reason::Pass),
    ((SHUTDOWN, 0), [ALL, ALL, ALL, ALL], Reason::Pass),
    // the functions of the legacy extensions have no numbers: a6 says nothing there
    ((SHUTDOWN, 7), NO_ARGS, Reason::Pass),
];

/// The debug console's calls that print nothing.
pub const CONSOLE_ROWS: [CallRow; 21] = [
    (0, NO_ARGS, Gives(0)),
    (0, [0, ALL, 0, 0], Gives(0)),
    (0, [0, 0x8040_0000, 0, 0], Gives(0)),
    (0, [0, RAM, 1, 0], Fails(InvalidParam)),
    (0, [1, RAM, 1, 0], Fails(InvalidParam)),
    (0, [1, RAM, UPPER, 0], Fails(InvalidParam)),
    (0, [1, RAM, ALL, 0], Fails(InvalidParam)),
    (0, [1, 0, 0, 0], Fails(InvalidParam)),
    (0, [1, 0x7fff_ffff, 0, 0], Fails(InvalidParam)),
    (0, [2, 0x7fff_ffff, 0, 0], Fails(InvalidParam)),
    (0, [1, 0x8040_0000, 0, 0], Fails(InvalidParam)),
    (0, [2, 0x803f_ffff, 0, 0], Fails(InvalidParam)),
    (0, [257, 0x803f_ff00, 0, 0], Fails(InvalidParam)),
    (0, [0x40_0001, RAM, 0, 0], Fails(InvalidParam)),
    (0, [1, UPPER + RAM, 0, 0], Fails(InvalidParam)),
    (0, [ALL, RAM, 0, 0], Fails(InvalidParam)),
    (0, [ALL - RAM + 1, RAM, 0, 0], Fails(InvalidParam)),
    (0, [ALL, ALL, 0, 0], Fails(InvalidParam)),
    (1, NO_ARGS, Fails(NotSupported)),
    (1, [1, RAM, 0, 0], Fails(NotSupported)),
    (ALL, NO_ARGS, Fails(NotSupported)),
];
