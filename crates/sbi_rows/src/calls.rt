// What a call is, and what it can come to.
use machine_model::Reason;

/// How many pages of RAM the machines have, and the address of its first byte.
pub const PAGES: u32 = 1024;

pub const RAM: u64 = 0x8000_0000;

/// An address that a hart can begin at.
pub const BEGIN: u64 = 0x8000_0004;

pub const ALL: u64 = 0xffff_ffff_ffff_ffff;

/// The number 0 of a function and of an argument, where its upper half is lost.
pub const UPPER: u64 = 0x1_0000_0000;

pub const NO_ARGS: [u64; 4] = [0; 4];

/// The extensions.
pub const PUTCHAR: u64 = 0x01;

pub const SHUTDOWN: u64 = 0x08;

pub const BASE: u64 = 0x10;

pub const IPI: u64 = 0x73_5049;

pub const RFENCE: u64 = 0x5246_4e43;

pub const HSM: u64 = 0x48_534d;

pub const SRST: u64 = 0x5352_5354;

pub const DBCN: u64 = 0x4442_434e;

/// An extension and one of its functions.
pub type Function = (u64, u64);

/// Asks for the version of the specification, which is 2.0.
pub const ASK: Function = (BASE, 0);

pub const VERSION: u64 = 0x0200_0000;

/// Starts a hart at an address, and hands it a value on.
pub const START: Function = (HSM, 0);

/// Stops the hart that makes it.
pub const STOP: Function = (HSM, 1);

/// Asks for a hart's state: 0 it runs, 1 it is stopped, 2 a start of it is pending.
pub const STATUS: Function = (HSM, 2);

/// Sends interrupts to the harts of a mask and its base.
pub const SEND: Function = (IPI, 0);

/// Fences those harts' translations of a range.
pub const FENCE: Function = (RFENCE, 1);

pub const RESET: Function = (SRST, 0);

/// Prints bytes of memory.
pub const WRITE: Function = (DBCN, 0);

/// Prints a byte.
pub const WRITE_BYTE: Function = (DBCN, 2);

/// Prints a byte by the legacy extension, whose functions have no numbers.
pub const PUT: Function = (PUTCHAR, 9);

/// A call: what a7, a6 and a0 to a3 hold. What a4 and a5 hold, no answer depends on.
#[derive(Clone, Copy, Debug)]
pub struct Call {
    pub extension: u64,
    pub function: u64,
    pub args: [u64; 4],
}

/// The errors of the specification that this machine answers.
#[derive(Clone, Copy, Debug)]
pub enum Error {
    NotSupported,
    InvalidParam,
    InvalidAddress,
    AlreadyAvailable,
}

/// What a call comes to. Those of the legacy extensions leave a1. `Fences`: a fence of everything at the harts of these bits, behind which
/// the call gives 0.
#[derive(Clone, Copy, Debug)]
pub enum Want {
    Gives(u64),
    Fences(u64),
    Fails(Error),
    LegacyGives,
    LegacyFails(Error),
    Stops,
    Ends(Reason),
}

/// A function of an extension, a0 to a3, and what the call comes to.
pub type CallRow = (u64, [u64; 4], Want);

/// A hart, the function that it calls, a0 to a3, and what the call comes to.
pub type HartRow = (u8, Function, [u64; 4], Want);
