// Bytes that calls print ("Debug Console Extension" and "Legacy Extensions").
use crate::calls::Error::InvalidParam;
use crate::calls::Want::{Fails, Gives, LegacyGives};
use crate::calls::{Function, PUT, RAM, WRITE, WRITE_BYTE, Want};
use crate::console::Printed::{Byte, Nothing, Text};
use crate::text::{LAST_BYTE, TEXT_PLACE};

/// What a call prints: nothing, a byte, or so many bytes of the text from one of them on.
#[derive(Clone, Copy, Debug)]
pub enum Printed {
    Nothing,
    Byte(u8),
    Text(usize, usize),
}

/// A function, a0 to a3, what the call comes to, and what it prints.
pub type PrintRow = (Function, [u64; 4], Want, Printed);

/// Bytes of memory, of which a call prints no more than 256.
pub const WRITES: [PrintRow; 22] = [
    (WRITE, [300, TEXT_PLACE, 0, 0x33], Gives(256), Text(0, 256)),
    (WRITE, [1, TEXT_PLACE, 0, 0x33], Gives(1), Text(0, 1)),
    (WRITE, [8, TEXT_PLACE, 0, 0x33], Gives(8), Text(0, 8)),
    (WRITE, [3, TEXT_PLACE + 1, 0, 0x33], Gives(3), Text(1, 3)),
    (WRITE, [3, TEXT_PLACE + 3, 0, 0x33], Gives(3), Text(3, 3)),
    (WRITE, [9, TEXT_PLACE + 6, 0, 0x33], Gives(9), Text(6, 9)),
    // three words
    (WRITE, [12, TEXT_PLACE + 6, 0, 0x33], Gives(12), Text(6, 12)),
    (WRITE, [255, TEXT_PLACE, 0, 0x33], Gives(255), Text(0, 255)),
    (
        WRITE,
        [256, TEXT_PLACE + 4, 0, 0x33],
        Gives(256),
        Text(4, 256),
    ),
    (
        WRITE,
        [257, TEXT_PLACE + 7, 0, 0x33],
        Gives(256),
        Text(7, 256),
    ),
    (
        WRITE,
        [0x3e_0000, TEXT_PLACE, 0, 0x33],
        Gives(256),
        Text(0, 256),
    ),
    (
        WRITE,
        [0x3e_0001, TEXT_PLACE, 0, 0x33],
        Fails(InvalidParam),
        Nothing,
    ),
    (WRITE, [0, TEXT_PLACE, 0, 0x33], Gives(0), Nothing),
    (WRITE, [0, 0, 0, 0x33], Gives(0), Nothing),
    (WRITE, [1, LAST_BYTE, 0, 0x33], Gives(1), Byte(b'Z')),
    (WRITE, [2, LAST_BYTE, 0, 0x33], Fails(InvalidParam), Nothing),
    (WRITE, [0, LAST_BYTE + 1, 0, 0x33], Gives(0), Nothing),
    (
        WRITE,
        [1, LAST_BYTE + 1, 0, 0x33],
        Fails(InvalidParam),
        Nothing,
    ),
    (WRITE, [1, RAM, 0, 0x33], Gives(1), Byte(0x97)),
    (WRITE, [2, RAM - 1, 0, 0x33], Fails(InvalidParam), Nothing),
    (
        WRITE,
        [1, TEXT_PLACE, 1, 0x33],
        Fails(InvalidParam),
        Nothing,
    ),
    (
        WRITE,
        [0, TEXT_PLACE, 1, 0x33],
        Fails(InvalidParam),
        Nothing,
    ),
];

/// Bytes of registers.
pub const BYTE_WRITES: [PrintRow; 7] = [
    (WRITE_BYTE, [0x41, 0x22, 0x33, 0x33], Gives(0), Byte(b'A')),
    (WRITE_BYTE, [0x141, 0x22, 0x33, 0x33], Gives(0), Byte(b'A')),
    (
        WRITE_BYTE,
        [0xffff_ffff_ffff_ff00, 0x22, 0x33, 0x33],
        Gives(0),
        Byte(0),
    ),
    (WRITE_BYTE, [0xff, 0x22, 0x33, 0x33], Gives(0), Byte(0xff)),
    (PUT, [0x42, 0x22, 0, 0], LegacyGives, Byte(b'B')),
    (PUT, [0x142, 0x22, 0, 0], LegacyGives, Byte(b'B')),
    (
        PUT,
        [0xffff_ffff_ffff_ffff, 0x22, 0, 0],
        LegacyGives,
        Byte(0xff),
    ),
];
