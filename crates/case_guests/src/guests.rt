// Guests by their instructions' words, as ELF files of one segment.
ghost use Rattle.std.specs.Prelude.{◌≤◌, length};

use std::alloc::{AllocError, Global};

/// The address of RAM's first byte.
pub const RAM: u64 = 0x8000_0000;

/// Prints OK and a line feed, and ends with a pass.
pub const HELLO: [u32; 11] = [
    0x1000_02b7, // lui x5, 0x10000
    0x04f0_0313, // addi x6, x0, 'O'
    0x0062_8023, // sb x6, 0(x5)
    0x04b0_0313, // addi x6, x0, 'K'
    0x0062_8023, // sb x6, 0(x5)
    0x00a0_0313, // addi x6, x0, '\n'
    0x0062_8023, // sb x6, 0(x5)
    0x0010_02b7, // lui x5, 0x100
    0x0000_5337, // lui x6, 0x5
    0x5553_0313, // addi x6, x6, 0x555
    0x0062_a023, // sw x6, 0(x5)
];

/// Words that stand in memory from a physical address on.
pub type Segment<'a> = (u64, &'a [u32]);

/// An executable whose one segment holds `words` from the address `place` on, where it starts.
pub fn elf(alloc: Global, place: u64, words: &[u32]) -> Result<Vec<u8>, AllocError> {
    elf_of(alloc, place, &[(place, words)])
}

/// An executable of these segments, which starts at `entry`.
/// Its fields stand as in the ELF-64 Object File Format, version 1.5, figures 2 and 6.
pub fn elf_of(alloc: Global, entry: u64, segments: &[Segment<'_>]) -> Result<Vec<u8>, AllocError>
    requires { length segments.now ≤ 16 }
{
    let mut file = b"\x7fELF\x02\x01\x01\0\0\0\0\0\0\0\0\0".to_vec(alloc)?;
    push_halves(&mut file, &[2, 243])?;
    push_words(&mut file, &[1])?;
    push_longs(&mut file, &[entry, 64, 0])?;
    push_words(&mut file, &[0])?;
    push_halves(&mut file, &[64, 56, segments.len() as u16, 0, 0, 0])?;
    let mut offset = 64 + 56 * segments.len() as u64;
    for (place, words) in segments {
        let len = (words.len() as u64).saturating_mul(4);
        push_words(&mut file, &[1, 7])?;
        push_longs(&mut file, &[offset, *place, *place, len, len, 1])?;
        offset = offset.saturating_add(len);
    }
    for (_, words) in segments {
        push_words(&mut file, words)?;
    }
    Ok(file)
}

fn push_halves(file: &mut Vec<u8>, values: &[u16]) -> Result<(), AllocError> {
    for value in values {
        file.extend_from_slice(&value.to_le_bytes())?;
    }
    Ok(())
}

fn push_words(file: &mut Vec<u8>, values: &[u32]) -> Result<(), AllocError> {
    for value in values {
        file.extend_from_slice(&value.to_le_bytes())?;
    }
    Ok(())
}

fn push_longs(file: &mut Vec<u8>, values: &[u64]) -> Result<(), AllocError> {
    for value in values {
        file.extend_from_slice(&value.to_le_bytes())?;
    }
    Ok(())
}
