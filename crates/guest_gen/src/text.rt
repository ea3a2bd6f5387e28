// The text of a number.
ghost use Rattle.std.specs.Prelude.{◌≡◌, IfOk};
ghost use Rattle.guest_gen.specs.Text.{gen_text};

use crate::program::push_program;
use crate::tables::push_tables;
use std::alloc::Global;
use vm_io::NoMemory;

/// The text of a guest: up to eight harts start each other; each remaps a window between its two frames 100 to 10,000 times,
/// by the number, fences all harts and adds what it reads; hart 0 prints the sum in 16 hexadecimal digits, which is the number
/// of harts times 4 times that of rounds.
pub fn gen_text(alloc: Global, number: u32) -> Result<Vec<u8>, NoMemory>
    ensures { IfOk result (λ text. text.items ≡ gen_text number) }
{
    let mut text = String::new(alloc);
    push_program(&mut text, number)?;
    push_tables(&mut text)?;
    Ok(text.into_bytes())
}
