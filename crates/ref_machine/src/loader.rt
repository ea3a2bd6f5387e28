// RAM as an image gives it: zeros, and over them the parts, the last one first.
ghost use Rattle.std.specs.Prelude.{◌≡◌, ◌*◌, ◌≤◌, ◌∷◌, length, IfOk};
ghost use Rattle.ref_machine.specs.SharedState.{IsLoaded};

use elf_load::Part;
use image_words::{word_over, words_of};
use std::alloc::Global;
use step_laws::RAM_BASE;
use vm_io::NoMemory;

/// Puts a part over RAM that has those behind it.
fn put(file: &[u8], part: &Part, rest: &[Part], ram: &mut [u64])
    requires words { length ram.old ≤ 512 * 4096 }
    requires rest { IsLoaded file.now rest.now (length ram.old) ram.old }
    ensures { IsLoaded file.now (part.now ∷ rest.now) (length ram.old) ram.new }
{
    let (first, end) = words_of(part, ram.len());
    for i in first..end {
        ram[i] = word_over(file, part, rest, RAM_BASE + 8 * i as u64);
    }
}

/// RAM of so many words as the parts of a file give it: where several parts hold a byte, the first one's.
pub(crate) fn load(
    alloc: Global,
    parts: &[Part],
    file: &[u8],
    words: usize,
) -> Result<Vec<u64>, NoMemory>
    requires { words ≤ 512 * 4096 }
    ensures { IfOk result (λ ram. IsLoaded file.now parts.now words ram.items) }
{
    let Ok(mut ram) = vec![in alloc; 0u64; words] else {
        return Err(NoMemory);
    };
    for i in (0..parts.len()).rev() {
        put(file, &parts[i], &parts[i + 1..], ram.as_mut_slice());
    }
    Ok(ram)
}
