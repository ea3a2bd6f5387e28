// RAM as an image gives it: the parts, the last one first.
ghost use Rattle.std.specs.Prelude.{◌≡◌, ◌*◌, ◌∷◌, [], length};
ghost use Rattle.guest_ram.specs.Ports.{layout_of, IsBooting, GoesBy};
ghost use Rattle.guest_boot.specs.Stored.{IsLoaded, IsOfImage};

use elf_load::Part;
use guest_ram::Port;
use image_words::{word_over, words_of};
use step_laws::{RAM_BASE, ram_word_at};

/// Stores the words that a part reaches, as it and those behind it give them, over those that these behind it gave.
#[tactic(auto, using(guest_ram::proofs::MaySteps::boot_kinds))]
fn load_part<P: Port>(port: &mut P, file: &[u8], part: &Part, rest: &[Part])
    requires booting { IsBooting (P.shows port.old) }
    requires rest { IsLoaded file.now rest.now (layout_of (P.shows port.old)) (P.shows port.old).own.steps }
    ensures booting { IsBooting (P.shows port.new) }
    ensures loaded { IsLoaded file.now (part.now ∷ rest.now) (layout_of (P.shows port.new)) (P.shows port.new).own.steps }
    ensures goes { GoesBy (512 * (layout_of (P.shows port.old)).pages) IsOfImage (P.shows port.old) (P.shows port.new) }
{
    let words = 512 * port.layout().pages;
    let (first, end) = words_of(part, words as usize);
    for index in first..end {
        let value = word_over(file, part, rest, RAM_BASE + 8 * index as u64);
        port.store(ram_word_at(index as u32), value);
    }
}

/// Stores the words of all parts in RAM that holds 0 everywhere.
pub(crate) fn load_parts<P: Port>(port: &mut P, file: &[u8], parts: &[Part])
    requires booting { IsBooting (P.shows port.old) }
    requires empty { IsLoaded file.now [] (layout_of (P.shows port.old)) (P.shows port.old).own.steps }
    ensures booting { IsBooting (P.shows port.new) }
    ensures loaded { IsLoaded file.now parts.now (layout_of (P.shows port.new)) (P.shows port.new).own.steps }
    ensures goes { GoesBy (512 * (layout_of (P.shows port.old)).pages * length parts.now) IsOfImage (P.shows port.old) (P.shows port.new) }
{
    for i in (0..parts.len()).rev() {
        load_part(port, file, &parts[i], &parts[i + 1..]);
    }
}
