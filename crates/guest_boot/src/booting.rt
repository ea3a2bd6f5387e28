// The whole of the loader's part.
ghost use Rattle.std.specs.Prelude.{◌≡◌, ◌*◌, ◌+◌, ℕ, [], length};
ghost use Rattle.step_laws.specs.Loader.{IsBooted};
ghost use Rattle.guest_ram.specs.Ports.{layout_of, IsBooting, GoesBy};
ghost use Rattle.elf_load.specs.ImageOf.{IsImageOf};
ghost use Rattle.machine_model.specs.Image.{image_memory};
ghost use Rattle.machine_model.specs.State.{Setup};
ghost use Rattle.run_laws.specs.Boot.{IsBoot};
ghost use Rattle.guest_boot.specs.Stored.{IsOfLoader};

use crate::loading::load_parts;
use crate::words::boot_words;
use elf_load::Image;
use guest_ram::Port;

/// Stores in a new machine's words what it begins with: the image's bytes in RAM, hart 0 running and the other harts stopped, and empty TLBs
/// of 64 slots. Behind it seats may be split off. `file` is the file that the image was read from, for a machine of no more pages than this one.
pub fn boot<P: Port>(port: &mut P, image: &Image, file: &[u8])
    requires booting { IsBooting (P.shows port.old) }
    requires fresh { (P.shows port.old).own.steps ≡ [] }
    requires image { IsImageOf file.now (layout_of (P.shows port.old)).pages image.now }
    ensures booting { IsBooting (P.shows port.new) }
    ensures booted { IsBooted (layout_of (P.shows port.new)) (P.shows port.new).own.steps }
    ensures begins { (u : Setup) → u.layout ≡ (layout_of (P.shows port.old)) → ((n : ℕ) → u.image n ≡ image_memory file.now image.now.parts n) → IsBoot u (P.shows port.new).own.steps }
    ensures goes { GoesBy (1745 + 512 * (layout_of (P.shows port.old)).pages * length image.now.parts) IsOfLoader (P.shows port.old) (P.shows port.new) }
{
    boot_words(port);
    load_parts(port, file, image.parts.as_slice());
}
