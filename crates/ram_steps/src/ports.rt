// Words of a machine's table.
ghost use Rattle.std.specs.Prelude.{◌≡◌, ◌<◌};
ghost use Rattle.step_laws.specs.Sections.{phase, inside};
ghost use Rattle.guest_ram.specs.Ports.{layout_of, IsActing};

use guest_ram::{Port, open_machine};
use guest_ram_cases::{boot_words, enter, mark};
use std::alloc::{AllocError, Global};
use step_laws::{Layout, ram_word_at};

const WORDS: u32 = 4096;

const PAGES: u32 = WORDS / 512;

#[tactic(auto, using(guest_ram::proofs::MaySteps::touch_kinds, guest_ram::proofs::Moves::actor_few))]
fn loaded<P: Port>(port: &mut P, rounds: u32) -> u64
    requires acting { IsActing (P.shows port.old) }
    requires inside { phase (P.shows port.old).own.steps ≡ inside }
{
    let mut sum = 0u64;
    for _ in 0..rounds {
        for index in 0..WORDS {
            sum = sum.wrapping_add(port.load(ram_word_at(index)));
        }
    }
    sum
}

#[tactic(auto, using(guest_ram::proofs::MaySteps::touch_kinds, guest_ram::proofs::Moves::actor_few))]
fn stored<P: Port>(port: &mut P, rounds: u32) -> u64
    requires acting { IsActing (P.shows port.old) }
    requires hart { (P.shows port.old).own.actor < (layout_of (P.shows port.old)).harts }
    requires inside { phase (P.shows port.old).own.steps ≡ inside }
{
    for page in 0..PAGES {
        mark(port, page);
    }
    for round in 0..rounds {
        for index in 0..WORDS {
            port.store(ram_word_at(index), u64::from(round));
        }
    }
    0
}

/// The sum of what hart 0 finds in all rounds.
pub(crate) fn sum(alloc: Global, rounds: u32, stores: bool) -> Result<u64, AllocError> {
    let layout = Layout {
        harts: 1,
        pages: 256,
    };
    let Ok((table, seat)) = open_machine(alloc, layout) else {
        return Err(AllocError);
    };
    let mut loader = seat.pass(&table);
    boot_words(&mut loader);
    let mut pass = loader.split(0).pass(&table);
    Ok(match enter(&mut pass) {
        Ok(()) if stores => stored(&mut pass, rounds),
        Ok(()) => loaded(&mut pass, rounds),
        Err(_) => 0,
    })
}
