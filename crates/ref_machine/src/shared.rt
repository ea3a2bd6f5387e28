// What all harts share: memory, devices, and what ends the machine.
ghost use Rattle.std.specs.Prelude.{IfOk};
ghost use Rattle.elf_load.specs.ImageOf.{IsImageOf};
ghost use Rattle.step_laws.specs.Layout.{IsInLimits};
ghost use Rattle.ref_machine.specs.SharedState.{IsFirst};

use crate::loader::load;
use elf_load::Image;
use machine_model::Reason;
use std::alloc::Global;
use std::marker::Model;
use step_laws::{CONSOLE_PLACES, Layout};
use vm_io::NoMemory;

/// How many bytes the console takes.
pub(crate) const CONSOLE_BYTES: usize = CONSOLE_PLACES as usize;

/// RAM by words, the harts' bits of software interrupts, the console's bytes, the limit of instructions, and the
/// first reason to end.
#[derive(Drop)]
pub(crate) struct Shared {
    pub layout: Layout,
    pub ram: Vec<u64>,
    pub ipi: u64,
    pub limit: u64,
    pub console: Vec<u8>,
    pub reason: Option<Reason>,
}

impl Model for Shared {
    ghost use Rattle.ref_machine.specs.SharedState.{Shared as TheShared, shared_of, IsSharedKept};

    ghost Value = { TheShared };

    ghost view = { shared_of };

    ghost invariant = { IsSharedKept };
}

impl Shared {
    /// What a machine begins with: RAM as the image has it, and room for all that may be printed.
    pub(crate) fn new(
        alloc: Global,
        image: &Image,
        file: &[u8],
        layout: Layout,
        limit: u64,
    ) -> Result<Shared, NoMemory>
        requires layout { IsInLimits layout }
        requires image { IsImageOf file.now layout.pages image.now }
        ensures { IfOk result (λ shared. IsFirst file.now image.now layout limit shared) }
    {
        let ram = load(
            alloc,
            image.parts.as_slice(),
            file,
            512 * layout.pages as usize,
        )?;
        let Ok(console) = Vec::with_capacity(alloc, CONSOLE_BYTES) else {
            return Err(NoMemory);
        };
        Ok(Shared {
            layout,
            ram,
            ipi: 0,
            limit,
            console,
            reason: None,
        })
    }
}
