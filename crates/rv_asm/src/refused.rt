// Why no bytes are added.
ghost use Rattle.std.specs.Prelude.{◌≡◌};
ghost use Rattle.rv_asm.specs.Found.{or_no_memory};

use asm_text::Fault;
use std::alloc::AllocError;

#[derive(Clone, Copy, Debug, PartialEq, Eq)]
pub(crate) enum Refused {
    Faulty { fault: Fault },
    NoMemory,
}

/// Bytes were added, or there was no memory.
pub(crate) fn or_no_memory(added: Result<(), AllocError>) -> Result<(), Refused>
    ensures { result ≡ or_no_memory added }
{
    match added {
        Ok(()) => Ok(()),
        Err(_) => Err(Refused::NoMemory),
    }
}
