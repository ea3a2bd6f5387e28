// Reads a whole file into memory, piece by piece, up to a fixed length.
ghost use Rattle.std.specs.Prelude.{◌≡◌, ℕ, ◌<◌, ◌≤◌, List, length, vec_len, IfOk, IfSome, IsErrOf};
ghost use Rattle.vm_io.specs.Faults.{Rose};
ghost use Rattle.vm_io.specs.declared.read.ReadErr.TheVariants as read_err;

use crate::errors::Failed;
use crate::images::Images;
use std::alloc::{AllocError, Global};
use thiserror::Error;

/// The longest file that is read, in bytes: 64 MiB.
pub const MAX_FILE: usize = 67_108_864;

// How many bytes are asked for at once.
const PIECE: usize = 65_536;

/// Why a file was not read whole.
#[derive(Clone, Copy, Debug, PartialEq, Eq, Error)]
pub enum ReadErr {
    #[error("the file could not be read")]
    ReadFault,
    #[error("the file has more than 67108864 bytes")]
    TooLong,
    #[error("out of memory")]
    NoMemory,
}

impl From<Failed> for ReadErr {
    ghost from_gives = { λ _ error. error ≡ read_err.ReadFault };

    fn from(_failed: Failed) -> ReadErr {
        ReadErr::ReadFault
    }
}

impl From<AllocError> for ReadErr {
    ghost from_gives = { λ _ error. error ≡ read_err.NoMemory };

    fn from(_refused: AllocError) -> ReadErr {
        ReadErr::NoMemory
    }
}

/// Reads the whole file `name`, in pieces of 65,536 bytes.
///
/// # Errors
///
/// `ReadFault` where a read failed, `TooLong` where byte number 67,108,865 was read, and
/// `NoMemory` where memory for a piece or for the bytes read so far was refused.
pub fn read_all<F: Images>(alloc: Global, images: &mut F, name: &str) -> Result<Vec<u8>, ReadErr>
    ensures whole { IfOk result
        (λ file. IfSome (F.told images.old name.now) (λ bytes. file.items ≡ bytes)) }
    ensures within { IfOk result (λ file. vec_len file ≤ MAX_FILE) }
    ensures fault { IsErrOf result ReadErr.ReadFault →
        Rose (F.faults images.old name.now) (F.faults images.new name.now) }
    ensures too_long { IsErrOf result ReadErr.TooLong →
        IfSome (F.told images.old name.now) (λ bytes. MAX_FILE < length bytes) }
    ensures grows { (other : List ℕ) → F.faults images.old other ≤ F.faults images.new other }
    ensures same { (other : List ℕ) → F.told images.new other ≡ F.told images.old other }
{
    let mut buffer = zeros(alloc, PIECE)?;
    let piece = buffer.as_mut_slice();
    let mut file = Vec::new(alloc);
    loop {
        let count = images.read_at(name, file.len() as u64, piece)?;
        if count == 0 {
            return Ok(file);
        }
        if count > MAX_FILE - file.len() {
            return Err(ReadErr::TooLong);
        }
        file.extend_from_slice(&piece[..count])?;
    }
}

// Room for a piece, made once and written over by each read.
fn zeros(alloc: Global, count: usize) -> Result<Vec<u8>, AllocError>
    ensures { IfOk result (λ room. vec_len room ≡ count) }
{
    vec![in alloc; 0u8; count]
}
