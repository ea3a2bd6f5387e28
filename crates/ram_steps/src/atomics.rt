// Plain atomic words.
ghost use Rattle.std.specs.Prelude.{◌≡◌, length};

use std::alloc::{AllocError, Global};
use std::sync::atomic::AtomicU64;
use std::sync::atomic::Ordering::SeqCst;

const WORDS: usize = 4096;

fn loaded(words: &[AtomicU64], rounds: u32) -> u64
    requires { length words.now ≡ 4096 }
{
    let mut sum = 0u64;
    for _ in 0..rounds {
        for index in 0..WORDS {
            sum = sum.wrapping_add(words[index].load(SeqCst));
        }
    }
    sum
}

fn stored(words: &[AtomicU64], rounds: u32) -> u64
    requires { length words.now ≡ 4096 }
{
    for round in 0..rounds {
        for index in 0..WORDS {
            words[index].store(u64::from(round), SeqCst);
        }
    }
    0
}

/// The sum of what was found in all rounds.
pub(crate) fn sum(alloc: Global, rounds: u32, stores: bool) -> Result<u64, AllocError> {
    let mut words = Vec::with_capacity(alloc, WORDS)?;
    for _ in 0..WORDS {
        words.push(AtomicU64::new(0))?;
    }
    Ok(if stores {
        stored(words.as_slice(), rounds)
    } else {
        loaded(words.as_slice(), rounds)
    })
}
