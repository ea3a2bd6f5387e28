// A table of plain atomic words: for each of 64 slots a compare word and the page.
ghost use Rattle.std.specs.Prelude.{◌≡◌, length};

use std::alloc::{AllocError, Global};
use std::sync::atomic::AtomicU64;
use std::sync::atomic::Ordering::SeqCst;

const SLOTS: usize = 64;

/// How many lookups a round makes, 64 of each page.
const LOOKUPS: u64 = 4096;

fn found(words: &[AtomicU64], rounds: u32) -> u64
    requires { length words.now ≡ 256 }
{
    let mut sum = 0u64;
    for _ in 0..rounds {
        for index in 0..LOOKUPS {
            let va = index * 64;
            let slot = (va / 4096 % 64) as usize;
            let compare = words[4 * slot].load(SeqCst);
            if compare % 2 == 0 && compare / 4096 == va / 4096 && compare / 8 % 2 == 0 {
                let page = words[4 * slot + 3].load(SeqCst);
                sum = sum.wrapping_add(page).wrapping_add(va % 4096);
            }
        }
    }
    sum
}

/// The sum of what was found in all rounds.
pub(crate) fn sum(alloc: Global, rounds: u32) -> Result<u64, AllocError> {
    let mut words = Vec::with_capacity(alloc, 4 * SLOTS)?;
    for index in 0..4 * SLOTS as u64 {
        let page = index / 4 * 4096;
        words.push(AtomicU64::new(if index % 4 == 3 {
            0x8000_0000 + page
        } else {
            page
        }))?;
    }
    Ok(found(words.as_slice(), rounds))
}
