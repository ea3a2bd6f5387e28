// Words that were decoded. An entry is found by where its word stands and known by the word itself, so no store in RAM makes one wrong.
ghost use Rattle.std.specs.Prelude.{◌≡◌, ◌<◌, IsTrue, None, false, length, replicate, slice_index};
ghost use Rattle.rv64_decode.specs.declared.instruction.Instr.TheVariants.{Ecall as TheEcall};
ghost use Rattle.word_cache.specs.Cached.{AreDecoded, DecodesOnly, first_entries};

use rv64_decode::{Instr, decode};
use std::marker::Model;

/// How many words are kept.
const ENTRIES: usize = 256;

/// The words that were decoded last, by where they stand, and their instructions.
#[derive(Drop)]
pub struct WordCache {
    words: [u32; 256],
    instrs: [Instr; 256],
}

impl Model for WordCache {
    ghost use Rattle.word_cache.specs.Cached.{Entries, IsCache, words_view};

    ghost Value = { Entries };

    ghost view = { words_view };

    ghost invariant = { IsCache };
}

fn first_words() -> [u32; 256]
    ensures { result ≡ replicate 256 0x73 }
{
    [0x73; 256]
}

fn first_instrs() -> [Instr; 256]
    ensures { result ≡ replicate 256 TheEcall }
{
    [Instr::Ecall; 256]
}

/// Keeps a word that is decoded anew; false where it is no instruction.
#[inline(never)]
fn keep(words: &mut [u32], instrs: &mut [Instr], index: usize, word: u32) -> bool
    requires words { index < length words.old }
    requires instrs { length words.old ≡ length instrs.old }
    requires all { AreDecoded words.old instrs.old }
    ensures none { result ≡ false → DecodesOnly word None }
    ensures word { IsTrue result → slice_index words.new index ≡ word }
    ensures all { AreDecoded words.new instrs.new }
    ensures words { length words.new ≡ length words.old }
    ensures instrs { length instrs.new ≡ length instrs.old }
{
    let Some(instr) = decode(word) else {
        return false;
    };
    words[index] = word;
    instrs[index] = instr;
    true
}

impl WordCache {
    /// With no word of the guest yet: each entry has the word of ECALL.
    pub fn new() -> WordCache
        ensures { result ≡ first_entries }
    {
        // no other instruction has that word
        let _only = decode(0x73);
        WordCache {
            words: first_words(),
            instrs: first_instrs(),
        }
    }

    /// The instruction of a word that stands at this address; `None` where the word is none.
    #[inline]
    pub fn find(&mut self, word: u32, address: u64) -> Option<Instr>
        ensures { DecodesOnly word result }
    {
        let index = (address / 4) as usize % ENTRIES;
        let known = self.words[index] == word;
        if !known && !keep(&mut self.words, &mut self.instrs, index, word) {
            return None;
        }
        Some(self.instrs[index])
    }
}
