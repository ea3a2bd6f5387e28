// Words that were decoded. An entry is found by where its word stands and known by the word itself, so no store in RAM
// makes one wrong.
ghost use Rattle.std.specs.Prelude.{◌≡◌, ◌<◌, IfOk, IsTrue, None, false, length};
ghost use Rattle.std.specs.Option.{option_copied};
ghost use Rattle.ref_machine.specs.Decoded as decoded;

use rv64_decode::{Instr, decode};
use std::alloc::Global;
use std::marker::Model;
use vm_io::NoMemory;

/// How many words are kept.
const ENTRIES: usize = 1024;

/// The word of ECALL, which each entry has at first.
const FIRST: u32 = 0x73;

/// A word and its instruction.
#[derive(Clone, Copy)]
pub(crate) struct DecodedWord {
    pub word: u32,
    pub instr: Instr,
}

/// The words that were decoded last.
#[derive(Drop)]
pub(crate) struct Decoder {
    entries: Vec<DecodedWord>,
}

impl Model for Decoder {
    ghost use Rattle.std.specs.Prelude.{List};
    ghost use Rattle.ref_machine.specs.Decoded.{words_view, IsCache};
    ghost use Rattle.ref_machine.specs.declared.decoder.DecodedWord.{DecodedWord as TheWord};

    ghost Value = { List TheWord };

    ghost view = { words_view };

    ghost invariant = { IsCache };
}

fn first_entry() -> DecodedWord
    ensures { decoded.IsDecodedWord result }
{
    let instr = match decode(FIRST) {
        Some(instr) => instr,
        None => Instr::Ecall,
    };
    DecodedWord { word: FIRST, instr }
}

#[tactic(auto, using(crate::proofs::Decoding::entries_first))]
fn first_entries(alloc: Global) -> Result<Vec<DecodedWord>, NoMemory>
    ensures len { IfOk result (λ entries. length entries.items ≡ 1024) }
    ensures all { IfOk result (λ entries. decoded.AreDecodedWords entries.items) }
{
    let entry = first_entry();
    let Ok(mut entries) = Vec::with_capacity(alloc, ENTRIES) else {
        return Err(NoMemory);
    };
    for _ in 0..ENTRIES {
        let _pushed = entries.push(entry);
    }
    Ok(entries)
}

/// Decodes a word anew, and keeps it; false where it is no instruction.
#[inline(never)]
fn decode_anew(entries: &mut [DecodedWord], index: usize, word: u32) -> bool
    requires there { index < length entries.old }
    requires all { decoded.AreDecodedWords entries.old }
    ensures none { result ≡ false → decoded.DecodesOnly word None }
    ensures word { IsTrue result → (decoded.entry_at entries.new index).word ≡ word }
    ensures all { decoded.AreDecodedWords entries.new }
    ensures len { length entries.new ≡ length entries.old }
{
    let Some(instr) = decode(word) else {
        return false;
    };
    entries[index] = DecodedWord { word, instr };
    true
}

impl Decoder {
    /// With no word of the guest yet.
    pub(crate) fn new(alloc: Global) -> Result<Decoder, NoMemory> {
        let entries = first_entries(alloc)?;
        Ok(Decoder { entries })
    }

    /// The instruction of a word that stands at this place; `None` where the word is none.
    #[inline(always)]
    pub(crate) fn find(&mut self, word: u32, place: u64) -> Option<&Instr>
        ensures { decoded.DecodesOnly word (option_copied result) }
    {
        let index = (place / 4) as usize % ENTRIES;
        let known = self.entries[index].word == word;
        if !known && !decode_anew(self.entries.as_mut_slice(), index, word) {
            return None;
        }
        Some(&self.entries[index].instr)
    }
}
