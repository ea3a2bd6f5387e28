// Bytes that go to the console (RISC-V SBI, "Debug Console Extension" and "Legacy Extensions").
ghost use Rattle.std.specs.Prelude.{◌≡◌, ◌≢◌, ◌<◌, ◌+◌, ◌/◌, ◌%◌, ◌^◌, ℕ, IfNone, IfSome, IsTrue, false};
ghost use Rattle.step_laws.specs.Sections.{MayTouch};
ghost use Rattle.step_laws.specs.Words.{ram_word};
ghost use Rattle.machine_model.specs.Memory.{Memory};
ghost use Rattle.guest_ram.specs.Ports.{layout_of, IsActing};
ghost use Rattle.hart_calls.specs.Called.{HasWritten, HasWrittenByte};
ghost use Rattle.hart_calls.specs.Printing.{HasCopied, HasCopiedByte, HasLoaded, HasLoadedIf, HasRunOut, HasRunOutAt, MayPrint, begins_word};

use crate::outcomes::{SbiEnd, success};
use guest_devices::{put_byte, set_stop};
use guest_ram::Port;
use machine_model::Reason;
use step_laws::ram_word;

/// Loads the word of RAM that has this byte.
fn load_at<P: Port>(port: &mut P, pa: u64) -> u64
    requires { MayPrint pa 1 (P.shows port.old) }
    ensures loaded { (finds : Memory) → finds (ram_word pa) ≡ result → HasLoaded finds pa (P.shows port.old) (P.shows port.new) }
    ensures may { (from count : ℕ) → MayPrint from count (P.shows port.old) → MayPrint from count (P.shows port.new) }
{
    port.load(ram_word(pa))
}

/// The byte of a word at its physical address.
fn byte_of(word: u64, pa: u64) -> u8
    ensures { result ≡ word / 256 ^ (pa % 8) % 256 }
{
    word.to_le_bytes()[(pa % 8) as usize]
}

/// The word that has the byte with this number: `word`, that of the byte before it, or loaded where it begins with this byte.
fn word_at<P: Port>(port: &mut P, from: u64, count: u64, index: u64, word: u64) -> u64
    requires may { MayPrint from count (P.shows port.old) }
    requires index { index < count }
    ensures loaded { (finds : Memory) → finds (ram_word (from + index)) ≡ result → HasLoadedIf (begins_word from index) finds (from + index) (P.shows port.old) (P.shows port.new) }
    ensures kept { begins_word from index ≡ false → result ≡ word }
    ensures may { MayPrint from count (P.shows port.new) }
{
    let pa = from + index;
    if index == 0 || pa % 8 == 0 {
        load_at(port, pa)
    } else {
        word
    }
}

/// Puts the byte with this number, of `word` or of the word that begins with it. Answers its word; `None` where it found no place.
fn copy_byte<P: Port>(port: &mut P, from: u64, count: u64, index: u64, word: u64) -> Option<u64>
    requires may { MayPrint from count (P.shows port.old) }
    requires index { index < count }
    ensures copied { IfSome result (λ word. (finds : Memory) → finds (ram_word (from + index)) ≡ word → HasCopiedByte finds from index (P.shows port.old) (P.shows port.new)) }
    ensures kept { begins_word from index ≡ false → IfSome result (λ found. found ≡ word) }
    ensures full { IfNone result ((found : ℕ) × (begins_word from index ≡ false → found ≡ word) × ((finds : Memory) → finds (ram_word (from + index)) ≡ found → HasRunOutAt finds from index (P.shows port.old) (P.shows port.new))) }
    ensures may { MayPrint from count (P.shows port.new) }
{
    let word = word_at(port, from, count, index, word);
    match put_byte(port, byte_of(word, from + index)) {
        Ok(()) => Some(word),
        Err(_) => None,
    }
}

/// Puts so many bytes of RAM, and says whether all found a place.
fn copy_bytes<P: Port>(port: &mut P, from: u64, count: u64) -> bool
    requires { MayPrint from count (P.shows port.old) }
    ensures all { IsTrue result → (finds : Memory) × HasCopied finds from count (P.shows port.old) (P.shows port.new) }
    ensures full { result ≡ false → (finds : Memory) × HasRunOut finds from count (P.shows port.old) (P.shows port.new) }
    ensures acting { IsActing (P.shows port.new) }
{
    let mut word = 0;
    for index in 0..count {
        match copy_byte(port, from, count, index, word) {
            Some(found) => word = found,
            None => return false,
        }
    }
    true
}

/// Prints bytes of RAM in the section. Where one finds no place, the machine ends.
pub(crate) fn print_bytes<P: Port>(port: &mut P, from: u64, count: u64, section: bool) -> SbiEnd
    requires { count ≢ 0 → MayPrint from count (P.shows port.old) }
    ensures { HasWritten (P.shows port.old) (P.shows port.new) from count result section }
{
    if count == 0 {
        return success(0);
    }
    if !section {
        return SbiEnd::NeedsSection;
    }
    if copy_bytes(port, from, count) {
        success(count)
    } else {
        set_stop(port, Reason::OutFull);
        SbiEnd::Over(Reason::OutFull)
    }
}

/// Prints one byte, and answers so. Where it finds no place, the machine ends.
pub(crate) fn print_byte<P: Port>(port: &mut P, byte: u8, answer: SbiEnd) -> SbiEnd
    requires acting { IsActing (P.shows port.old) }
    requires touch { MayTouch (layout_of (P.shows port.old)) (P.shows port.old).own.actor (P.shows port.old).own.steps }
    ensures { HasWrittenByte (P.shows port.old) (P.shows port.new) byte answer result }
{
    match put_byte(port, byte) {
        Ok(()) => answer,
        Err(_) => {
            set_stop(port, Reason::OutFull);
            SbiEnd::Over(Reason::OutFull)
        }
    }
}
