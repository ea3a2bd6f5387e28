// Bytes of RAM.
ghost use Rattle.std.specs.Prelude.{◌≡◌, ◌+◌, ◌++◌, ◌<◌, ◌≤◌, ◌/◌, ◌%◌, ◌^◌, ℕ, false, vec_capacity, vec_len};
ghost use Rattle.step_laws.specs.Words.{ram_word};
ghost use Rattle.machine_model.specs.Memory.{Memory};
ghost use Rattle.machine_model.specs.Sbi.{bytes_from};
ghost use Rattle.guest_ram.specs.Ports.{GoesBy};
ghost use Rattle.hart_calls.specs.Printing.{HasLoaded, HasLoadedIf, MayPrint as MayRead, begins_word};
ghost use Rattle.monitor.specs.Reads.{most_loads, one_if};
ghost use Rattle.monitor.specs.Steps.{HasRead, IsRam};

use guest_ram::Port;
use step_laws::ram_word;

/// Loads the word of RAM that has this byte.
fn load_at<P: Port>(port: &mut P, pa: u64) -> u64
    requires { MayRead pa 1 (P.shows port.old) }
    ensures loaded { (finds : Memory) → finds (ram_word pa) ≡ result → HasLoaded finds pa (P.shows port.old) (P.shows port.new) }
    ensures may { (from count : ℕ) → MayRead from count (P.shows port.old) → MayRead from count (P.shows port.new) }
    ensures goes { GoesBy 1 IsRam (P.shows port.old) (P.shows port.new) }
{
    port.load(ram_word(pa))
}

/// The byte of a word at its physical address.
fn byte_of(word: u64, pa: u64) -> u8
    ensures { result ≡ word / 256 ^ (pa % 8) % 256 }
{
    word.to_le_bytes()[(pa % 8) as usize]
}

/// The word that has the byte with this number: `word`, that of the byte before it, or loaded where it begins with this byte.
fn word_at<P: Port>(port: &mut P, from: u64, count: u64, index: u64, word: u64) -> u64
    requires may { MayRead from count (P.shows port.old) }
    requires index { index < count }
    ensures loaded { (finds : Memory) → finds (ram_word (from + index)) ≡ result → HasLoadedIf (begins_word from index) finds (from + index) (P.shows port.old) (P.shows port.new) }
    ensures kept { begins_word from index ≡ false → result ≡ word }
    ensures may { MayRead from count (P.shows port.new) }
    ensures goes { GoesBy (one_if (begins_word from index)) IsRam (P.shows port.old) (P.shows port.new) }
{
    let pa = from + index;
    if index == 0 || pa % 8 == 0 {
        load_at(port, pa)
    } else {
        word
    }
}

/// Adds so many bytes of RAM from an address on, where there is room for them.
pub(crate) fn read_bytes<P: Port>(bytes: &mut Vec<u8>, port: &mut P, from: u64, count: u16)
    requires may { MayRead from count (P.shows port.old) }
    requires room { vec_len bytes.old + count ≤ vec_capacity bytes.old }
    ensures read { (finds : Memory) × HasRead finds from count (P.shows port.old) (P.shows port.new) × (bytes.new.items ≡ bytes.old.items ++ bytes_from finds from count) }
    ensures len { vec_len bytes.new ≡ vec_len bytes.old + count }
    ensures capacity { vec_capacity bytes.new ≡ vec_capacity bytes.old }
    ensures may { MayRead from count (P.shows port.new) }
    ensures goes { GoesBy (most_loads from count) IsRam (P.shows port.old) (P.shows port.new) }
{
    let mut word = 0;
    for index in 0..u64::from(count) {
        word = word_at(port, from, u64::from(count), index, word);
        bytes.push_reserved(byte_of(word, from + index));
    }
}
