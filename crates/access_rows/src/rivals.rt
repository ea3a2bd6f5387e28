// A port beside another hart, which stores a word right before an exchange.
ghost use Rattle.std.specs.Prelude.{◌≡◌, ◌≤◌, IsTrue};
ghost use Rattle.guest_ram.specs.Areas.{AnyWord, IsOfRam};
ghost use Rattle.guest_ram.specs.Ports.{GoesBy, layout_of};
ghost use Rattle.guest_ram.specs.Shown.{pass_shown};
ghost use Rattle.guest_ram_cases.specs.Tours.{IsFresh, IsSameSeat};
ghost use Rattle.access_rows.specs.Ready.{IsRival};

use guest_ram::{Look, Pass, Port};
use guest_ram_cases::{enter, mark};
use step_laws::{Layout, ram_word_at};

/// A hart's pass, and that of hart 1, which stores a value in the word of RAM at 0x80020000 right before so many exchanges of it.
#[derive(Drop)]
pub(crate) struct Racing<'t> {
    pub pass: Pass<'t>,
    pub rival: Pass<'t>,
    pub value: u64,
    pub left: u8,
    ghost ready: { IsRival (pass_shown rival) },
    ghost beside: { (pass_shown rival).machine ≡ (pass_shown pass).machine },
}

/// Marks the page of the word, and enters. `false`: another is in its section.
pub fn arm<P: Port>(port: &mut P) -> bool
    requires fresh { IsFresh (P.shows port.old) }
    requires one { (P.shows port.old).own.actor ≡ 1 }
    requires harts { 2 ≤ (layout_of (P.shows port.old)).harts }
    ensures rival { IsTrue result → IsRival (P.shows port.new) }
    ensures goes { GoesBy 4 AnyWord (P.shows port.old) (P.shows port.new) }
    ensures seat { IsSameSeat (P.shows port.old) (P.shows port.new) }
{
    mark(port, 32);
    match enter(port) {
        Ok(()) => true,
        Err(_) => false,
    }
}

/// Stores the value where an exchange is of the word, and a store is left.
pub fn strike<P: Port>(port: &mut P, exchanged: u32, value: u64, left: &mut u8)
    requires rival { IsRival (P.shows port.old) }
    ensures rival { IsRival (P.shows port.new) }
    ensures left { left.new ≤ left.old }
    ensures goes { GoesBy 1 IsOfRam (P.shows port.old) (P.shows port.new) }
    ensures seat { IsSameSeat (P.shows port.old) (P.shows port.new) }
{
    let word = ram_word_at(0x2_0000 / 8);
    if exchanged != word || *left == 0 {
        return;
    }
    *left -= 1;
    port.store(word, value);
}

impl Look for Racing<'_> {
    ghost use Rattle.guest_ram.specs.Shown.{pass_shown};

    ghost shows = { λ r. pass_shown r.pass };

    fn look(&mut self, word: u32) -> u64 {
        self.pass.look(word)
    }
}

impl Port for Racing<'_> {
    fn layout(&self) -> Layout {
        self.pass.layout()
    }

    fn actor(&self) -> u8 {
        self.pass.actor()
    }

    fn load(&mut self, word: u32) -> u64 {
        self.pass.load(word)
    }

    fn store(&mut self, word: u32, value: u64) {
        self.pass.store(word, value)
    }

    fn swap(&mut self, word: u32, value: u64) -> u64 {
        self.pass.swap(word, value)
    }

    fn fetch_add(&mut self, word: u32, value: u64) -> u64 {
        self.pass.fetch_add(word, value)
    }

    fn fetch_and(&mut self, word: u32, value: u64) -> u64 {
        self.pass.fetch_and(word, value)
    }

    fn fetch_or(&mut self, word: u32, value: u64) -> u64 {
        self.pass.fetch_or(word, value)
    }

    fn fetch_xor(&mut self, word: u32, value: u64) -> u64 {
        self.pass.fetch_xor(word, value)
    }

    fn fetch_min(&mut self, word: u32, value: u64) -> u64 {
        self.pass.fetch_min(word, value)
    }

    fn fetch_max(&mut self, word: u32, value: u64) -> u64 {
        self.pass.fetch_max(word, value)
    }

    /// Lets the other hart go first.
    fn compare_exchange(&mut self, word: u32, old: u64, new: u64) -> u64 {
        strike(&mut self.rival, word, self.value, &mut self.left);
        self.pass.compare_exchange(word, old, new)
    }
}
