// A port of the tests' own over a pass: it counts the steps and hands them on, and lets another go first where an exchange is to be made.
ghost use Rattle.std.specs.Prelude.{◌≡◌};
ghost use Rattle.guest_ram.specs.Shown.{pass_shown};

use guest_ram::{Look, Pass, Port};
use std::marker::{Brand, PhantomData};
use step_laws::Layout;

/// Of which machine and which actor a pass is: no turn changes that.
pub(crate) trait Seated {
    ghost use Rattle.std.specs.Prelude.{ℕ};
    ghost use Rattle.guest_ram.specs.Ports.{Machine};

    ghost machine: { Machine };

    ghost actor: { ℕ };
}

impl Seated for Brand {
    ghost use Rattle.turn_rows.specs.Machines.{no_machine};

    ghost machine = { no_machine };

    ghost actor = { 0 };
}

/// What stands beside a port.
pub(crate) trait Aside {
    /// The port is about to exchange this word.
    fn before_exchange(&mut self, word: u32);
}

/// Nobody.
#[derive(Drop)]
pub(crate) struct Nobody;

impl Aside for Nobody {
    fn before_exchange(&mut self, _word: u32) {}
}

/// A pass, how many steps were made by it, and what stands beside it.
#[derive(Drop)]
pub(crate) struct Tried<'t, J: Seated, A> {
    pub pass: Pass<'t>,
    pub aside: A,
    pub steps: u64,
    pub seat: PhantomData<J>,
    ghost machine: { (pass_shown pass).machine ≡ J.machine },
    ghost actor: { (pass_shown pass).own.actor ≡ J.actor },
}

impl<'t, J: Seated, A: Aside> Tried<'t, J, A> {
    /// Counts a step.
    fn count(&mut self)
        ensures { self.new.pass ≡ self.old.pass }
    {
        self.steps = self.steps.wrapping_add(1);
    }
}

impl<'t, J: Seated, A: Aside> Look for Tried<'t, J, A> {
    ghost use Rattle.guest_ram.specs.Shown.{pass_shown};

    ghost shows = { λ r. pass_shown r.pass };

    fn look(&mut self, word: u32) -> u64 {
        self.count();
        self.pass.look(word)
    }
}

impl<'t, J: Seated, A: Aside> Port for Tried<'t, J, A> {
    fn layout(&self) -> Layout {
        self.pass.layout()
    }

    fn actor(&self) -> u8 {
        self.pass.actor()
    }

    fn load(&mut self, word: u32) -> u64 {
        self.count();
        self.pass.load(word)
    }

    fn store(&mut self, word: u32, value: u64) {
        self.count();
        self.pass.store(word, value)
    }

    fn swap(&mut self, word: u32, value: u64) -> u64 {
        self.count();
        self.pass.swap(word, value)
    }

    fn fetch_add(&mut self, word: u32, value: u64) -> u64 {
        self.count();
        self.pass.fetch_add(word, value)
    }

    fn fetch_and(&mut self, word: u32, value: u64) -> u64 {
        self.count();
        self.pass.fetch_and(word, value)
    }

    fn fetch_or(&mut self, word: u32, value: u64) -> u64 {
        self.count();
        self.pass.fetch_or(word, value)
    }

    fn fetch_xor(&mut self, word: u32, value: u64) -> u64 {
        self.count();
        self.pass.fetch_xor(word, value)
    }

    fn fetch_min(&mut self, word: u32, value: u64) -> u64 {
        self.count();
        self.pass.fetch_min(word, value)
    }

    fn fetch_max(&mut self, word: u32, value: u64) -> u64 {
        self.count();
        self.pass.fetch_max(word, value)
    }

    fn compare_exchange(&mut self, word: u32, old: u64, new: u64) -> u64 {
        self.count();
        self.aside.before_exchange(word);
        self.pass.compare_exchange(word, old, new)
    }
}
