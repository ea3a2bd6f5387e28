// The reference machine on one thread: each turn is one turn of the plain run.
ghost use Rattle.std.specs.Prelude.{All, vec_len, None, ◌≤◌, replicate, ◌≡◌, ◌<◌, ◌%◌, length, IsNone, IsSome, IfOk};
ghost use Rattle.elf_load.specs.ImageOf.{IsImageOf};
ghost use Rattle.step_laws.specs.Layout.{IsInLimits};
ghost use Rattle.machine_model.specs.State.{initial};
ghost use Rattle.ref_machine.specs.PlainState as plain;
ghost use Rattle.ref_machine.specs.OneTurn as one;
ghost use Rattle.ref_machine.specs.Paths.{AreWalks};
ghost use Rattle.ref_machine.specs.Ran.{Ran};
ghost use Rattle.ref_machine.specs.Shows.{Shows, Turned};
ghost use Rattle.machine_model.specs.Image.{setup_of};

use crate::calling::take_call;
use crate::decoder::Decoder;
use crate::hart::HartSlot;
use crate::paths::Walks;
use crate::running::run;
use crate::shared::Shared;
use crate::step::step;
use elf_load::Image;
use machine_model::{Mode, Reason};
use rv64_exec::{Arch, Regime};
use std::alloc::Global;
use std::marker::Model;
use step_laws::Layout;
use vm_io::NoMemory;

/// The machine: its harts, and what they share.
#[derive(Drop)]
pub struct PlainMachine {
    pub(crate) slots: Vec<HartSlot>,
    pub(crate) shared: Shared,
    decoder: Decoder,
    walks: Vec<Walks>,
}

impl Model for PlainMachine {
    ghost use Rattle.ref_machine.specs.PlainState.{PlainState, state_view, IsKept};

    ghost Value = { PlainState };

    ghost view = { state_view };

    ghost invariant = { IsKept };
}

/// The harts as a machine first has them: hart 0 is started at this address, all others are stopped.
#[tactic(auto, using(crate::proofs::First::slots_more))]
fn first_slots(alloc: Global, harts: u8, start: u64) -> Result<Vec<HartSlot>, NoMemory>
    requires some { 0 < harts }
    requires aligned { start % 4 ≡ 0 }
    ensures { IfOk result (λ slots. slots.items ≡ plain.first_slots harts start) }
{
    let Ok(mut slots) = Vec::with_capacity(alloc, usize::from(harts)) else {
        return Err(NoMemory);
    };
    let _first = slots.push(HartSlot::new(Mode::Started, start));
    for _hart in 1..harts {
        let _pushed = slots.push(HartSlot::new(Mode::Halted, 0));
    }
    Ok(slots)
}

/// No walks of any hart yet.
fn first_walks(alloc: Global, harts: u8) -> Result<Vec<Walks>, NoMemory>
    ensures len { IfOk result (λ walks. vec_len walks ≡ harts) }
    ensures kept { IfOk result (λ walks. All AreWalks walks.items) }
{
    let none = Walks::new(
        0,
        Regime {
            satp: 0,
            user: false,
            sum: false,
            mxr: false,
        },
    );
    let Ok(mut walks) = Vec::with_capacity(alloc, usize::from(harts)) else {
        return Err(NoMemory);
    };
    for _hart in 0..harts {
        let _pushed = walks.push(none);
    }
    Ok(walks)
}

impl PlainMachine {
    /// A machine at its first state, with room for all that it may print.
    pub fn new(
        alloc: Global,
        image: &Image,
        file: &[u8],
        layout: Layout,
        limit: u64,
    ) -> Result<PlainMachine, NoMemory>
        requires layout { IsInLimits layout }
        requires image { IsImageOf file.now layout.pages image.now }
        requires limit { 0 < limit }
        ensures first { IfOk result (λ machine. Shows (setup_of layout file.now image.now limit) machine (initial (setup_of layout file.now image.now limit))) }
    {
        let shared = Shared::new(alloc, image, file, layout, limit)?;
        let slots = first_slots(alloc, layout.harts, image.start)?;
        let decoder = Decoder::new(alloc)?;
        let walks = first_walks(alloc, layout.harts)?;
        Ok(PlainMachine {
            slots,
            shared,
            decoder,
            walks,
        })
    }

    /// What was printed.
    pub fn console(&self) -> &[u8]
        ensures { result.now ≡ self.now.shared.console }
    {
        self.shared.console.as_slice()
    }

    /// How many harts it has.
    pub fn harts(&self) -> u8
        ensures harts { result ≡ self.now.shared.layout.harts }
        ensures slots { length self.now.slots ≡ self.now.shared.layout.harts }
    {
        self.shared.layout.harts
    }

    /// A hart's registers.
    pub fn arch(&self, hart: u8) -> &Arch
        requires { hart < self.now.shared.layout.harts }
        ensures { result.now ≡ (plain.slot self.now hart).arch }
    {
        &self.slots[usize::from(hart)].arch
    }

    /// How many instructions a hart has retired or trapped on.
    pub fn count(&self, hart: u8) -> u64
        requires { hart < self.now.shared.layout.harts }
        ensures { result ≡ (plain.slot self.now hart).count }
    {
        self.slots[usize::from(hart)].count
    }

    /// Why the machine ended, once it has.
    #[inline]
    fn reason(&self) -> Option<Reason>
        ensures reason { result ≡ self.now.shared.reason }
        ensures slots { length self.now.slots ≡ self.now.shared.layout.harts }
    {
        self.shared.reason
    }

    /// One turn of a hart; answers why the machine ended, once it has. From then on a turn changes nothing.
    #[inline]
    pub fn turn(&mut self, hart: u8) -> Option<Reason>
        requires { hart < self.old.shared.layout.harts }
        ensures turned { Turned hart self.old self.new }
        ensures reason { result ≡ self.new.shared.reason }
        ensures layout { self.new.shared.layout ≡ self.old.shared.layout }
        ensures over { IsSome self.old.shared.reason → self.new ≡ self.old }
    {
        if let Some(reason) = self.reason() {
            return Some(reason);
        }
        self.take_turn(hart);
        self.reason()
    }

    /// Takes up to so many turns of a hart where the machine goes on, and still goes on behind them; answers how many.
    pub fn run(&mut self, hart: u8, most: u64) -> u64
        requires there { hart < self.old.shared.layout.harts }
        requires going { self.old.shared.reason ≡ None }
        ensures most { result ≤ most }
        ensures ran { Ran (replicate result hart) self.old self.new }
        ensures layout { self.new.shared.layout ≡ self.old.shared.layout }
        ensures going { self.new.shared.reason ≡ None }
    {
        let index = usize::from(hart);
        match self.slots[index].mode {
            Mode::Halted | Mode::Pending => 0,
            Mode::Started => run(
                hart,
                &mut self.slots[index],
                &mut self.shared,
                &mut self.decoder,
                &mut self.walks[index],
                most,
            ),
        }
    }

    /// A turn of a hart where the machine goes on.
    #[inline]
    fn take_turn(&mut self, hart: u8)
        requires there { hart < self.old.shared.layout.harts }
        requires going { IsNone self.old.shared.reason }
        ensures turn { one.IsTurn hart self.old self.new (plain.slot self.old hart).mode }
        ensures layout { self.new.shared.layout ≡ self.old.shared.layout }
    {
        let index = usize::from(hart);
        match self.slots[index].mode {
            Mode::Halted => {}
            Mode::Pending => self.slots[index].begin(hart),
            Mode::Started => {
                let called = step(
                    hart,
                    &mut self.slots[index],
                    &mut self.shared,
                    &mut self.decoder,
                );
                if let Some(instr) = called {
                    take_call(hart, self.slots.as_mut_slice(), &mut self.shared, &instr);
                }
            }
        }
    }
}
