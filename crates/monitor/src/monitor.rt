// The monitor between two turns.
ghost use Rattle.std.specs.Prelude.{◌≡◌, ℕ, IfOk, MatchOption, [], ◌∷◌, drop};
ghost use Rattle.machine_model.specs.Memory.{Memory};
ghost use Rattle.machine_model.specs.Sbi.{bytes_from};
ghost use Rattle.guest_ram.specs.Ports.{GoesBy};
ghost use Rattle.hart_calls.specs.Printing.{MayPrint as MayRead};
ghost use Rattle.monitor_script.specs.declared.scripts.Command.{Command as TheCommand};

use crate::reading::read_bytes;
use crate::rooms::{bytes_in, dumps_in};
use guest_ram::Port;
use monitor_script::Command;
use std::alloc::Global;
use std::marker::Model;
use step_laws::NoMemory;

/// What a command came to: a dump's bytes, so many of RAM from an address on, which lie among all bytes from a place on.
#[derive(Clone, Copy, Debug, PartialEq, Eq)]
pub enum Outcome {
    Bytes { at: u64, len: u16, from: usize },
}

/// A script with its outcomes so far. Room for all of them is there from the beginning, so that no turn takes memory.
#[derive(Drop)]
pub struct Monitor {
    commands: Vec<Command>,
    next: usize,
    pub(crate) claimed: bool,
    pub(crate) rests: bool,
    outcomes: Vec<Outcome>,
    bytes: Vec<u8>,
}

impl Model for Monitor {
    ghost use Rattle.monitor.specs.Monitors.{Monitor as TheMonitor, monitor_of};
    ghost use Rattle.monitor.specs.Rooms.{HasRoom};

    ghost Value = { TheMonitor };

    ghost view = { monitor_of };

    ghost invariant = { HasRoom };
}

impl Monitor {
    ghost use Rattle.monitor.specs.Monitors.{first_monitor, past};
    ghost use Rattle.monitor.specs.Reads.{most_loads};
    ghost use Rattle.monitor.specs.Steps.{HasRead, IsRam, with_bytes};

    /// A monitor that has done nothing of these commands.
    ///
    /// # Errors
    ///
    /// Where there is no room for all their outcomes.
    pub fn new(alloc: Global, commands: Vec<Command>) -> Result<Monitor, NoMemory>
        ensures { IfOk result (λ monitor. monitor ≡ first_monitor commands.items) }
    {
        let outcomes = Vec::with_capacity(alloc, dumps_in(commands.as_slice()))?;
        let bytes = Vec::with_capacity(alloc, bytes_in(commands.as_slice()))?;
        Ok(Monitor {
            commands,
            next: 0,
            claimed: false,
            rests: false,
            outcomes,
            bytes,
        })
    }

    /// What the commands that are done came to, in their order.
    pub fn outcomes(&self) -> &[Outcome]
        ensures { result.now ≡ self.now.outcomes }
    {
        self.outcomes.as_slice()
    }

    /// The bytes of all dumps, one behind another.
    pub fn bytes(&self) -> &[u8]
        ensures { result.now ≡ self.now.bytes }
    {
        self.bytes.as_slice()
    }

    /// The command that is to be done next, or is in progress.
    pub(crate) fn command(&self) -> Option<Command>
        ensures { MatchOption result (self.now.script ≡ []) (λ command. self.now.script ≡ command ∷ drop 1 self.now.script) }
    {
        self.commands.as_slice().get(self.next).copied()
    }

    /// Goes on to the command behind the next one.
    pub(crate) fn go_past(&mut self, command: Command)
        requires { self.old.script ≡ command ∷ drop 1 self.old.script }
        ensures { self.new ≡ past self.old }
    {
        self.next += 1;
    }

    /// Does the dump that is next, inside its section: keeps the bytes, and goes on to the command behind.
    pub(crate) fn keep_bytes<P: Port>(&mut self, port: &mut P, at: u64, len: u16)
        requires may { MayRead at len (P.shows port.old) }
        requires next { self.old.script ≡ TheCommand.Dump at len ∷ drop 1 self.old.script }
        ensures kept { (finds : Memory) × HasRead finds at len (P.shows port.old) (P.shows port.new) × (self.new ≡ past (with_bytes at len (bytes_from finds at len) self.old)) }
        ensures may { MayRead at len (P.shows port.new) }
        ensures goes { GoesBy (most_loads at len) IsRam (P.shows port.old) (P.shows port.new) }
    {
        let from = self.bytes.len();
        read_bytes(&mut self.bytes, port, at, len);
        self.outcomes
            .push_reserved(Outcome::Bytes { at, len, from });
        self.next += 1;
    }
}
