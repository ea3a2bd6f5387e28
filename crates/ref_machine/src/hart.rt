// A hart as the machine keeps it between two turns.
ghost use Rattle.std.specs.Prelude.{◌≡◌, ◌%◌};
ghost use Rattle.machine_model.specs.State.{reset};
ghost use Rattle.ref_machine.specs.Slots.{new_slot, slot_begun};

use machine_model::Mode;
use rv64_exec::Arch;

/// What the machine keeps of a hart: its registers, its mode, the address and the opaque value of its last accepted
/// start, and how many instructions it has retired or trapped on.
#[derive(Clone, Copy)]
pub(crate) struct HartSlot {
    pub arch: Arch,
    pub mode: Mode,
    pub start: u64,
    pub opaque: u64,
    pub count: u64,
}

/// A hart's registers as it begins: all registers and CSRs 0, supervisor mode, no translation.
fn reset(pc: u64) -> Arch
    requires { pc % 4 ≡ 0 }
    ensures { result ≡ reset pc }
{
    Arch {
        x: [0; 32],
        pc,
        user: false,
        sstatus: 0,
        sie: 0,
        stvec: 0,
        sscratch: 0,
        sepc: 0,
        scause: 0,
        stval: 0,
        satp: 0,
        hold: None,
    }
}

impl HartSlot {
    /// A hart as a machine first has it.
    pub(crate) fn new(mode: Mode, pc: u64) -> HartSlot
        requires { pc % 4 ≡ 0 }
        ensures { result ≡ new_slot mode pc }
    {
        HartSlot {
            arch: reset(pc),
            mode,
            start: 0,
            opaque: 0,
            count: 0,
        }
    }

    /// Begins at the address of its last start, with its number in a0 and the opaque value in a1.
    pub(crate) fn begin(&mut self, hart: u8)
        requires { self.old.start % 4 ≡ 0 }
        ensures { self.new ≡ slot_begun hart self.old }
    {
        self.arch = reset(self.start);
        self.arch.x[10] = u64::from(hart);
        self.arch.x[11] = self.opaque;
        self.mode = Mode::Started;
    }
}
