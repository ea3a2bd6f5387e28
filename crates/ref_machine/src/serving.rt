// What the machine does for a need that memory or a device answers.
ghost use Rattle.std.specs.Prelude.{None, false, ◌≡◌, ◌<◌, ◌≤◌, ◌%◌, ◌∷◌, [], length, IsTrue, IfSome};
ghost use Rattle.rv64_exec.specs.Widths.{is_width};
ghost use Rattle.rv64_exec.specs.declared.needs.Answer.{Answer as TheAnswer};
ghost use Rattle.rv64_priv.specs.declared.state.Kind.{Kind as TheKind};
ghost use Rattle.rv64_priv.specs.Bits.{is_set};
ghost use Rattle.ref_machine.specs.SharedState.{ram_memory};
ghost use Rattle.ref_machine.specs.OneTurn as one;
ghost use Rattle.machine_model.specs.Perform as perform;
ghost use Rattle.machine_model.specs.Device as device;
ghost use Rattle.ref_machine.specs.Translation.{reached_as, IsInside};
ghost use Rattle.ref_machine.specs.Given.{printed_answer, load_answer, store_answer, store_reason};

use crate::shared::{CONSOLE_BYTES, Shared};
use crate::translation::{Fault, Reach, reach_of};
use machine_model::{
    DeviceStore, Reason, device_stored, device_value, extended, number_in, number_over, replace_in,
    replace_over,
};
use rv64_exec::{Arch, IpiOp, Kind};
use rv64_priv::{access_fault, is_set, is_untranslated};
use step_laws::RAM_BASE;

impl Shared {
    /// Where the bytes of an access lie.
    #[inline(always)]
    fn reach(&self, arch: &Arch, kind: Kind, va: u64, width: u8) -> Reach
        requires { IsTrue (is_width width) }
        ensures reach { reached_as width result ≡ one.reach_of arch.now self.now kind va width }
        ensures inside { IsInside (length self.now.ram) width result }
    {
        reach_of(
            self.ram.as_slice(),
            self.layout.pages,
            arch,
            kind,
            va,
            width,
        )
    }

    /// The index of the word of RAM that has an address, where there is no translation.
    #[inline(always)]
    pub(crate) fn bare_place(&self, arch: &Arch, va: u64) -> Option<usize>
        ensures { IfSome result (λ index. one.IsBarePlace arch.now self.now va index) }
    {
        // Below RAM the difference wraps, to more than any index.
        let index = (va.wrapping_sub(RAM_BASE) / 8) as usize;
        if is_untranslated(arch) && index < self.ram.len() {
            Some(index)
        } else {
            None
        }
    }

    /// The index of RAM's word that has all bytes of an access, where there is no translation.
    #[inline(always)]
    pub(crate) fn bare_word(&self, arch: &Arch, va: u64, width: u8) -> Option<usize>
        ensures { IfSome result (λ index. one.IsBareWord arch.now self.now va width index) }
    {
        let index = self.bare_place(arch, va)?;
        if va % 8 + u64::from(width) <= 8 {
            Some(index)
        } else {
            None
        }
    }

    /// The value of a load in a register, or the load's fault.
    #[inline(never)]
    pub(crate) fn load(&self, arch: &Arch, va: u64, width: u8, signed: bool) -> Result<u64, Fault>
        requires { IsTrue (is_width width) }
        ensures { one.effect_on self.now (perform.load_outcome (ram_memory self.now.ram) va width signed (one.reach_of arch.now self.now TheKind.Load va width)) ≡ one.answers self.now (load_answer result) }
    {
        let number = match self.reach(arch, Kind::Load, va, width) {
            Reach::Word { index, offset } => number_in(self.ram[index], offset, width),
            Reach::Words {
                first,
                second,
                offset,
            } => number_over(self.ram[first], self.ram[second], offset, width),
            Reach::Device(pa) => match device_value(pa, width) {
                Some(number) => number,
                None => {
                    return Err(Fault {
                        cause: access_fault(Kind::Load),
                        tval: va,
                    });
                }
            },
            Reach::Faults(fault) => return Err(fault),
        };
        Ok(extended(signed, width, number))
    }

    /// Stores, and answers the reason that the store gave to end the machine, or its fault.
    #[inline(never)]
    pub(crate) fn store(
        &mut self,
        arch: &Arch,
        va: u64,
        width: u8,
        value: u64,
    ) -> Result<Option<Reason>, Fault>
        requires { IsTrue (is_width width) }
        ensures stored { one.effect_on self.old (perform.store_outcome (ram_memory self.old.ram) (one.room self.old) va width value (one.reach_of arch.now self.old TheKind.Store va width)) ≡ one.done_with self.new (store_answer result) (store_reason result) }
        ensures rest { self.new ≡ record self.old { ram = self.new.ram; console = self.new.console } }
    {
        match self.reach(arch, Kind::Store, va, width) {
            Reach::Word { index, offset } => {
                self.ram[index] = replace_in(self.ram[index], offset, width, value);
                Ok(None)
            }
            Reach::Words {
                first,
                second,
                offset,
            } => {
                let (low, high) = replace_over(
                    self.ram[first],
                    self.ram[second],
                    offset,
                    width,
                    value,
                );
                self.ram[first] = low;
                self.ram[second] = high;
                Ok(None)
            }
            Reach::Device(pa) => self.store_on_device(pa, va, width, value),
            Reach::Faults(fault) => Err(fault),
        }
    }

    /// Stores within a word of RAM; false, and nothing changed, where the access leads elsewhere.
    #[inline(never)]
    pub(crate) fn store_in_ram(&mut self, arch: &Arch, va: u64, width: u8, value: u64) -> bool
        requires { IsTrue (is_width width) }
        ensures stored { IsTrue result → one.effect_on self.old (perform.store_outcome (ram_memory self.old.ram) (one.room self.old) va width value (one.reach_of arch.now self.old TheKind.Store va width)) ≡ one.done_with self.new TheAnswer.Nothing None }
        ensures rest { self.new ≡ record self.old { ram = self.new.ram } }
        ensures kept { result ≡ false → self.new ≡ self.old }
    {
        let Reach::Word { index, offset } = self.reach(arch, Kind::Store, va, width) else {
            return false;
        };
        self.ram[index] = replace_in(self.ram[index], offset, width, value);
        true
    }

    #[inline(never)]
    fn store_on_device(
        &mut self,
        pa: u64,
        va: u64,
        width: u8,
        value: u64,
    ) -> Result<Option<Reason>, Fault>
        ensures stored { one.effect_on self.old (perform.device_store_outcome (one.room self.old) va (device.device_stored pa width value)) ≡ one.done_with self.new (store_answer result) (store_reason result) }
        ensures rest { self.new ≡ record self.old { ram = self.new.ram; console = self.new.console } }
    {
        match device_stored(pa, width, value) {
            Some(DeviceStore::PutsByte(byte)) => Ok(self.print(byte)),
            Some(DeviceStore::Ends(reason)) => Ok(Some(reason)),
            Some(DeviceStore::Ignored) => Ok(None),
            None => Err(Fault {
                cause: access_fault(Kind::Store),
                tval: va,
            }),
        }
    }

    /// Appends a byte to the console; where that is full, this is the reason.
    pub(crate) fn print(&mut self, byte: u8) -> Option<Reason>
        ensures printed { one.effect_on self.old (perform.print_outcome (one.room self.old) (byte ∷ []) TheAnswer.Nothing) ≡ one.done_with self.new TheAnswer.Nothing result }
        ensures called { (answer : TheAnswer) → one.effect_called self.old (perform.print_outcome (one.room self.old) (byte ∷ []) answer) ≡ one.done_with self.new (printed_answer answer result) result }
        ensures rest { self.new ≡ record self.old { console = self.new.console } }
    {
        if self.console.len() >= CONSOLE_BYTES {
            return Some(Reason::OutFull);
        }
        let _pushed = self.console.push(byte);
        None
    }

    /// A hart's software interrupt is pending.
    #[inline]
    pub(crate) fn is_pending(&self, hart: u8) -> bool
        requires { hart < 8 }
        ensures { result ≡ is_set self.now.ipi hart }
    {
        is_set(self.ipi, u32::from(hart))
    }

    /// Reads a hart's bit of software interrupts as sip shows it, and sets or clears it.
    #[inline(never)]
    pub(crate) fn change_ipi(&mut self, hart: u8, op: IpiOp) -> u64
        requires { hart < 8 }
        ensures value { result ≡ perform.sip_value self.old.ipi hart }
        ensures changed { self.new ≡ record self.old { ipi = one.ipi_after op self.old.ipi hart } }
    {
        let bit = 1 << u32::from(hart);
        let value = if self.is_pending(hart) { 2 } else { 0 };
        match op {
            IpiOp::Read => {}
            IpiOp::Set => self.ipi |= bit,
            IpiOp::Clear => self.ipi -= self.ipi & bit,
        }
        value
    }
}
