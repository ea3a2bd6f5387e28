// The UART and the finisher.
ghost use Rattle.std.specs.Prelude.{◌≡◌, ℕ, IfSome, ◌<◌, ◌^◌};
ghost use Rattle.step_laws.specs.Sections.{MayTouch};
ghost use Rattle.step_laws.specs.Tables.{held_lock};
ghost use Rattle.machine_model.specs.Device as device;
ghost use Rattle.guest_ram.specs.Ports.{layout_of, IsActing, GoesBy, StandsAs};
ghost use Rattle.guest_devices.specs.Output.{HasPrinted};
ghost use Rattle.guest_devices.specs.Stores.{HasStoredOn, IsOfDevices};

use crate::output::{put_byte, set_stop};
use guest_ram::Port;
use machine_model::{DeviceStore, Reason, device_stored, device_value};

/// Loads `width` bytes from a device by their physical address. `None` where no device has such a register. A load has no effect, so no step
/// is made.
pub fn device_load<P: Port>(port: &mut P, pa: u64, width: u8) -> Option<u64>
    ensures value { result ≡ device.device_value pa width }
    ensures small { IfSome result (λ value. value < 256 ^ width) }
    ensures still { P.shows port.new ≡ P.shows port.old }
{
    device_value(pa, width)
}

// Prints a byte. Where the console is full, the machine ends.
fn print<P: Port>(port: &mut P, byte: u8)
    requires acting { IsActing (P.shows port.old) }
    requires touch { MayTouch (layout_of (P.shows port.old)) (P.shows port.old).own.actor (P.shows port.old).own.steps }
    ensures printed { HasPrinted byte (P.shows port.old) (P.shows port.new) }
    ensures stands { StandsAs (P.shows port.old) (P.shows port.new) }
    ensures held { held_lock (P.shows port.new).own.steps ≡ held_lock (P.shows port.old).own.steps }
    ensures acting { IsActing (P.shows port.new) }
{
    match put_byte(port, byte) {
        Ok(()) => {}
        Err(_) => {
            set_stop(port, Reason::OutFull);
        }
    }
}

/// Stores the low `width` bytes of `value` on a device by its physical address. `None` where no device has such a register.
pub fn device_store<P: Port>(port: &mut P, pa: u64, width: u8, value: u64) -> Option<()>
    requires acting { IsActing (P.shows port.old) }
    requires touch { MayTouch (layout_of (P.shows port.old)) (P.shows port.old).own.actor (P.shows port.old).own.steps }
    ensures stored { HasStoredOn pa width value result (P.shows port.old) (P.shows port.new) }
    ensures stands { StandsAs (P.shows port.old) (P.shows port.new) }
    ensures held { held_lock (P.shows port.new).own.steps ≡ held_lock (P.shows port.old).own.steps }
    ensures acting { IsActing (P.shows port.new) }
    ensures goes { GoesBy 2 IsOfDevices (P.shows port.old) (P.shows port.new) }
{
    match device_stored(pa, width, value) {
        None => None,
        Some(DeviceStore::Ignored) => Some(()),
        Some(DeviceStore::PutsByte(byte)) => {
            print(port, byte);
            Some(())
        }
        Some(DeviceStore::Ends(reason)) => {
            set_stop(port, reason);
            Some(())
        }
    }
}
