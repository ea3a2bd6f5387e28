// The UART and the finisher, by their physical addresses.
ghost use Rattle.std.specs.Prelude.{◌≡◌, ◌<◌, ◌^◌, IfSome};
ghost use Rattle.machine_model.specs.Device as device;

use crate::reason::Reason;

/// The UART's registers, of which the first prints a byte.
const UART: u64 = 0x1000_0000;

const UART_LAST: u64 = 0x1000_0007;

/// The UART's line status: 0x60 says that it is idle and takes a byte.
const UART_STATUS: u64 = 0x1000_0005;

/// The finisher: a store of 0x5555 here ends the machine with a pass, and one of 0x3333 with a fail.
const FINISHER: u64 = 0x10_0000;

/// What a store on a device does: it puts a byte on the console, ends the machine, or does nothing.
#[derive(Clone, Copy)]
pub enum DeviceStore {
    PutsByte(u8),
    Ends(Reason),
    Ignored,
}

/// What a load of so many bytes from a device gives, by its physical address; `None` where no device has such a
/// register, which is an access fault. The UART is always ready to print.
pub fn device_value(pa: u64, width: u8) -> Option<u64>
    ensures value { result ≡ device.device_value pa width }
    ensures small { IfSome result (λ value. value < 256 ^ width) }
{
    if width == 1 && UART <= pa && pa <= UART_LAST {
        return Some(if pa == UART_STATUS { 0x60 } else { 0 });
    }
    if width == 4 && pa == FINISHER {
        return Some(0);
    }
    None
}

/// What a store to the finisher does.
fn finished(value: u64) -> DeviceStore
    ensures { result ≡ device.finished value }
{
    match value % 0x1_0000 {
        0x5555 => DeviceStore::Ends(Reason::Pass),
        0x3333 => DeviceStore::Ends(Reason::Fail((value / 0x1_0000 % 0x1_0000) as u16)),
        _ => DeviceStore::Ignored,
    }
}

/// What a store of so many bytes on a device does, by its physical address; `None` where no device has such a
/// register, which is an access fault. `value` is the whole register.
pub fn device_stored(pa: u64, width: u8, value: u64) -> Option<DeviceStore>
    ensures { result ≡ device.device_stored pa width value }
{
    if width == 1 && UART <= pa && pa <= UART_LAST {
        return Some(if pa == UART {
            DeviceStore::PutsByte((value % 0x100) as u8)
        } else {
            DeviceStore::Ignored
        });
    }
    if width == 4 && pa == FINISHER {
        return Some(finished(value));
    }
    None
}
