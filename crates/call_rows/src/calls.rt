// One call of a hart that is outside: it enters for it, or has the section.
ghost use Rattle.std.specs.Prelude.{◌≡◌, IfNone, IfSome, true};
ghost use Rattle.guest_ram_cases.specs.Tours.{IsSameSeat};
ghost use Rattle.hart_calls.specs.Ends.{runs_on};
ghost use Rattle.call_rows.specs.Standing.{IsStanding};

use exclusive::{all_out, claim, enter, leave, release};
use guest_ram::Port;
use hart_calls::{Reason, SbiEnd, sbi};
use rv64_priv::Arch;
use sbi_rows::Call;

/// The registers of a hart that makes a call. What a4 and a5 hold, no answer depends on.
fn registers_of(call: &Call) -> Arch {
    let [a0, a1, a2, a3] = call.args;
    let mut x = [0; 32];
    x[10] = a0;
    x[11] = a1;
    x[12] = a2;
    x[13] = a3;
    x[14] = 0x44;
    x[15] = 0x55;
    x[16] = call.function;
    x[17] = call.extension;
    Arch {
        x,
        pc: 0x8000_0000,
        user: false,
        sstatus: 0,
        sie: 0,
        stvec: 0,
        sscratch: 0,
        sepc: 0,
        scause: 0,
        stval: 0,
        satp: 0,
        hold: None,
    }
}

/// Whether the hart runs on behind a call that came to this.
pub(crate) fn goes_on(end: SbiEnd) -> bool
    ensures { result ≡ runs_on end }
{
    !matches!(end, SbiEnd::HartStopped | SbiEnd::Over(Reason::AllStopped))
}

/// Enters, makes the call and leaves. `None`: another has the section.
pub(crate) fn call_inside<P: Port>(port: &mut P, hart: u8, call: &Call) -> Option<SbiEnd>
    requires standing { IsStanding true (P.shows port.old) }
    requires hart { hart ≡ (P.shows port.old).own.actor }
    ensures made { IfSome result (λ end. IsStanding (runs_on end) (P.shows port.new)) }
    ensures refused { IfNone result (IsStanding true (P.shows port.new)) }
    ensures seat { IsSameSeat (P.shows port.old) (P.shows port.new) }
{
    match enter(port) {
        Ok(()) => {}
        Err(_) => return None,
    }
    let end = sbi(port, hart, &registers_of(call), false);
    leave(port);
    Some(end)
}

/// Claims the section, makes the call and releases the section. `None`: another is in the way.
pub(crate) fn call_alone<P: Port>(port: &mut P, hart: u8, call: &Call) -> Option<SbiEnd>
    requires standing { IsStanding true (P.shows port.old) }
    requires hart { hart ≡ (P.shows port.old).own.actor }
    ensures made { IfSome result (λ end. IsStanding (runs_on end) (P.shows port.new)) }
    ensures refused { IfNone result (IsStanding true (P.shows port.new)) }
    ensures seat { IsSameSeat (P.shows port.old) (P.shows port.new) }
{
    match claim(port) {
        Ok(()) => {}
        Err(_) => return None,
    }
    match all_out(port) {
        Ok(()) => {}
        Err(_) => {
            release(port);
            return None;
        }
    }
    let end = sbi(port, hart, &registers_of(call), true);
    release(port);
    Some(end)
}
