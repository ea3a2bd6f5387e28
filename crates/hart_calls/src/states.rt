// Hart states (RISC-V SBI, "Hart State Management Extension").
ghost use Rattle.std.specs.Prelude.{◌≡◌, ◌≢◌, ◌<◌, ◌%◌, ℕ, IsTrue, false};
ghost use Rattle.machine_model.specs.Sbi.{state_number};
ghost use Rattle.guest_ram.specs.Ports.{layout_of, IsActing};
ghost use Rattle.hart_calls.specs.Called.{HasLeft, HasTried};
ghost use Rattle.hart_calls.specs.States.{HasFoundState, HasLoadedState, HasStarted, HasStopped, IsRunner, mode_found};

use crate::outcomes::{SbiEnd, success};
use guest_devices::set_stop;
use guest_ram::Port;
use machine_model::Reason;
use step_laws::{hsm_word, live_word, opaque_word, start_word};

const ALREADY_AVAILABLE: i64 = -6;

/// The number of a hart's state: 0 it runs, 1 it is stopped, 2 its start is pending, or being made.
#[tactic(auto, using(guest_ram::proofs::MaySteps::may_load_hsm))]
pub(crate) fn state_of<P: Port>(port: &mut P, target: u8) -> u64
    requires acting { IsActing (P.shows port.old) }
    requires target { target < (layout_of (P.shows port.old)).harts }
    ensures { (found : ℕ) × (result ≡ state_number (mode_found found)) × HasLoadedState target found (P.shows port.old) (P.shows port.new) }
{
    match port.load(hsm_word(target)) {
        0 => 0,
        1 => 1,
        _ => 2,
    }
}

/// Starts another hart, where it is stopped, and says whether it did.
#[tactic(auto, using(crate::proofs::Starts::acting_state, crate::proofs::Starts::starting))]
fn start_other<P: Port>(port: &mut P, target: u8, at: u64, opaque: u64) -> bool
    requires runner { IsRunner (P.shows port.old) }
    requires other { target ≢ (P.shows port.old).own.actor }
    requires target { target < (layout_of (P.shows port.old)).harts }
    requires place { at % 4 ≡ 0 }
    ensures started { IsTrue result → HasStarted target at opaque (P.shows port.old) (P.shows port.new) }
    ensures refused { result ≡ false → (found : ℕ) × (found ≢ 1) × HasFoundState target found (P.shows port.old) (P.shows port.new) }
{
    let state = hsm_word(target);
    let found = port.compare_exchange(state, 1, 3);
    if found != 1 {
        return false;
    }
    port.store(start_word(target), at);
    port.store(opaque_word(target), opaque);
    port.fetch_add(live_word(), 1);
    port.store(state, 2);
    true
}

/// Starts a hart, where it is stopped. The own hart runs, so nothing is looked at.
pub(crate) fn start<P: Port>(port: &mut P, hart: u8, target: u8, at: u64, opaque: u64) -> SbiEnd
    requires runner { IsRunner (P.shows port.old) }
    requires hart { hart ≡ (P.shows port.old).own.actor }
    requires target { target < (layout_of (P.shows port.old)).harts }
    requires place { at % 4 ≡ 0 }
    ensures { HasTried (P.shows port.old) (P.shows port.new) target at opaque result }
{
    let refused = SbiEnd::Pair {
        error: ALREADY_AVAILABLE,
        value: 0,
    };
    if target == hart {
        return refused;
    }
    if start_other(port, target, at, opaque) {
        success(0)
    } else {
        refused
    }
}

/// Stops the own hart, and takes it from LIVE. Answers what LIVE was.
fn stop_self<P: Port>(port: &mut P, hart: u8) -> u64
    requires runner { IsRunner (P.shows port.old) }
    requires hart { hart ≡ (P.shows port.old).own.actor }
    ensures stopped { HasStopped result (P.shows port.old) (P.shows port.new) }
    ensures acting { IsActing (P.shows port.new) }
{
    port.store(hsm_word(hart), 1);
    port.fetch_add(live_word(), u64::MAX)
}

/// Stops the own hart. Where it was the last one that hadn't stopped, the machine ends.
pub(crate) fn stop<P: Port>(port: &mut P, hart: u8) -> SbiEnd
    requires runner { IsRunner (P.shows port.old) }
    requires hart { hart ≡ (P.shows port.old).own.actor }
    ensures { HasLeft (P.shows port.old) (P.shows port.new) result }
{
    if stop_self(port, hart) == 1 {
        set_stop(port, Reason::AllStopped);
        SbiEnd::Over(Reason::AllStopped)
    } else {
        SbiEnd::HartStopped
    }
}
