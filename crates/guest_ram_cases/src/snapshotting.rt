// A snapshot of the monitor, whole.
ghost use Rattle.std.specs.Prelude.{◌≡◌, ◌≤◌, ℕ, IsTrue};
ghost use Rattle.step_laws.specs.Marks.{awaiting, last_place, swapping};
ghost use Rattle.guest_ram.specs.Areas.{AnyWord, IsOfPlaces};
ghost use Rattle.guest_ram.specs.Ports.{layout_of, GoesBy};
ghost use Rattle.guest_ram_cases.specs.Sweeps.{HasNoPost, IsAtStage, waiting_stage};

use crate::draining::{await_drain, drain};
use crate::sweeping::{sweep, take_words};
use guest_ram::Port;

/// Takes the dirty words, passes over all tables and posts a drain at each hart. `false`: a lock wasn't free, or a place was taken.
pub fn begin_snapshot<P: Port>(port: &mut P) -> bool
    requires stage { IsAtStage (P.shows port.old) (swapping 0) }
    requires none { HasNoPost (P.shows port.old) }
    ensures stage { IsTrue result → IsAtStage (P.shows port.new) (awaiting 0) }
    ensures places { IsTrue result → (t : ℕ) → last_place t (P.shows port.new).own.steps ≡ 0 }
    ensures goes { GoesBy 8360 AnyWord (P.shows port.old) (P.shows port.new) }
{
    take_words(port);
    let harts = port.layout().harts;
    for hart in 0..harts {
        if sweep(port, hart).is_err() {
            return false;
        }
    }
    for target in 0..harts {
        if drain(port, target, 0).is_err() {
            return false;
        }
    }
    true
}

/// Waits for the drains from a hart on. Answers the first whose drain isn't acked; with the number of harts the snapshot is finished.
pub fn await_drains<P: Port>(port: &mut P, first: u8) -> u8
    requires stage { IsAtStage (P.shows port.old) (waiting_stage (P.shows port.old) first) }
    requires first { first ≤ (layout_of (P.shows port.old)).harts }
    requires places { (t : ℕ) → last_place t (P.shows port.old).own.steps ≡ 0 }
    ensures stage { IsAtStage (P.shows port.new) (waiting_stage (P.shows port.new) result) }
    ensures places { (t : ℕ) → last_place t (P.shows port.new).own.steps ≡ 0 }
    ensures most { result ≤ (layout_of (P.shows port.new)).harts }
    ensures goes { GoesBy 8 IsOfPlaces (P.shows port.old) (P.shows port.new) }
{
    let harts = port.layout().harts;
    for hart in first..harts {
        if await_drain(port, hart, 0).is_err() {
            return hart;
        }
    }
    harts
}
