// Rings of eight places, filled and emptied.
ghost use Rattle.std.specs.Prelude.{◌≡◌, ◌≤◌, [], length};
ghost use Rattle.step_laws.specs.Places.{acked_requests};
ghost use Rattle.step_laws.specs.Words.{monitor};
ghost use Rattle.guest_ram.specs.Areas.{IsOfPlaces};
ghost use Rattle.guest_ram.specs.Ports.{GoesBy};
ghost use Rattle.guest_ram_cases.specs.Requests.{IsPosting, IsServing};

use crate::posting::post;
use crate::serving::serve_drain;
use guest_ram::Port;

/// Posts drains at a hart until one is refused, nine at most. Answers how many.
pub fn post_drains<P: Port>(port: &mut P, target: u8) -> u8
    requires posting { IsPosting (P.shows port.old) target 0 }
    ensures posting { IsPosting (P.shows port.new) target result }
    ensures most { result ≤ 9 }
    ensures goes { GoesBy 18 IsOfPlaces (P.shows port.old) (P.shows port.new) }
{
    for posted in 0..9 {
        if post(port, target, posted % 8, 3).is_err() {
            return posted;
        }
    }
    9
}

/// Acks the drains of a source that stand in its places, nine at most. Answers how many.
pub fn serve_drains<P: Port>(port: &mut P, source: u8) -> u8
    requires serving { IsServing (P.shows port.old) source }
    requires source { source ≤ monitor }
    requires first { acked_requests (P.shows port.old).own.actor source (P.shows port.old).own.steps ≡ [] }
    ensures serving { IsServing (P.shows port.new) source }
    ensures acked { length (acked_requests (P.shows port.new).own.actor source (P.shows port.new).own.steps) ≡ result }
    ensures most { result ≤ 9 }
    ensures goes { GoesBy 18 IsOfPlaces (P.shows port.old) (P.shows port.new) }
{
    for served in 0..9 {
        if serve_drain(port, source, served % 8) != 3 {
            return served;
        }
    }
    9
}
