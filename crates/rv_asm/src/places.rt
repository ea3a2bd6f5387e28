// Places of lines, and the labels of a text.
ghost use Rattle.std.specs.Prelude.{◌≡◌, ◌≤◌, IfOk};
ghost use Rattle.asm_text.specs.Values.{found_as, line_as, IsRead};
ghost use Rattle.rv_asm.specs.Assembly.{ends_within, last_place, place_behind, room_of};

use crate::actions::{LAST_PLACE, can_move};
use asm_text::{Action, Fault, Line};

/// The room that an action takes; one without a form takes none.
fn room_of(place: u64, action: &Result<Action<'_>, Fault>) -> u128
    requires { IfOk action.now IsRead }
    ensures { result ≡ room_of place (found_as action.now) }
{
    match *action {
        Err(_) | Ok(Action::Nothing) => 0,
        Ok(Action::Makes { .. }) => 4,
        Ok(Action::LoadsNumber { .. } | Action::LoadsAddress { .. }) => 8,
        Ok(Action::Data { width, count, .. }) => u128::from(width) * count,
        Ok(Action::MovesTo { n }) => {
            if can_move(place, n) {
                n.magnitude - u128::from(place)
            } else {
                0
            }
        }
    }
}

/// The line ends at the last place at most.
pub(crate) fn ends_within(place: u64, line: &Line<'_>) -> bool
    requires place { place ≤ last_place }
    requires read { IfOk line.now.action IsRead }
    ensures { result ≡ ends_within place (line_as line.now) }
{
    u128::from(place) + room_of(place, &line.action) <= u128::from(LAST_PLACE)
}

/// The place behind a line.
pub(crate) fn place_behind(place: u64, line: &Line<'_>) -> u64
    requires place { place ≤ last_place }
    requires read { IfOk line.now.action IsRead }
    ensures value { result ≡ place_behind place (line_as line.now) }
    ensures within { result ≤ last_place }
{
    if ends_within(place, line) {
        place + room_of(place, &line.action) as u64
    } else {
        place
    }
}
