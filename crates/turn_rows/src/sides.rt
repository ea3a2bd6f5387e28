// A hart at its port.
ghost use Rattle.guest_ram.specs.Shown.{pass_shown};
ghost use Rattle.turn_rows.specs.Between.{IsBetween};

use crate::ports::{Aside, Seated, Tried};
use crate::rows::Row;
use hart_turn::{Hart, TurnEnd, turn};

/// A hart between turns, or at its machine's end.
#[derive(Drop)]
pub(crate) struct Side<'t, J: Seated, A> {
    pub hart: Hart,
    pub port: Tried<'t, J, A>,
    pub has_ended: bool,
}

impl<'t, J: Seated, A: Aside> Side<'t, J, A> {
    /// A turn. `None` where it has ended with its machine: then there is none.
    fn take_turn(&mut self) -> Option<TurnEnd>
        requires between { IsBetween self.old.has_ended self.old.hart (pass_shown self.old.port.pass) }
        ensures between { IsBetween self.new.has_ended self.new.hart (pass_shown self.new.port.pass) }
    {
        if self.has_ended {
            return None;
        }
        let end = turn(&mut self.hart, &mut self.port);
        self.has_ended = matches!(end, TurnEnd::Ended(_));
        Some(end)
    }

    /// Whether a turn comes to what the row says.
    fn is_right(&mut self, row: &Row) -> bool
        requires between { IsBetween self.old.has_ended self.old.hart (pass_shown self.old.port.pass) }
        ensures between { IsBetween self.new.has_ended self.new.hart (pass_shown self.new.port.pass) }
    {
        let before = self.port.steps;
        if self.take_turn() != Some(row.to) {
            return false;
        }
        match row.steps {
            None => true,
            Some(steps) => self.port.steps.wrapping_sub(before) == steps,
        }
    }

    /// Whether all turns of a row come to what that says.
    pub(crate) fn do_row(&mut self, row: &Row) -> bool
        requires between { IsBetween self.old.has_ended self.old.hart (pass_shown self.old.port.pass) }
        ensures between { IsBetween self.new.has_ended self.new.hart (pass_shown self.new.port.pass) }
    {
        for _ in 0..row.times {
            if !self.is_right(row) {
                return false;
            }
        }
        true
    }
}
