// Hart 0 claims the section while hart 1 is inside.
ghost use Rattle.std.specs.Prelude.{◌≡◌, ◌≤◌, IfOk, length};
ghost use Rattle.step_laws.specs.Layout.{IsInLimits};
ghost use Rattle.step_laws.specs.Steps.{words_of};
ghost use Rattle.guest_ram.specs.Shown.{all_words};
ghost use Rattle.guest_ram_cases.specs.Tours.{IsFresh, IsSameSeat};

use exclusive::{all_out, claim, enter, leave, release};
use guest_ram::{Port, Seen, Words};
use guest_ram_cases::{Seats, close_seats, open_seats};
use std::alloc::Global;
use step_laws::{Layout, NoMemory};

/// What the calls were refused for, where they were.
#[derive(Clone, Copy, Debug, PartialEq, Eq)]
pub struct Claims {
    /// Hart 1 enters first.
    pub enters: Option<Seen>,
    /// Then hart 0 claims the section,
    pub claims: Option<Seen>,
    /// and looks at the others, of whom hart 1 is inside.
    pub waits: Option<Seen>,
    /// The monitor claims it too.
    pub second: Option<Seen>,
    /// Hart 1 leaves, and would enter again.
    pub again: Option<Seen>,
    /// Hart 0 looks once more, and gives the section back.
    pub alone: Option<Seen>,
}

fn claim_beside<P: Port, Q: Port, R: Port>(first: &mut P, second: &mut Q, third: &mut R) -> Claims
    requires first { IsFresh (P.shows first.old) }
    requires second { IsFresh (Q.shows second.old) }
    requires third { IsFresh (R.shows third.old) }
    ensures first { IsSameSeat (P.shows first.old) (P.shows first.new) }
    ensures second { IsSameSeat (Q.shows second.old) (Q.shows second.new) }
    ensures third { IsSameSeat (R.shows third.old) (R.shows third.new) }
{
    let enters = enter(second).err();
    let claims = claim(first).err();
    let mut waits = None;
    let mut second_claims = None;
    let mut again = None;
    let mut alone = None;
    if claims.is_none() {
        waits = all_out(first).err();
        second_claims = claim(third).err();
        leave(second);
        again = enter(second).err();
        alone = all_out(first).err();
        release(first);
    }
    Claims {
        enters,
        claims,
        waits,
        second: second_claims,
        again,
        alone,
    }
}

/// The words behind it, and what was answered.
pub fn section_tour(alloc: Global, layout: Layout) -> Result<(Words, Claims), NoMemory>
    requires limits { IsInLimits layout }
    requires harts { 2 ≤ layout.harts }
    ensures count { IfOk result (λ made. length (all_words made.0) ≡ words_of layout) }
{
    let Seats {
        table,
        loader,
        first,
        second,
        monitor,
    } = open_seats(alloc, layout, 7)?;
    let mut claimant = first.pass(&table);
    let mut other = second.pass(&table);
    let mut third = monitor.pass(&table);
    let claims = claim_beside(&mut claimant, &mut other, &mut third);
    let first = claimant.rest();
    let second = other.rest();
    let monitor = third.rest();
    Ok((close_seats(table, loader, first, second, monitor), claims))
}
