// The running weeks: two for every number met so far, in the order in which they were met, raise and then lower, and behind those two for every region's
// residual. The intervals seen are the same for all, so they are kept once, as the books taken.
ghost use Rattle.std.specs.Prelude.{◌<◌, ◌≤◌};

use rules::{Refusal, RunningWeek, WeekDefault, Whose};
use weeks::running::{add, read};

// How many different numbers a week can have.
pub(crate) const MEMBERS: usize = 512;

// Where the residuals' weeks start.
pub(crate) const RESIDUALS: usize = 1024;

pub(crate) const WEEKS: usize = 1034;

// Where a number stands among the names, or how many there are where it does not.
pub(crate) fn find(names: &[u16; MEMBERS], members: usize, number: u16) -> usize
    requires { members ≤ 512 }
    ensures { result ≤ members }
{
    for at in 0..members {
        if names[at] == number {
            return at;
        }
    }
    members
}

// How many names there are with one number more; one more than there is room for where it has none.
pub(crate) fn join(names: &mut [u16; MEMBERS], members: usize, number: u16) -> usize
    requires { members ≤ 512 }
    ensures { result ≤ 513 }
{
    let at = find(names, members, number);
    if at < members {
        return members;
    }
    if MEMBERS <= members {
        return MEMBERS + 1;
    }
    names[members] = number;
    members + 1
}

// The running week at a place.
fn week_at(
    at: usize,
    seen: u16,
    lives: &[u16; WEEKS],
    highs: &[u16; WEEKS],
    lows: &[u64; WEEKS],
) -> RunningWeek
    requires { at < 1034 }
{
    RunningWeek {
        seen,
        live: lives[at],
        high: highs[at],
        low: lows[at],
    }
}

// Whose week stands at a place. What is read of a group goes by a unit's limit.
fn whose_at(at: usize) -> Whose {
    if at < RESIDUALS {
        return Whose::Unit;
    }
    Whose::Residual
}

// Whose performance was done at a place, in an interval in which the member has so many units.
fn doer_at(at: usize, units: u16) -> Whose {
    if at < RESIDUALS {
        return Whose::Group(units);
    }
    Whose::Residual
}

// An interval is added to the week at a place, of which so many have been seen; the member has so many units in it.
pub(crate) fn add_at(
    at: usize,
    seen: u16,
    units: u16,
    live: bool,
    performance: i64,
    lives: &mut [u16; WEEKS],
    highs: &mut [u16; WEEKS],
    lows: &mut [u64; WEEKS],
) -> Result<(), Refusal>
    requires { at < 1034 }
{
    let week = week_at(at, seen, lives, highs, lows);
    let next = add(doer_at(at, units), live, performance, week)?;
    lives[at] = next.live;
    highs[at] = next.high;
    lows[at] = next.low;
    Ok(())
}

pub(crate) fn read_at(
    at: usize,
    seen: u16,
    lives: &[u16; WEEKS],
    highs: &[u16; WEEKS],
    lows: &[u64; WEEKS],
) -> Result<WeekDefault, Refusal>
    requires { at < 1034 }
{
    read(whose_at(at), week_at(at, seen, lives, highs, lows))
}
