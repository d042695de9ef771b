// The running week, by value: one interval is added at a time, and count and default are read at any time.
ghost use Rattle.std.specs.Prelude.{◌≡◌};
ghost use Rattle.rules.specs.declared.Refusal.TheVariants.{WrongState};
ghost use Rattle.rules.specs.Refusals.{refused, unless};
ghost use Rattle.rules.specs.RunningWeek.{left_by_a_run};
ghost use Rattle.weeks.specs.Promises.{added_of, AddPromise, ReadPromise};

use super::total::{MOST_INTERVALS, is_left_by_a_run, one_more, tell};
use super::whose::{is_fine, reach, units_of};
use rules::{Refusal, RunningWeek, WeekDefault, Whose};

// A refusal after the record's own: 11 comes first, where no run of calls leaves the record.
fn record_first(week: RunningWeek, refusal: Refusal) -> Result<RunningWeek, Refusal>
    ensures { result ≡ added_of (unless (left_by_a_run week) WrongState (refused refusal)) }
{
    if !is_left_by_a_run(week) {
        return Err(Refusal::WrongState);
    }
    Err(refusal)
}

// The week with one interval more. Refuses 11 for a record that no run of calls leaves, 5 for a group of 0 or over 512 units, 17 for a 2,017th interval
// or a live performance that no such member can have. What is seldom refused is tested first, and which refusal comes first where it is: that costs less.
pub fn add(
    whose: Whose,
    live: bool,
    performance: i64,
    week: RunningWeek,
) -> Result<RunningWeek, Refusal>
    ensures { AddPromise whose live performance week result }
{
    let units = units_of(whose);
    if !is_fine(units) {
        return record_first(week, Refusal::WrongCount);
    }
    if MOST_INTERVALS <= week.seen {
        return record_first(week, Refusal::WrongWeek);
    }
    if !is_left_by_a_run(week) {
        return Err(Refusal::WrongState);
    }
    one_more(reach(units), week, live, performance)
}

// Count and default of the intervals added so far. Refuses 11, 5, then 14 for an average below the limit of its book field.
pub fn read(whose: Whose, week: RunningWeek) -> Result<WeekDefault, Refusal>
    ensures { ReadPromise whose week result }
{
    if !is_left_by_a_run(week) {
        return Err(Refusal::WrongState);
    }
    if !is_fine(units_of(whose)) {
        return Err(Refusal::WrongCount);
    }
    tell(whose, week)
}
