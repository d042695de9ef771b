// The total of a week in two digits, one interval more, and its average: exact, in words of 64 bits.
ghost use Rattle.std.specs.Prelude.{◌≡◌, ◌+◌, ◌≤◌, ◌<◌, nat_abs};
ghost use Rattle.rules.specs.Week.{interval, average, default_reply};
ghost use Rattle.rules.specs.RunningWeek.{base, running, total_in, left_by_a_run};
ghost use Rattle.weeks.specs.Runs.{Run, more_reply};
ghost use Rattle.weeks.specs.Promises.{told_of, added_of};

use super::whose::{BASE, default_limit};
use rules::{Refusal, RunningWeek, WeekDefault, Whose};

pub(crate) const MOST_INTERVALS: u16 = 2_016;

// The size of a performance. The least i64 has no negative of its own.
fn size(performance: i64) -> u64
    ensures { result ≡ nat_abs performance }
{
    if performance < 0 {
        (-(performance + 1)) as u64 + 1
    } else {
        performance as u64
    }
}

// Is this a record that some run of calls leaves? So many live ones can reach a total whose `high` is below their number, with `low` below the base, or
// is that number, with `low` 0: the last two are one test, which takes a register less.
pub(crate) fn is_left_by_a_run(week: RunningWeek) -> bool
    ensures { result ≡ left_by_a_run week }
{
    if week.seen < week.live {
        return false;
    }
    if MOST_INTERVALS < week.seen {
        return false;
    }
    if week.high < week.live {
        return week.low < BASE;
    }
    (week.high - week.live) as u64 | week.low == 0
}

// A live interval more that falls short by so much. That is at most the base, so one comparison carries; it is seldom met, and a remainder, which is dear,
// keeps the compiler from working it out every time.
fn carried(week: RunningWeek, short: u64) -> RunningWeek
    requires { Run week × (week.seen < 2_016) × (short ≤ base) }
    ensures { result ≡ running (week.seen + 1) (week.live + 1) (total_in week + short) }
{
    let low = week.low + short;
    if low < BASE {
        return RunningWeek {
            seen: week.seen + 1,
            live: week.live + 1,
            high: week.high,
            low,
        };
    }
    RunningWeek {
        seen: week.seen + 1,
        live: week.live + 1,
        high: week.high + 1,
        low: low % BASE,
    }
}

// One interval more, or 17 where a live performance is past the limit, either way: below zero that is one whose sum with the limit is below zero. What
// stands at an interval that is not live is not looked at.
pub(crate) fn one_more(
    limit: u64,
    week: RunningWeek,
    live: bool,
    performance: i64,
) -> Result<RunningWeek, Refusal>
    requires { Run week × (week.seen < 2_016) × (limit ≤ base) }
    ensures { result ≡ added_of (more_reply limit week (interval live performance)) }
{
    if !live {
        return Ok(RunningWeek {
            seen: week.seen + 1,
            live: week.live,
            high: week.high,
            low: week.low,
        });
    }
    if 0 <= performance {
        if limit < performance as u64 {
            return Err(Refusal::WrongWeek);
        }
        return Ok(RunningWeek {
            seen: week.seen + 1,
            live: week.live + 1,
            high: week.high,
            low: week.low,
        });
    }
    if limit as i64 + performance < 0 {
        return Err(Refusal::WrongWeek);
    }
    Ok(carried(week, size(performance)))
}

// The nearest of the total over the live intervals, as a size. The base is divided first, so that no product passes 64 bits.
fn average(week: RunningWeek) -> u64
    requires { Run week }
    ensures { (result ≡ average (total_in week) week.live) × (result ≤ base) }
{
    let n = week.live as u64;
    if n == 0 {
        return 0;
    }
    let high = week.high as u64;
    let rest = BASE % n * high + week.low;
    let whole = BASE / n * high + rest / n;
    if 2 * (rest % n) < n {
        return whole;
    }
    whole + 1
}

// Count and default, or 14 where the average is below the limit of its field.
pub(crate) fn tell(whose: Whose, week: RunningWeek) -> Result<WeekDefault, Refusal>
    requires { Run week }
    ensures { result ≡ told_of (default_reply whose (total_in week) week.live) }
{
    let size = average(week);
    if default_limit(whose) < size {
        return Err(Refusal::AverageTooLow);
    }
    Ok(WeekDefault {
        count: week.live,
        default: -(size as i64),
    })
}
