// A member's week from lent lists: the performances, and a bit for each that says if it is live.
ghost use Rattle.std.specs.Prelude.{◌≡◌, ◌≤◌, ◌<◌, ◌/◌, length};
ghost use Rattle.rules.specs.Week.{bytes_for, live_bit, interval_at};
ghost use Rattle.rules.specs.RunningWeek.{base};
ghost use Rattle.weeks.specs.Promises.{WeekPromise, added_of};
ghost use Rattle.weeks.specs.Gather.{gathered};

use super::total::{MOST_INTERVALS, one_more, tell};
use super::whose::{is_fine, reach, units_of};
use rules::{Refusal, RunningWeek, WeekDefault, Whose};

// The bytes that hold n bits.
pub(crate) fn bytes_for(n: usize) -> usize
    ensures { result ≡ bytes_for n }
{
    n / 8 + (n % 8 + 7) / 8
}

// Is interval i live? Spare bits are not looked at.
fn is_live(live: &[u8], i: usize) -> bool
    requires { i / 8 < length live.now }
    ensures { result ≡ live_bit live.now i }
{
    (live[i / 8] >> (i % 8)) & 1 == 1
}

// The running week of the lists' intervals, or 17 where a live performance is past the limit.
fn gather(limit: u64, performances: &[i64], live: &[u8]) -> Result<RunningWeek, Refusal>
    requires { (limit ≤ base) × (length performances.now ≤ 2_016) × (bytes_for (length performances.now) ≤ length live.now) }
    ensures { result ≡ added_of (gathered limit (length performances.now) (interval_at performances.now live.now)) }
{
    let mut week = RunningWeek {
        seen: 0,
        live: 0,
        high: 0,
        low: 0,
    };
    for i in 0..performances.len() {
        week = one_more(limit, week, is_live(live, i), performances[i])?;
    }
    Ok(week)
}

// Count and default of a week. Refuses 12 for too few bytes of live bits, 5 for a group of 0 or over 512 units, 17 for more than 2,016 intervals or a live
// performance that no such member can have, then 14 for an average below the limit of its book field.
pub fn week(whose: Whose, performances: &[i64], live: &[u8]) -> Result<WeekDefault, Refusal>
    ensures { WeekPromise whose performances.now live.now result }
{
    if live.len() < bytes_for(performances.len()) {
        return Err(Refusal::TooShort);
    }
    let units = units_of(whose);
    if !is_fine(units) {
        return Err(Refusal::WrongCount);
    }
    if (MOST_INTERVALS as usize) < performances.len() {
        return Err(Refusal::WrongWeek);
    }
    let week = gather(reach(units), performances, live)?;
    tell(whose, week)
}
