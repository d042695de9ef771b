// A whole roster's week: the members' weeks stand one after another in the lent lists. Every week is worked out twice: once to be tested, and once
// more, when none is refused, to be written.
ghost use Rattle.std.specs.Prelude.{◌≡◌, ◌≤◌, ◌<◌, ◌*◌, leb, length, get_or, Ok};
ghost use Rattle.integers.specs.Sums.{every};
ghost use Rattle.rules.specs.Week.{whose_fine, bytes_for};
ghost use Rattle.rules.specs.WeekRoster.{whose_of, long_enough};
ghost use Rattle.weeks.specs.Promises.{told_of, RosterPromise};
ghost use Rattle.weeks.specs.Rosters.{Long, AllFine, AllTold, ColumnsWritten, judged, member_told};

use super::list::{bytes_for, week};
use super::whose::{is_fine, units_of};
use rules::{Refusal, WeekDefault, Whose};

// Who a member is, as a number: 0 a residual, 1 a unit, more a group of so many units.
pub fn whose_of(number: u16) -> Whose
    ensures { result ≡ whose_of number }
{
    if number == 0 {
        return Whose::Residual;
    }
    if number == 1 {
        return Whose::Unit;
    }
    Whose::Group(number)
}

// Is a list long enough for so many members with so many elements each? By a division, since the product may pass 64 bits.
fn is_long(members: usize, each: usize, length: usize) -> bool
    ensures { result ≡ leb (members * each) length }
{
    if each == 0 {
        return true;
    }
    members <= length / each
}

// Are all lent lists long enough?
fn are_long(
    intervals: usize,
    whose: &[u16],
    performances: &[i64],
    live: &[u8],
    counts: usize,
    defaults: usize,
) -> bool
    requires { intervals < 4_294_967_296 }
    ensures { result ≡ long_enough intervals whose.now performances.now live.now
        counts defaults }
{
    if !is_long(whose.len(), intervals, performances.len()) {
        return false;
    }
    if !is_long(whose.len(), bytes_for(intervals), live.len()) {
        return false;
    }
    if counts < whose.len() {
        return false;
    }
    whose.len() <= defaults
}

fn all_fine(whose: &[u16]) -> bool
    ensures { result ≡ every (length whose.now) (λ j. whose_fine (whose_of (get_or whose.now j 0))) }
{
    for j in 0..whose.len() {
        if !is_fine(units_of(whose_of(whose[j]))) {
            return false;
        }
    }
    true
}

// What the week of member j comes to.
fn member_week(
    intervals: usize,
    whose: &[u16],
    performances: &[i64],
    live: &[u8],
    j: usize,
) -> Result<WeekDefault, Refusal>
    requires { (j < length whose.now) × Long intervals whose.now performances.now live.now }
    ensures { result ≡ member_told intervals whose.now performances.now live.now j }
{
    let from = j * intervals;
    let to = from + intervals;
    let at = j * bytes_for(intervals);
    week(whose_of(whose[j]), &performances[from..to], &live[at..])
}

// The tests of all members' weeks: 17 where one is wrong, else 14 where an average is too low. A wrong week ends them.
fn judge(intervals: usize, whose: &[u16], performances: &[i64], live: &[u8]) -> Result<(), Refusal>
    requires { Long intervals whose.now performances.now live.now × AllFine whose.now }
    ensures { result ≡ judged intervals whose.now performances.now live.now
        (length whose.now) }
{
    let mut found: Result<(), Refusal> = Ok(());
    for j in 0..whose.len() {
        let told = member_week(intervals, whose, performances, live, j);
        match told {
            Ok(_) => {}
            Err(refusal) => match refusal {
                Refusal::AverageTooLow => {
                    found = Err(refusal);
                }
                _ => {
                    return Err(refusal);
                }
            },
        }
    }
    found
}

// Where no member's week is refused, all are written.
fn write(
    intervals: usize,
    whose: &[u16],
    performances: &[i64],
    live: &[u8],
    counts: &mut [u16],
    defaults: &mut [i64],
) -> Result<(), Refusal>
    requires { Long intervals whose.now performances.now live.now × AllTold intervals whose.now performances.now live.now
        × (length whose.now ≤ length counts.old) × (length whose.now ≤ length defaults.old) }
    ensures { (result ≡ Ok tt) × ColumnsWritten intervals whose.now performances.now live.now
        counts.old defaults.old counts.new defaults.new }
{
    for j in 0..whose.len() {
        let found = member_week(intervals, whose, performances, live, j)?;
        counts[j] = found.count;
        defaults[j] = found.default;
    }
    Ok(())
}

// Per member, count and default. Refuses 12 for a list that is too short, then for all members 5, then 17, then 14; nothing is written then.
pub fn roster(
    intervals: u32,
    whose: &[u16],
    performances: &[i64],
    live: &[u8],
    counts: &mut [u16],
    defaults: &mut [i64],
) -> Result<(), Refusal>
    ensures { RosterPromise intervals whose.now performances.now live.now
        counts.old defaults.old result counts.new defaults.new }
{
    let n = intervals as usize;
    if !are_long(n, whose, performances, live, counts.len(), defaults.len()) {
        return Err(Refusal::TooShort);
    }
    if !all_fine(whose) {
        return Err(Refusal::WrongCount);
    }
    judge(n, whose, performances, live)?;
    write(n, whose, performances, live, counts, defaults)
}
