// A running week in two lent words, and a week's count and default in two lent numbers.
ghost use Rattle.std.specs.Prelude.{◌≡◌, ◌≤◌, length, leb, get_or};
ghost use Rattle.rules.specs.declared.Whose.TheVariants.{Group};
ghost use Rattle.rules.specs.Refusals.{taken};
ghost use Rattle.rules.specs.WeekRoster.{whose_of};
ghost use Rattle.weeks.specs.Runs.{units_of};
ghost use Rattle.dullavane.specs.Words.{handed, reply_number};
ghost use Rattle.dullavane.specs.Weekly.{week_held, WeekHeld, with_week, added_number, week_after, with_default, told_number, default_after};

use rules::{MOST_UNITS, Refusal, RunningWeek, WeekDefault, Whose, refusal_number};

pub(crate) const WEEK_WORDS: usize = 2;

pub(crate) const DEFAULT_NUMBERS: usize = 2;

// The second word has three fields of 16 bits.
const SECOND_FIELD: u64 = 0x1_0000;

const THIRD_FIELD: u64 = 0x1_0000_0000;

const PAST_THE_FIELDS: u64 = 0x1_0000_0000_0000;

// Has the second word a bit past its three fields?
fn is_wide(words: &[u64]) -> bool
    requires { 2 ≤ length words.now }
    ensures { result ≡ leb 281_474_976_710_656 (get_or words.now 1 0) }
{
    PAST_THE_FIELDS <= words[1]
}

// The running week that words hold, or why they hold none: 12 for fewer than two words, then 11 for a bit past the second word's three fields.
pub(crate) fn week_held(words: &[u64]) -> Result<RunningWeek, Refusal>
    ensures { result ≡ handed (week_held words.now) }
{
    if words.len() < WEEK_WORDS {
        return Err(Refusal::TooShort);
    }
    if is_wide(words) {
        return Err(Refusal::WrongState);
    }
    Ok(week_in(words))
}

// 0 where words hold a running week, else the number of why they hold none, for the call that is made once an interval: with `week_held` in this one's place an
// interval above zero takes 60.0005 instructions and not 57, where 60 are allowed (bench/weeks).
pub(crate) fn week_unheld(words: &[u64]) -> u32
    ensures { result ≡ reply_number (week_held words.now) }
{
    if words.len() < WEEK_WORDS {
        return refusal_number(Refusal::TooShort);
    }
    if is_wide(words) {
        return refusal_number(Refusal::WrongState);
    }
    0
}

// The running week in words that hold one.
pub(crate) fn week_in(words: &[u64]) -> RunningWeek
    requires { WeekHeld words.now }
    ensures { week_held words.now ≡ taken result }
{
    let fields = words[1];
    RunningWeek {
        seen: (fields % SECOND_FIELD) as u16,
        live: (fields / SECOND_FIELD % SECOND_FIELD) as u16,
        high: (fields / THIRD_FIELD) as u16,
        low: words[0],
    }
}

// The group that reaches as far as a member, by the member's number: an interval is added to both alike, and no test of who the member is comes after.
pub(crate) fn as_group(number: u16) -> Whose
    ensures { result ≡ Group (units_of (whose_of number)) }
{
    if number == 0 {
        return Whose::Group(MOST_UNITS);
    }
    Whose::Group(number)
}

// Words past the two stay.
fn put_week(week: RunningWeek, words: &mut [u64])
    requires { 2 ≤ length words.old }
    ensures { words.new ≡ with_week week words.old }
{
    words[0] = week.low;
    words[1] = week.seen as u64
        + SECOND_FIELD * (week.live as u64)
        + THIRD_FIELD * (week.high as u64);
}

// The number of an interval added, with the week in the words where it was taken.
pub(crate) fn tell_week(added: Result<RunningWeek, Refusal>, words: &mut [u64]) -> u32
    requires { 2 ≤ length words.old }
    ensures { (result ≡ added_number added) × (words.new ≡ week_after added words.old) }
{
    match added {
        Ok(week) => {
            put_week(week, words);
            0
        }
        Err(refusal) => refusal_number(refusal),
    }
}

// Numbers past the two stay.
fn put_default(default: WeekDefault, reply: &mut [i64])
    requires { 2 ≤ length reply.old }
    ensures { reply.new ≡ with_default default reply.old }
{
    let count = default.count as i64;
    let average = default.default;
    reply[0] = count;
    reply[1] = average;
}

// The number of a week's answer, with count and default in the reply.
pub(crate) fn tell_default(told: Result<WeekDefault, Refusal>, reply: &mut [i64]) -> u32
    requires { 2 ≤ length reply.old }
    ensures { (result ≡ told_number told) × (reply.new ≡ default_after told reply.old) }
{
    match told {
        Ok(default) => {
            put_default(default, reply);
            0
        }
        Err(refusal) => refusal_number(refusal),
    }
}
