// The two ways a step ends: one record further, or the tally as it came.
ghost use Rattle.std.specs.Prelude.{◌≡◌};
ghost use Rattle.interval.specs.Tally.{next_place};
ghost use Rattle.interval.specs.Calls.{refused_step, count_step, least_after};

use super::turns::BEFORE_UNITS;
use super::{Step, Tally};
use rules::{Refusal, locate};

// Settings, five regions, 512 units and 32 requirements.
const MOST_RECORDS: u16 = 550;

// The place in its body, from 1, of the record that comes next.
fn next_place(tally: Tally) -> u16
    ensures { result ≡ next_place tally }
{
    if tally.records < 1 {
        return 1;
    }
    if tally.records < BEFORE_UNITS {
        return tally.records;
    }
    let past = tally.records - BEFORE_UNITS;
    if past < tally.units {
        return past + 1;
    }
    past - tally.units + 1
}

// The tally as it came, and the refusal, which names the place of the record that was to be taken.
pub fn refuse(tally: Tally, refusal: Refusal) -> Step
    ensures { result ≡ refused_step tally refusal }
{
    let place = next_place(tally);
    Step {
        tally: tally,
        taking: Err(locate(place, refusal)),
    }
}

// One record more; `least` is the least number that the next may have. Refuses 11 where no book has more records.
pub fn count(tally: Tally, least: u32) -> Step
    ensures { result ≡ count_step least tally }
{
    if MOST_RECORDS <= tally.records {
        return refuse(tally, Refusal::WrongState);
    }
    Step {
        tally: Tally {
            units: tally.units,
            requirements: tally.requirements,
            records: tally.records + 1,
            least: least,
            smoothing: tally.smoothing,
            limit: tally.limit,
            percent: tally.percent,
            interval: tally.interval,
        },
        taking: Ok(()),
    }
}

// The least number that may follow a unit's: after the last unit the first requirement may have any.
pub fn next_least(tally: Tally, number: u16) -> u32
    ensures { result ≡ least_after tally number }
{
    if tally.records as u32 + 1 == BEFORE_UNITS as u32 + tally.units as u32 {
        return 0;
    }
    number as u32 + 1
}
