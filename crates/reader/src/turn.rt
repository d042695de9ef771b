// The record whose turn it is, by the tally: its size, and the call that takes it. Each call tests its own turn, so a tally out of range or at the book's end
// is refused with 11.
ghost use Rattle.std.specs.Prelude.{◌≡◌, ◌≤◌};
ghost use Rattle.chain.specs.BookRecords.{record_size};
ghost use Rattle.interval.specs.Lent.{lent_unit};
ghost use Rattle.reader.specs.Turns.{TurnPromise};

use book::{FREQUENCY, REQUIREMENT, SETTINGS, UNIT};
use frequencies::frequency::frequency;
use interval::requirement::requirement;
use interval::settings::settings;
use interval::turns::BEFORE_UNITS;
use interval::{Step, Tally};
use units::unit::unit;

// The bytes of the record that comes next; behind the book's end those of a requirement.
pub fn size(tally: Tally) -> usize
    ensures value { result ≡ record_size tally.units tally.records }
    ensures upper_bound { result ≤ 372 }
{
    if tally.records < 1 {
        return SETTINGS;
    }
    if tally.records < BEFORE_UNITS {
        return FREQUENCY;
    }
    if tally.records - BEFORE_UNITS < tally.units {
        return UNIT;
    }
    REQUIREMENT
}

// Hands the part to the call whose turn it is. Refuses what that call refuses.
pub fn take(
    tally: Tally,
    part: &[u8],
    measures: &mut [i32],
    sums: &mut [i64],
    figures: &mut [i64],
    numbers: &mut [u16],
    homes: &mut [u8],
    rows: &mut [i64],
    groups: &mut [u16],
    deviations: &mut [i64],
) -> Step
    ensures { TurnPromise tally part.now
        (lent_unit measures.old sums.old figures.old numbers.old homes.old rows.old
        groups.old deviations.old) result
        (lent_unit measures.new sums.new figures.new numbers.new homes.new rows.new
        groups.new deviations.new) }
{
    if tally.records < 1 {
        return settings(tally, part);
    }
    if tally.records < BEFORE_UNITS {
        return frequency(tally, part, measures, sums, figures);
    }
    if tally.records - BEFORE_UNITS < tally.units {
        return unit(
            tally, part, measures, sums, figures, numbers, homes, rows, groups, deviations,
        );
    }
    requirement(tally, part)
}
