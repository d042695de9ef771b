// What is tested before a unit is written, in the order of the refusals; past the tests the unit's record decides.
ghost use Rattle.std.specs.Prelude.{◌≡◌, ◌≤◌};
ghost use Rattle.book.specs.Unit.{unit_answer};
ghost use Rattle.interval.specs.Tally.{units_taken};
ghost use Rattle.interval.specs.Lent.{lent_unit};
ghost use Rattle.interval.specs.Calls.{unit_reply};

use super::group::{in_group, is_free};
use super::lent::{lent_in_range, named_group, regions_long, units_long};
use book::UnitFields;
use interval::Tally;
use interval::lent::of_interval;
use interval::turns::{BEFORE_UNITS, unit_turn};
use rules::Refusal;

// The row that comes next.
pub(crate) fn next_row(tally: Tally) -> usize
    requires { 6 ≤ tally.records }
    ensures { result ≡ units_taken tally }
{
    (tally.records - BEFORE_UNITS) as usize
}

// The unit whose record `part` starts with. Of the lists that are not read the lengths are tested.
pub(crate) fn tested_unit(
    tally: Tally,
    part: &[u8],
    measures: &[i32],
    sums: &[i64],
    figures: &[i64],
    numbers: &[u16],
    homes: &[u8],
    rows: &[i64],
    groups: &[u16],
    deviations: &[i64],
) -> Result<UnitFields, Refusal>
    ensures { result ≡ unit_answer (unit_reply tally part.now (lent_unit measures.now sums.now figures.now
        numbers.now homes.now rows.now groups.now deviations.now)) }
{
    if !unit_turn(tally) {
        return Err(Refusal::WrongState);
    }
    if !regions_long(measures.len(), sums.len(), figures.len()) {
        return Err(Refusal::TooShort);
    }
    let row = next_row(tally);
    if !units_long(
        row + 1,
        numbers.len(),
        homes.len(),
        rows.len(),
        groups.len(),
        deviations.len(),
    ) {
        return Err(Refusal::TooShort);
    }
    let free = is_free(named_group(part), row, groups);
    if !of_interval(tally.interval, figures) {
        return Err(Refusal::WrongState);
    }
    if !lent_in_range(part, row, measures, sums, homes, rows, groups, deviations) {
        return Err(Refusal::WrongState);
    }
    in_group(
        book::unit::read_unit(part, tally.least),
        free,
        row,
        homes,
        groups,
    )
}
