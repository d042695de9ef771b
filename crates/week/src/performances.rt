// What the members of a book did. For each region and direction a requirement of that region that costs nothing is put to the calculator, and its answer has
// the performances: of the region's units and groups in their order, then of its residual. They are noted as the weeks stand: two for each row, raise and then lower, and
// behind those two for each region's residual.
ghost use Rattle.std.specs.Prelude.{◌<◌, ◌≤◌};

use super::running::{RESIDUALS, WEEKS};
use answer::Row;
use answer::call::answer;
use answer::roster::member;
use book::{REQUIREMENT, SET};
use interval::{FIGURES_LENGTH, ROWS_LENGTH, SERIES_LENGTH, SUMS_LENGTH, Tally};
use rules::{Direction, MOST_UNITS, Refusal, Standing};

pub(crate) const ROWS: usize = 512;

// One more than the units, for the residual.
const COLUMN: usize = 513;

// Where a requirement's record holds its direction.
const DIRECTION: usize = 3;

// Five regions, each raise and then lower.
const RESIDUAL_WEEKS: usize = 10;

// Where the residual stands in the column, unless the calculator refused.
#[derive(Clone, Copy)]
struct Noted {
    place: usize,
    kept: Result<(), Refusal>,
}

// 1 for live, 0 for a default.
fn live_byte(standing: Standing) -> u8 {
    match standing {
        Standing::Live => 1,
        Standing::Default(_) => 0,
    }
}

// 0 for raise, 1 for lower: as in a requirement's record, and in the weeks.
fn direction_of(offset: usize) -> Direction {
    match offset {
        0 => Direction::Raise,
        _ => Direction::Lower,
    }
}

fn direction_byte(direction: Direction) -> u8 {
    match direction {
        Direction::Raise => 0,
        Direction::Lower => 1,
    }
}

// The set of one region.
fn only(region: usize) -> u8 {
    match region {
        0 => 1,
        1 => 2,
        2 => 4,
        3 => 8,
        _ => 16,
    }
}

// A book has no more units than there are rows.
pub(crate) fn within_rows(units: u16) -> u16
    ensures { result ≤ 512 }
{
    if MOST_UNITS < units {
        return MOST_UNITS;
    }
    units
}

// The rows of a region.
fn note_rows(
    tally: Tally,
    units: u16,
    offset: usize,
    set: u8,
    figures: &[i64; FIGURES_LENGTH],
    numbers: &[u16; ROWS],
    homes: &[u8; ROWS],
    column: &[i64; COLUMN],
    done: &mut [i64; WEEKS],
    live: &mut [u8; WEEKS],
) -> Noted
    requires { (units ≤ 512) × (offset ≤ 1) }
    ensures { result.place ≤ 512 }
{
    let direction = direction_of(offset);
    let mut place: usize = 0;
    for row in 0..units {
        let who = member(tally, row, direction, set, figures, numbers, homes);
        match who {
            Row::Unit(_, standing) => {
                let at = 2 * (row as usize) + offset;
                done[at] = column[place];
                live[at] = live_byte(standing);
                place += 1;
            }
            Row::Other => {}
            Row::Refused(refusal) => {
                return Noted {
                    place,
                    kept: Err(refusal),
                };
            }
        }
    }
    Noted {
        place,
        kept: Ok(()),
    }
}

// The members of a region in a direction; `each` counts both, from the first region's raise on.
fn note_region(
    tally: Tally,
    each: usize,
    measures: &[i32; SERIES_LENGTH],
    sums: &[i64; SUMS_LENGTH],
    figures: &[i64; FIGURES_LENGTH],
    numbers: &[u16; ROWS],
    homes: &[u8; ROWS],
    rows: &[i64; ROWS_LENGTH],
    done: &mut [i64; WEEKS],
    live: &mut [u8; WEEKS],
) -> Result<(), Refusal>
    requires { each < 10 }
{
    let mut column = [0i64; COLUMN];
    let mut factors = [0i64; COLUMN];
    let mut payments = [0i64; COLUMN];
    let mut used = [0i64; COLUMN];
    let mut unused = [0i64; COLUMN];
    let set = only(each / 2);
    let offset = each % 2;
    let mut part = [0u8; REQUIREMENT];
    part[SET] = set;
    part[DIRECTION] = direction_byte(direction_of(offset));
    let given = answer(
        tally,
        &part,
        measures,
        sums,
        figures,
        homes,
        rows,
        &mut column,
        &mut factors,
        &mut payments,
        &mut used,
        &mut unused,
    )?;
    let units = within_rows(tally.units);
    let noted = note_rows(
        tally, units, offset, set, figures, numbers, homes, &column, done, live,
    );
    let place = noted.place;
    done[RESIDUALS + each] = column[place];
    let standing = given.residual;
    live[RESIDUALS + each] = live_byte(standing);
    noted.kept
}

// All members of a book in both directions.
pub(crate) fn note_book(
    tally: Tally,
    measures: &[i32; SERIES_LENGTH],
    sums: &[i64; SUMS_LENGTH],
    figures: &[i64; FIGURES_LENGTH],
    numbers: &[u16; ROWS],
    homes: &[u8; ROWS],
    rows: &[i64; ROWS_LENGTH],
    done: &mut [i64; WEEKS],
    live: &mut [u8; WEEKS],
) -> Result<(), Refusal> {
    for each in 0..RESIDUAL_WEEKS {
        let kept = note_region(
            tally, each, measures, sums, figures, numbers, homes, rows, done, live,
        );
        if let Err(_) = kept {
            return kept;
        }
    }
    Ok(())
}
