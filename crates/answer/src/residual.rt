// The residual of a requirement: the sums of its regions' residuals, live or default. It counts as default if any is.
ghost use Rattle.std.specs.Prelude.{◌≡◌, ◌||◌, [], ◌+◌, ◌<◌, ◌≤◌, eqb, leb, length};
ghost use Rattle.answer.specs.Asked.{lent_members};
ghost use Rattle.answer.specs.Residual.{RowsWithin, Holds, residual_made, region_made, worse_of, PerformancesWithin, RegionsWithin, residual_to};

use super::homes::is_good;
use super::made::{defaults_place, member_of, performance_place, standing_of};
use super::regions::{covers, reliable};
use super::{DEFAULTS, Member};
use book::REGIONS;
use interval::{FIGURES_EACH, ROW_EACH};
use rules::{Direction, Reason, Standing};

// What the rows of a region hold: how many they are, how many of them good, and the performances of the good ones together.
#[derive(Clone, Copy)]
struct Held {
    units: u32,
    good: u32,
    sum: i64,
}

// What the rows before one hold, with it; `at` is where performances stand in a row. A row of another region, or that
// is passed over, adds nothing, and a bad plant no performance.
fn with_row(held: Held, at: usize, region: usize, row: usize, homes: &[u8], rows: &[i64]) -> Held
    requires { RowsWithin at (row + 1) (lent_members [] homes.now rows.now)
        × Holds at region row (lent_members [] homes.now rows.now) held }
    ensures { Holds at region (row + 1) (lent_members [] homes.now rows.now) result }
{
    let home = homes[row];
    if region != (home / 2) as usize {
        return held;
    }
    let units = held.units + 1;
    if !is_good(home) {
        return Held {
            units: units,
            good: held.good,
            sum: held.sum,
        };
    }
    Held {
        units: units,
        good: held.good + 1,
        sum: held.sum + rows[ROW_EACH * row + at],
    }
}

fn rows_held(at: usize, region: usize, units: usize, homes: &[u8], rows: &[i64]) -> Held
    requires { RowsWithin at units (lent_members [] homes.now rows.now) }
    ensures { Holds at region units (lent_members [] homes.now rows.now) result }
{
    let mut held = Held {
        units: 0,
        good: 0,
        sum: 0,
    };
    for row in 0..units {
        held = with_row(held, at, region, row, homes, rows);
    }
    held
}

fn some_good_or_none(good: u32, units: u32) -> bool
    ensures { result ≡ (leb 1 good || eqb units 0) }
{
    if 1 <= good {
        return true;
    }
    units == 0
}

// A residual with its region's three defaults of the direction.
fn with_defaults(
    direction: Direction,
    standing: Standing,
    performance: i64,
    region: usize,
    figures: &[i64],
) -> Member
    requires { (region < 5) × (50 ≤ length figures.now) }
    ensures { result ≡ residual_made (lent_members figures.now [] []) direction standing performance region }
{
    let start = FIGURES_EACH * region;
    let at = DEFAULTS + defaults_place(direction);
    member_of(
        standing,
        performance,
        figures[start + (at + 0)],
        figures[start + (at + 1)],
        figures[start + (at + 2)],
    )
}

// A region's residual: minus the performances of its good plants.
pub(crate) fn region_member(
    direction: Direction,
    region: usize,
    units: usize,
    figures: &[i64],
    homes: &[u8],
    rows: &[i64],
) -> Member
    requires { (region < 5) × PerformancesWithin units (lent_members figures.now homes.now rows.now) }
    ensures { result ≡ region_made units (lent_members figures.now homes.now rows.now) direction region }
{
    let held = rows_held(performance_place(direction), region, units, homes, rows);
    let sound = reliable(direction, region, figures);
    let fine = some_good_or_none(held.good, held.units);
    let standing = standing_of(sound, fine, Reason::NoGoodUnit);
    with_defaults(direction, standing, -held.sum, region, figures)
}

// The worse of two standings.
fn worse(standing: Standing, next: Standing) -> Standing
    ensures { result ≡ worse_of standing next }
{
    match standing {
        Standing::Live => next,
        Standing::Default(reason) => match reason {
            Reason::UnreliableRegion => standing,
            Reason::BadUnit => standing,
            Reason::NoGoodUnit => match next {
                Standing::Live => standing,
                Standing::Default(_) => next,
            },
        },
    }
}

// The residual so far, with one region more.
fn with_region(
    sum: Member,
    direction: Direction,
    set: u8,
    region: usize,
    units: usize,
    figures: &[i64],
    homes: &[u8],
    rows: &[i64],
) -> Member
    requires { (region < 5) × RegionsWithin units (lent_members figures.now homes.now rows.now)
        × (sum ≡ residual_to units (lent_members figures.now homes.now rows.now) direction set region) }
    ensures { result ≡ residual_to units (lent_members figures.now homes.now rows.now) direction set (region + 1) }
{
    if !covers(set, region) {
        return sum;
    }
    let next = region_member(direction, region, units, figures, homes, rows);
    let before = sum.standing;
    let after = next.standing;
    Member {
        standing: worse(before, after),
        payment: sum.payment + next.payment,
        used: sum.used + next.used,
        unused: sum.unused + next.unused,
    }
}

pub(crate) fn residual_member(
    direction: Direction,
    set: u8,
    units: usize,
    figures: &[i64],
    homes: &[u8],
    rows: &[i64],
) -> Member
    requires { RegionsWithin units (lent_members figures.now homes.now rows.now) }
    ensures { result ≡ residual_to units (lent_members figures.now homes.now rows.now) direction set 5 }
{
    let mut sum = Member {
        standing: Standing::Live,
        payment: 0,
        used: 0,
        unused: 0,
    };
    for region in 0..REGIONS {
        sum = with_region(sum, direction, set, region, units, figures, homes, rows);
    }
    sum
}
