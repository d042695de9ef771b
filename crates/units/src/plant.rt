// A unit with a group: its plant's 75 deviations are lent, and its region's sums hold the plant's part. One pass adds the unit's deviations up and moves the
// sums from the plant's part before the unit to its part with it.
ghost use Rattle.std.specs.Prelude.{◌≡◌, ◌+◌, ◌-◌, ◌%◌, ◌<◌, ◌≤◌, true, ◌&&◌, length, pos, if◌then◌else◌, ◌==◌, slice_index};
ghost use Rattle.integers.specs.Bounds.{Within};
ghost use Rattle.integers.specs.Sums.{when};
ghost use Rattle.integers.specs.Fills.{filled};
ghost use Rattle.book.specs.Unit.{reading_at};
ghost use Rattle.units.specs.Groups.{most_deviation, change, MoveBounds, with_change, PlantBounds, PlantMoved};

use super::deviation::deviation;
use super::points::{max, min, reading};
use book::{POINTS, UnitFields};
use interval::SUMS_EACH;

// Are both so?
pub(crate) fn both(a: bool, b: bool) -> bool
    ensures { result ≡ (a && b) }
{
    if a {
        return b;
    }
    false
}

// A number, or nothing.
fn counted(good: bool, x: i64) -> i64
    ensures { result ≡ when good x }
{
    if good {
        return x;
    }
    0
}

// What is added to a sum for a part that changes. A bad plant has none in the sums.
fn change(before: bool, old: i64, after: bool, new: i64) -> i64
    requires { Within most_deviation old × Within most_deviation new }
    ensures { result ≡ change before old after new }
{
    counted(after, new) - counted(before, old)
}

// Moves a point's two sums, the one above zero at `place` and the one below 75 later, from a plant's deviation to its next. A bad unit makes its plant bad.
fn move_part(before: bool, good: bool, place: usize, old: i64, new: i64, sums: &mut [i64])
    requires { MoveBounds place old new sums.old }
    ensures { sums.new ≡ with_change before (before && good) place old new sums.old }
{
    let after = both(before, good);
    let below = place + POINTS;
    sums[place] += change(before, max(0, old), after, max(0, new));
    sums[below] += change(before, min(0, old), after, min(0, new));
}

// A group that starts has no deviations yet.
fn clear(deviations: &mut [i64])
    requires { 75 ≤ length deviations.old }
    ensures { deviations.new ≡ filled 75 (λ t. pos 0) deviations.old }
{
    for t in 0..POINTS {
        deviations[t] = 0;
    }
}

// Was the plant good before the unit? One that the unit starts was nothing, and good.
pub(crate) fn plant_before(joining: bool, row: usize, homes: &[u8], deviations: &mut [i64]) -> bool
    requires { (row ≤ length homes.now) × (joining ≡ true → 0 < row) × (75 ≤ length deviations.old) }
    ensures { (result ≡ (if joining then (slice_index homes.now (row - 1) % 2 == 1) else true))
        × (deviations.new ≡ (if joining then deviations.old else filled 75 (λ t. pos 0) deviations.old)) }
{
    if joining {
        return homes[row - 1] % 2 == 1;
    }
    clear(deviations);
    true
}

// The unit's deviations are worked out once more: the trajectory is a ramp, as where it is weighed.
pub(crate) fn move_plant(
    fields: UnitFields,
    before: bool,
    part: &[u8],
    sums: &mut [i64],
    deviations: &mut [i64],
)
    requires { PlantBounds fields part.now sums.old deviations.old }
    ensures { PlantMoved before fields (reading_at part.now) sums.old deviations.old sums.new deviations.new }
{
    let kind = fields.kind;
    let start = SUMS_EACH * (fields.region as usize);
    let step = fields.end - fields.start;
    let bytes = &part[72..372];
    let mut trajectory: i32 = 75 * fields.start;
    for t in 0..75u32 {
        trajectory += step;
        let old = deviations[t as usize];
        let new = old + deviation(kind, reading(bytes, t), trajectory);
        deviations[t as usize] = new;
        move_part(before, fields.good, start + t as usize, old, new, sums);
    }
}
