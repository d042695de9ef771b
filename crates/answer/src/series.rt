// The series of the five regions: measures, and sums of positive and of negative deviations, at 75 points each.
ghost use Rattle.std.specs.Prelude.{◌≡◌, ◌&&◌, [], ◌<◌, ◌≤◌, ◌^◌, length};
ghost use Rattle.rules.specs.declared.Direction.TheVariants.{Raise, Lower};
ghost use Rattle.kept.specs.Range.{measures_fine, sums_fine, series_fine};
ghost use Rattle.answer.specs.Asked.{tally_of, lent};
ghost use Rattle.answer.specs.Ranges.{sums_at_most};

use book::{POINTS, REGIONS};
use interval::lent::within_bounds;
use interval::sizes::size;
use interval::{DEVIATION_LIMIT, SUMS_EACH};

const LEAST_MEASURE: i64 = -5_000_000;

// The limit of FM with the mark of a dropped point.
const MOST_MEASURE: i64 = 15_000_001;

// The five regions' measures at one point: the FM of dropped points stands right above that of kept ones.
fn measures_within(t: usize, measures: &[i32]) -> bool
    requires { (t < 75) × (375 ≤ length measures.now) }
    ensures { result ≡ measures_fine (lent measures.now [] [] [] []) t }
{
    for region in 0..REGIONS {
        let measure = measures[POINTS * region + t] as i64;
        if !within_bounds(LEAST_MEASURE, MOST_MEASURE, measure) {
            return false;
        }
    }
    true
}

// Each unit stands in one region, so the sizes of the five regions' sums are at most so much together: of those at one place among a region's
// 150, that is on one side of zero at one point.
fn sums_within(most: u64, at: usize, sums: &[i64]) -> bool
    requires { (most < 2 ^ 40) × (at < 150) × (750 ≤ length sums.now) }
    ensures { result ≡ sums_at_most most sums.now at }
{
    let mut left = most;
    for region in 0..REGIONS {
        let here = size(sums[SUMS_EACH * region + at]);
        if left < here {
            return false;
        }
        left -= here;
    }
    true
}

fn point_within(most: u64, t: usize, measures: &[i32], sums: &[i64]) -> bool
    requires { (most < 2 ^ 40) × (t < 75) × (375 ≤ length measures.now) × (750 ≤ length sums.now) }
    ensures { result ≡ (measures_fine (lent measures.now [] [] [] []) t
        && (sums_fine most (lent [] sums.now [] [] []) Raise t && sums_fine most (lent [] sums.now [] [] []) Lower t)) }
{
    if !measures_within(t, measures) {
        return false;
    }
    if !sums_within(most, t, sums) {
        return false;
    }
    sums_within(most, POINTS + t, sums)
}

// Is the FM of measures within its limit, and are sums within 15,000,000 for each unit taken?
pub(crate) fn series_in_range(units: u16, measures: &[i32], sums: &[i64]) -> bool
    requires { (375 ≤ length measures.now) × (750 ≤ length sums.now) }
    ensures { result ≡ series_fine (tally_of units 0 0) (lent measures.now sums.now [] [] []) }
{
    let most = DEVIATION_LIMIT * (units as u64);
    for t in 0..POINTS {
        if !point_within(most, t, measures, sums) {
            return false;
        }
    }
    true
}
