// The figures of the five regions: the interval number of their book, and of each region its generation, whether raise and lower are reliable,
// and its residual's six defaults.
ghost use Rattle.std.specs.Prelude.{◌≡◌, [], ◌≤◌, ◌<◌, length};
ghost use Rattle.kept.specs.Range.{region_fine, figures_fine};
ghost use Rattle.answer.specs.Asked.{tally_of, lent_members};

use super::{DEFAULTS, GENERATION, LOWER_RELIABLE, RAISE_RELIABLE};
use book::REGIONS;
use interval::FIGURES_EACH;
use interval::lent::{of_interval, six_in_range, within_bounds};

const AMOUNT_LIMIT: i64 = 2_000_000;

const LEAST_DEFAULT: i64 = -50_000_000_000_000_000;

pub(crate) fn region_within(region: usize, figures: &[i64]) -> bool
    requires { (region < 5) × (50 ≤ length figures.now) }
    ensures { result ≡ region_fine (lent_members figures.now [] []) region }
{
    let start = FIGURES_EACH * region;
    if !within_bounds(0, AMOUNT_LIMIT, figures[start + GENERATION]) {
        return false;
    }
    if !within_bounds(0, 1, figures[start + RAISE_RELIABLE]) {
        return false;
    }
    if !within_bounds(0, 1, figures[start + LOWER_RELIABLE]) {
        return false;
    }
    six_in_range(LEAST_DEFAULT, start + DEFAULTS, figures)
}

// Are the figures of all five regions those of the interval, and within the limits of their fields?
pub(crate) fn figures_in_range(interval: u32, figures: &[i64]) -> bool
    requires { 50 ≤ length figures.now }
    ensures { result ≡ figures_fine (tally_of 0 0 interval) (lent_members figures.now [] []) }
{
    if !of_interval(interval, figures) {
        return false;
    }
    for region in 0..REGIONS {
        if !region_within(region, figures) {
            return false;
        }
    }
    true
}
