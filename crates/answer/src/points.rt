// RCR's 75 points. Every number has been tested, so these ask for bounds and test none again.
ghost use Rattle.std.specs.Prelude.{◌≡◌, [], ◌<◌, max, pos};
ghost use Rattle.std.specs.Int.Signed.{lt_z};
ghost use Rattle.rules.specs.Book.{toward};
ghost use Rattle.answer.specs.Asked.{lent};
ghost use Rattle.answer.specs.Rcr.{PointsInRange, Summed, point_response, points_largest};

use super::GENERATION;
use super::counts::if_counted;
use super::regions::covers;
use book::{POINTS, REGIONS};
use interval::lent::measure_held;
use interval::sizes::{above, below};
use interval::{FIGURES_EACH, SUMS_EACH};
use rules::Direction;

// Over the set's regions, at one point: generation times FM, of dropped points too, and the sums of positive and of negative deviations.
#[derive(Clone, Copy)]
pub(crate) struct Sums {
    pub weighed: i64,
    pub positive: i64,
    pub negative: i64,
}

// Is the requirement's FM sign that of the direction?
fn right_sign(direction: Direction, weighed: i64) -> bool
    ensures { result ≡ lt_z (pos 0) (toward direction weighed) }
{
    match direction {
        Direction::Raise => 0 < weighed,
        Direction::Lower => weighed < 0,
    }
}

fn larger(a: u64, b: u64) -> u64
    ensures { result ≡ max a b }
{
    if a < b {
        return b;
    }
    a
}

fn sums_at(set: u8, t: usize, measures: &[i32], sums: &[i64], figures: &[i64]) -> Sums
    requires { (t < 75) × PointsInRange (lent measures.now sums.now figures.now [] []) }
    ensures { Summed set t (lent measures.now sums.now figures.now [] []) result }
{
    let mut weighed: i64 = 0;
    let mut risen: i64 = 0;
    let mut fallen: i64 = 0;
    for region in 0..REGIONS {
        let start = SUMS_EACH * region;
        let counts = covers(set, region);
        let measure = measure_held(measures[POINTS * region + t]) as i64;
        weighed += if_counted(
            counts,
            figures[FIGURES_EACH * region + GENERATION] * measure,
        );
        risen += if_counted(counts, sums[start + t]);
        fallen += if_counted(counts, sums[start + (POINTS + t)]);
    }
    Sums {
        weighed: weighed,
        positive: risen,
        negative: fallen,
    }
}

// At a point of the right sign the larger of the two sums, at any other 0.
fn response_at(
    direction: Direction,
    set: u8,
    t: usize,
    measures: &[i32],
    sums: &[i64],
    figures: &[i64],
) -> u64
    requires { (t < 75) × PointsInRange (lent measures.now sums.now figures.now [] []) }
    ensures { result ≡ point_response direction set (lent measures.now sums.now figures.now [] []) t }
{
    let found = sums_at(set, t, measures, sums, figures);
    if !right_sign(direction, found.weighed) {
        return 0;
    }
    larger(above(found.positive), below(found.negative))
}

pub(crate) fn largest_response(
    direction: Direction,
    set: u8,
    measures: &[i32],
    sums: &[i64],
    figures: &[i64],
) -> u64
    requires { PointsInRange (lent measures.now sums.now figures.now [] []) }
    ensures { result ≡ points_largest direction set (lent measures.now sums.now figures.now [] []) }
{
    let mut largest: u64 = 0;
    for t in 0..POINTS {
        largest = larger(
            largest,
            response_at(direction, set, t, measures, sums, figures),
        );
    }
    largest
}
