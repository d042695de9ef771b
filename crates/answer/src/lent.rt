// Which lent lists an answer is worked out from: long enough, else 12, and of numbers in range, else 11.
ghost use Rattle.std.specs.Prelude.{◌≡◌, ◌&&◌, ltb};
ghost use Rattle.interval.specs.Lent.{regions_long, rows_long};
ghost use Rattle.kept.specs.Range.{kept_fine};
ghost use Rattle.answer.specs.Asked.{lent};
ghost use Rattle.answer.specs.Lent.{Long};

use super::figures::figures_in_range;
use super::rows::rows_in_range;
use super::series::series_in_range;
use interval::{FIGURES_LENGTH, ROW_EACH, SERIES_LENGTH, SUMS_LENGTH, Tally};

// The measures, sums and figures of five regions, a home and a row for each unit.
pub(crate) fn lists_long(
    units: u16,
    measures: &[i32],
    sums: &[i64],
    figures: &[i64],
    homes: &[u8],
    rows: &[i64],
) -> bool
    ensures { result ≡ (regions_long (lent measures.now sums.now figures.now homes.now rows.now)
        && rows_long units (lent measures.now sums.now figures.now homes.now rows.now)) }
{
    let many = units as usize;
    if measures.len() < SERIES_LENGTH {
        return false;
    }
    if sums.len() < SUMS_LENGTH {
        return false;
    }
    if figures.len() < FIGURES_LENGTH {
        return false;
    }
    if homes.len() < many {
        return false;
    }
    ROW_EACH * many <= rows.len()
}

// One number more than units in each of the five columns, by their lengths; for the callers of `answer` too.
pub fn columns_long(
    units: u16,
    performances: usize,
    factors: usize,
    payments: usize,
    used: usize,
    unused: usize,
) -> bool
    ensures { result ≡ (ltb units performances && (ltb units factors && (ltb units payments && (ltb units used && ltb units unused)))) }
{
    let many = units as usize;
    if performances <= many {
        return false;
    }
    if factors <= many {
        return false;
    }
    if payments <= many {
        return false;
    }
    if used <= many {
        return false;
    }
    many < unused
}

// Every number that is read.
pub(crate) fn lent_in_range(
    tally: Tally,
    measures: &[i32],
    sums: &[i64],
    figures: &[i64],
    homes: &[u8],
    rows: &[i64],
) -> bool
    requires { Long tally.units (lent measures.now sums.now figures.now homes.now rows.now) }
    ensures { result ≡ kept_fine tally
        (lent measures.now sums.now figures.now homes.now rows.now) }
{
    if !series_in_range(tally.units, measures, sums) {
        return false;
    }
    if !figures_in_range(tally.interval, figures) {
        return false;
    }
    rows_in_range(tally.units as usize, homes, rows)
}
