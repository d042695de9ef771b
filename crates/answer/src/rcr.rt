// RCR, the requirement for corrective response, from what the calls of `interval` have kept of a book (document 01, RCR): the reliability of
// the set's regions, their bad members, and last the 75 points.
ghost use Rattle.std.specs.Prelude.{◌≡◌, []};
ghost use Rattle.answer.specs.Asked.{lent};
ghost use Rattle.answer.specs.Rcr.{RcrTested, found_is};

use super::points::largest_response;
use super::regions::all_reliable;
use super::units::few_bad;
use rules::Direction;

// RCR in 75ths of a cMW, and whether every region of the set is reliable in the direction.
#[derive(Clone, Copy)]
pub(crate) struct Found {
    pub(crate) rcr: u64,
    pub(crate) reliable: bool,
}

pub(crate) fn rcr(
    units: usize,
    percent: u8,
    direction: Direction,
    set: u8,
    measures: &[i32],
    sums: &[i64],
    figures: &[i64],
    homes: &[u8],
) -> Found
    requires { RcrTested units percent (lent measures.now sums.now figures.now homes.now []) }
    ensures { result ≡ found_is units percent direction set
        (lent measures.now sums.now figures.now homes.now []) }
{
    if !all_reliable(direction, set, figures) {
        return Found {
            rcr: 0,
            reliable: false,
        };
    }
    if !few_bad(units, percent, set, homes) {
        return Found {
            rcr: 0,
            reliable: true,
        };
    }
    Found {
        rcr: largest_response(direction, set, measures, sums, figures),
        reliable: true,
    }
}
