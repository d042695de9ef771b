// Who a member is, and what follows from it: how far a live performance can reach, and the limit of its default's field in a book.
ghost use Rattle.std.specs.Prelude.{◌≡◌, true, ◌*◌, ◌≤◌};
ghost use Rattle.rules.specs.Quantities.{performance_limit};
ghost use Rattle.rules.specs.Week.{default_limit};
ghost use Rattle.rules.specs.RunningWeek.{base};
ghost use Rattle.weeks.specs.Runs.{units_of, units_fine};

use rules::{MOST_UNITS, Whose};

// What a unit can reach in an interval, and the limit of its default.
const UNIT_LIMIT: u64 = 5_625_000_000_000_000;

// What a residual can reach in an interval: as much as 512 units.
pub(crate) const BASE: u64 = 2_880_000_000_000_000_000;

const RESIDUAL_DEFAULT_LIMIT: u64 = 50_000_000_000_000_000;

// How many units a member reaches as far as: by this number alone it is tested, and its reach worked out.
pub(crate) fn units_of(whose: Whose) -> u16
    ensures { result ≡ units_of whose }
{
    match whose {
        Whose::Unit => 1,
        Whose::Group(units) => units,
        Whose::Residual => MOST_UNITS,
    }
}

// A group has 1 to 512 units.
pub(crate) fn is_fine(units: u16) -> bool
    ensures { result ≡ units_fine units }
{
    if units < 1 {
        return false;
    }
    units <= MOST_UNITS
}

// What a live performance of so many can reach, either way.
pub(crate) fn reach(units: u16) -> u64
    requires { units_fine units ≡ true }
    ensures { (result ≡ units * performance_limit) × (result ≤ base) }
{
    units as u64 * UNIT_LIMIT
}

pub(crate) fn default_limit(whose: Whose) -> u64
    ensures { result ≡ default_limit whose }
{
    match whose {
        Whose::Unit => UNIT_LIMIT,
        Whose::Group(_) => UNIT_LIMIT,
        Whose::Residual => RESIDUAL_DEFAULT_LIMIT,
    }
}
