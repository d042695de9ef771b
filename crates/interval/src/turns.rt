// Which tallies a call takes: in range, and at its turn. Every other is refused with 11.
ghost use Rattle.std.specs.Prelude.{◌≡◌, ◌&&◌};
ghost use Rattle.interval.specs.Tally.{
  in_range,
  settings_kept,
  settings_turn,
  frequency_turn,
  unit_turn,
  requirement_turn,
  answer_turn,
  units_end,
  book_end,
};

use super::Tally;
use rules::MOST_UNITS;

const MOST_REQUIREMENTS: u16 = 32;

// The settings and five frequency records come before the units.
pub const BEFORE_UNITS: u16 = 6;

fn settings_in_range(tally: Tally) -> bool
    ensures { result ≡ settings_kept tally }
{
    if tally.records == 0 {
        return true;
    }
    if tally.smoothing < 1 {
        return false;
    }
    if 10_000 < tally.smoothing {
        return false;
    }
    if 75 < tally.limit {
        return false;
    }
    tally.percent <= 100
}

fn in_range(tally: Tally) -> bool
    ensures { result ≡ in_range tally }
{
    if MOST_UNITS < tally.units {
        return false;
    }
    if tally.requirements < 1 {
        return false;
    }
    if MOST_REQUIREMENTS < tally.requirements {
        return false;
    }
    if BEFORE_UNITS + tally.units + tally.requirements < tally.records {
        return false;
    }
    if 65_536 < tally.least {
        return false;
    }
    settings_in_range(tally)
}

pub(crate) fn settings_turn(tally: Tally) -> bool
    ensures { result ≡ (in_range tally && settings_turn tally) }
{
    if !in_range(tally) {
        return false;
    }
    tally.records == 0
}

pub fn frequency_turn(tally: Tally) -> bool
    ensures { result ≡ (in_range tally && frequency_turn tally) }
{
    if !in_range(tally) {
        return false;
    }
    if tally.records < 1 {
        return false;
    }
    tally.records < BEFORE_UNITS
}

pub fn unit_turn(tally: Tally) -> bool
    ensures { result ≡ (in_range tally && unit_turn tally) }
{
    if !in_range(tally) {
        return false;
    }
    if tally.records < BEFORE_UNITS {
        return false;
    }
    tally.records - BEFORE_UNITS < tally.units
}

pub(crate) fn requirement_turn(tally: Tally) -> bool
    ensures { result ≡ (in_range tally && requirement_turn tally) }
{
    if !in_range(tally) {
        return false;
    }
    if tally.records < BEFORE_UNITS + tally.units {
        return false;
    }
    tally.records < BEFORE_UNITS + tally.units + tally.requirements
}

// Every unit is in: from then on a requirement can be answered, in any order, again and again.
pub fn answer_turn(tally: Tally) -> bool
    ensures { result ≡ (in_range tally && answer_turn tally) }
{
    if !in_range(tally) {
        return false;
    }
    BEFORE_UNITS + tally.units <= tally.records
}
