// Who stands in a row of the roster, by a few numbers of the row and its region: a listing walks the rows with it.
ghost use Rattle.std.specs.Prelude.{◌≡◌, ◌&&◌, ◌≤◌, ltb, length};
ghost use Rattle.rules.specs.RequirementRecord.{set_fine};
ghost use Rattle.interval.specs.Lent.{Lent, lent_member};
ghost use Rattle.answer.specs.Asked.{no_lists};
ghost use Rattle.answer.specs.Roster.{member_long, home_fine, row_told, row_answer, MemberPromise};

use super::Row;
use super::homes::in_set;
use super::made::row_standing;
use super::regions::figure_of;
use interval::lent::{of_interval, within_bounds};
use interval::turns::answer_turn;
use interval::{FIGURES_LENGTH, PASSED_OVER, Tally};
use rules::{Direction, Refusal};

// A set of one or more of the bits 0 to 4, and a row that a unit has.
fn asked_in_range(units: u16, row: u16, set: u8) -> bool
    ensures { result ≡ (set_fine set && ltb row units) }
{
    if set >> 5 != 0 {
        return false;
    }
    if set & 0x1f == 0 {
        return false;
    }
    row < units
}

// The figures of five regions, a number and a home for each unit.
fn roster_long(units: usize, figures: &[i64], numbers: &[u16], homes: &[u8]) -> bool
    ensures { result ≡ member_long units (lent_member no_lists figures.now numbers.now homes.now) }
{
    if figures.len() < FIGURES_LENGTH {
        return false;
    }
    if numbers.len() < units {
        return false;
    }
    units <= homes.len()
}

// A home that names a region, and a region's reliability that is 0 or 1; or the home of a row that is passed over.
fn home_in_range(direction: Direction, home: u8, figures: &[i64]) -> bool
    requires { 50 ≤ length figures.now }
    ensures { result ≡ home_fine direction home figures.now }
{
    if PASSED_OVER < home {
        return false;
    }
    if home == PASSED_OVER {
        return true;
    }
    within_bounds(0, 1, figure_of(direction, (home / 2) as usize, figures))
}

// The member's number and standing where its region is one of the set's. Refuses 11 for a number that is out of range.
fn unit_or_other(direction: Direction, set: u8, number: u16, home: u8, figures: &[i64]) -> Row
    requires { (set ≤ 31) × (50 ≤ length figures.now) }
    ensures { result ≡ row_answer (row_told direction set number home figures.now) }
{
    if !home_in_range(direction, home, figures) {
        return Row::Refused(Refusal::WrongState);
    }
    if !in_set(set, home) {
        return Row::Other;
    }
    Row::Unit(number, row_standing(direction, home, figures))
}

// Who stands in a row. Refuses 11 for a tally out of range or before the last unit, then 11 for a set out of range or a row that no unit has,
// then 12 for a short list, then 11 for a lent number out of range.
pub fn member(
    tally: Tally,
    row: u16,
    direction: Direction,
    set: u8,
    figures: &[i64],
    numbers: &[u16],
    homes: &[u8],
) -> Row
    ensures { (rest : Lent) →
        MemberPromise tally row direction set (lent_member rest figures.now numbers.now homes.now) result }
{
    if !answer_turn(tally) {
        return Row::Refused(Refusal::WrongState);
    }
    if !asked_in_range(tally.units, row, set) {
        return Row::Refused(Refusal::WrongState);
    }
    if !roster_long(tally.units as usize, figures, numbers, homes) {
        return Row::Refused(Refusal::TooShort);
    }
    if !of_interval(tally.interval, figures) {
        return Row::Refused(Refusal::WrongState);
    }
    let at = row as usize;
    unit_or_other(direction, set, numbers[at], homes[at], figures)
}
