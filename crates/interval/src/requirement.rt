// A requirement record, after the last unit. With the last requirement the book ends.
ghost use Rattle.std.specs.Prelude.{◌≡◌, eqb, ◌+◌, ◌<◌, ◌≤◌};
ghost use Rattle.interval.specs.Tally.{book_end};
ghost use Rattle.interval.specs.Promises.{RequirementPromise};

use super::steps::{count, refuse};
use super::turns::{BEFORE_UNITS, requirement_turn};
use super::{Step, Tally};
use rules::Refusal;

// Is the record that comes next the book's last?
fn comes_last(tally: Tally) -> bool
    requires { (tally.records < 550) × (tally.units ≤ 512) × (tally.requirements ≤ 32) }
    ensures { result ≡ eqb (tally.records + 1) (book_end tally) }
{
    tally.records + 1 == BEFORE_UNITS + tally.units + tally.requirements
}

// Takes a requirement. Refuses 11, then 1 and 10, then, with the last one, 4.
pub fn requirement(tally: Tally, part: &[u8]) -> Step
    ensures { RequirementPromise tally part.now result }
{
    if !requirement_turn(tally) {
        return refuse(tally, Refusal::WrongState);
    }
    let least = tally.least;
    let last = comes_last(tally);
    let read = book::requirement::read_requirement(part, least, last);
    match read {
        Ok(fields) => count(tally, fields.number as u32 + 1),
        Err(refusal) => refuse(tally, refusal),
    }
}
