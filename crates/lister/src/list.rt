// The call that lists a taken book, piece by piece.
ghost use Rattle.std.specs.Prelude.{◌≡◌, ◌&&◌, eqb};
ghost use Rattle.interval.specs.Tally.{in_range, book_end};
ghost use Rattle.interval.specs.Lent.{Lent};
ghost use Rattle.answer.specs.Promises.{columns};
ghost use Rattle.lister.specs.Promises.{room_for_any, list_tests, ListPromise};
ghost use Rattle.lister.specs.Steps.{lent_listing, halt_of, is_on, told_as};

use super::turn::turn;
use super::{Cursor, Halt, Listed};
use book::REQUIREMENT;
use interval::Tally;
use interval::turns::{BEFORE_UNITS, answer_turn};
use listing::LINE;
use rules::Refusal;

// Every record of the book is in.
fn ended(tally: Tally) -> bool
    ensures { result ≡ (in_range tally && eqb tally.records (book_end tally)) }
{
    if !answer_turn(tally) {
        return false;
    }
    tally.records == BEFORE_UNITS + tally.units + tally.requirements
}

// Before a requirement that is yet to be answered any line may come, and a refusal leaves the columns as they were: so the longest must have room.
fn room_for_any(tally: Tally, cursor: Cursor, room: usize) -> bool
    ensures { result ≡ room_for_any tally cursor room }
{
    if LINE <= room {
        return true;
    }
    match cursor {
        Cursor::Interval => true,
        Cursor::Requirement(requirement) => tally.requirements <= requirement,
        Cursor::Answered(_, _) => true,
        Cursor::Members(_, _, _, _) => true,
    }
}

fn tested(tally: Tally, bytes: usize, cursor: Cursor, room: usize) -> Halt
    ensures { result ≡ halt_of (list_tests tally bytes cursor room) }
{
    if !ended(tally) {
        return Halt::Refused(Refusal::WrongState);
    }
    if bytes < REQUIREMENT * tally.requirements as usize {
        return Halt::Refused(Refusal::EndsEarly);
    }
    if !room_for_any(tally, cursor, room) {
        return Halt::Refused(Refusal::TooShort);
    }
    Halt::On
}

fn goes_on(halt: Halt) -> bool
    ensures { result ≡ is_on halt }
{
    match halt {
        Halt::On => true,
        Halt::Full => false,
        Halt::Ended => false,
        Halt::Refused(_) => false,
    }
}

// What is told of a listing that does not go on. Where no line was written, nothing was.
fn told(at: Cursor, done: usize, halt: Halt) -> Listed
    ensures { result ≡ told_as at done halt }
{
    if 0 < done {
        return Listed::Written(done, at);
    }
    match halt {
        Halt::On => Listed::Refused(Refusal::TooShort),
        Halt::Full => Listed::Refused(Refusal::TooShort),
        Halt::Ended => Listed::Nothing,
        Halt::Refused(refusal) => Listed::Refused(refusal),
    }
}

// Writes as many whole lines as have room, from the cursor on; the requirements' records stand in `bytes`, one after the other. Refuses 11 for a tally out of
// range or before the book's end, 1 for bytes that end before the last requirement, then 12 where not even one line has room, 11 for a cursor that a listing
// does not come to, and what `answer` and `member` refuse. On a refusal nothing is written.
pub fn list(
    cursor: Cursor,
    tally: Tally,
    bytes: &[u8],
    measures: &[i32],
    sums: &[i64],
    figures: &[i64],
    numbers: &[u16],
    homes: &[u8],
    rows: &[i64],
    performances: &mut [i64],
    factors: &mut [i64],
    payments: &mut [i64],
    used: &mut [i64],
    unused: &mut [i64],
    text: &mut [u8],
) -> Listed
    ensures { (rest : Lent) → ListPromise cursor tally bytes.now (lent_listing rest measures.now sums.now figures.now numbers.now homes.now rows.now)
        (columns performances.old factors.old payments.old used.old unused.old) text.old result
        (columns performances.new factors.new payments.new used.new unused.new) text.new }
{
    let mut at = cursor;
    let mut done: usize = 0;
    let mut halt = tested(tally, bytes.len(), cursor, text.len());
    while goes_on(halt) {
        let step = turn(
            at,
            tally,
            bytes,
            measures,
            sums,
            figures,
            numbers,
            homes,
            rows,
            performances,
            factors,
            payments,
            used,
            unused,
            done,
            text,
        );
        at = step.at;
        done = step.done;
        halt = step.halt;
    }
    told(at, done, halt)
}
