// A requirement's lines, from wherever the cursor stands to the next requirement, as far as they have room.
ghost use Rattle.std.specs.Prelude.{◌≡◌, true, List, ℕ, ◌*◌, ◌≤◌, ◌<◌, length};
ghost use Rattle.interval.specs.Lent.{Lent, lent_member};
ghost use Rattle.answer.specs.Promises.{Columns, columns, columns_long};
ghost use Rattle.lister.specs.declared.Cursor.TheVariants as c;
ghost use Rattle.lister.specs.Move.{among};
ghost use Rattle.lister.specs.Steps.{lent_listing, halt_behind, Turns};

use super::members::{amounts, list_units};
use super::said::{say_interval, say_requirement, say_residual};
use super::{Cursor, Halt, Step};
use answer::Answer;
use answer::call::answer;
use answer::lent::columns_long;
use book::REQUIREMENT;
use interval::Tally;
use rules::Refusal;

fn from_interval(tally: Tally, done: usize, text: &mut [u8]) -> Step
    requires { done ≤ length text.old }
    ensures { (bytes : List ℕ) (l : Lent) (columns : Columns) →
        Turns tally bytes l c.Interval columns done text.old result columns text.new }
{
    let said = say_interval(tally.interval, done, text);
    if said == 0 {
        return Step {
            at: Cursor::Interval,
            done: done,
            halt: Halt::Full,
        };
    }
    Step {
        at: Cursor::Requirement(0),
        done: done + said,
        halt: Halt::On,
    }
}

// The residual's line, behind the units'.
fn from_residual(
    tally: Tally,
    requirement: u16,
    given: Answer,
    place: u16,
    performances: &[i64],
    factors: &[i64],
    payments: &[i64],
    used: &[i64],
    unused: &[i64],
    done: usize,
    text: &mut [u8],
) -> Step
    requires { (requirement < tally.requirements) × (tally.requirements ≤ 32) × (tally.units ≤ 512) × (place ≤ tally.units) × (done ≤ length text.old)
        × (columns_long tally.units (columns performances.now factors.now payments.now used.now unused.now) ≡ true) }
    ensures { (bytes : List ℕ) (l : Lent) → Turns tally bytes l (c.Members requirement given tally.units place)
        (columns performances.now factors.now payments.now used.now unused.now) done text.old
        result
        (columns performances.now factors.now payments.now used.now unused.now) text.new }
{
    let standing = given.residual;
    let shares = amounts(
        place as usize,
        performances,
        factors,
        payments,
        used,
        unused,
    );
    let said = say_residual(standing, shares, done, text);
    if said == 0 {
        return Step {
            at: Cursor::Members(requirement, given, tally.units, place),
            done: done,
            halt: Halt::Full,
        };
    }
    Step {
        at: Cursor::Requirement(requirement + 1),
        done: done + said,
        halt: Halt::On,
    }
}

// The units' lines from a row on, and the residual's.
fn from_row(
    tally: Tally,
    requirement: u16,
    given: Answer,
    row: u16,
    place: u16,
    figures: &[i64],
    numbers: &[u16],
    homes: &[u8],
    performances: &[i64],
    factors: &[i64],
    payments: &[i64],
    used: &[i64],
    unused: &[i64],
    done: usize,
    text: &mut [u8],
) -> Step
    requires { (among tally requirement row place ≡ true) × (tally.requirements ≤ 32) × (tally.units ≤ 512) × (done ≤ length text.old)
        × (columns_long tally.units (columns performances.now factors.now payments.now used.now unused.now) ≡ true) }
    ensures { (bytes : List ℕ) (rest : Lent) → Turns tally bytes (lent_member rest figures.now numbers.now homes.now)
        (c.Members requirement given row place) (columns performances.now factors.now payments.now used.now unused.now) done
        text.old result (columns performances.now factors.now payments.now used.now unused.now)
        text.new }
{
    let walked = list_units(
        tally,
        requirement,
        given,
        row,
        place,
        figures,
        numbers,
        homes,
        performances,
        factors,
        payments,
        used,
        unused,
        done,
        text,
    );
    let halt = walked.halt;
    let Halt::On = halt else {
        return Step {
            at: Cursor::Members(requirement, given, walked.row, walked.place),
            done: walked.done,
            halt: halt,
        };
    };
    from_residual(
        tally,
        requirement,
        given,
        walked.place,
        performances,
        factors,
        payments,
        used,
        unused,
        walked.done,
        text,
    )
}

// Is the requirement one of the book's, the row one of the roster or the residual's behind it, with no more members before it than rows?
fn among(tally: Tally, requirement: u16, row: u16, place: u16) -> bool
    ensures { result ≡ among tally requirement row place }
{
    if tally.requirements <= requirement {
        return false;
    }
    if tally.units < row {
        return false;
    }
    place <= row
}

// Refuses 11 for a place that a listing does not come to, then 12 for a short column.
fn from_members(
    tally: Tally,
    requirement: u16,
    given: Answer,
    row: u16,
    place: u16,
    figures: &[i64],
    numbers: &[u16],
    homes: &[u8],
    performances: &[i64],
    factors: &[i64],
    payments: &[i64],
    used: &[i64],
    unused: &[i64],
    done: usize,
    text: &mut [u8],
) -> Step
    requires { (tally.requirements ≤ 32) × (tally.units ≤ 512) × (done ≤ length text.old) }
    ensures { (bytes : List ℕ) (rest : Lent) → Turns tally bytes (lent_member rest figures.now numbers.now homes.now)
        (c.Members requirement given row place) (columns performances.now factors.now payments.now used.now unused.now) done
        text.old result (columns performances.now factors.now payments.now used.now unused.now)
        text.new }
{
    if !among(tally, requirement, row, place) {
        return Step {
            at: Cursor::Members(requirement, given, row, place),
            done: done,
            halt: Halt::Refused(Refusal::WrongState),
        };
    }
    if !columns_long(
        tally.units,
        performances.len(),
        factors.len(),
        payments.len(),
        used.len(),
        unused.len(),
    ) {
        return Step {
            at: Cursor::Members(requirement, given, row, place),
            done: done,
            halt: Halt::Refused(Refusal::TooShort),
        };
    }
    from_row(
        tally,
        requirement,
        given,
        row,
        place,
        figures,
        numbers,
        homes,
        performances,
        factors,
        payments,
        used,
        unused,
        done,
        text,
    )
}

// The line of a requirement that is answered, and its members'.
fn from_answered(
    tally: Tally,
    requirement: u16,
    given: Answer,
    figures: &[i64],
    numbers: &[u16],
    homes: &[u8],
    performances: &[i64],
    factors: &[i64],
    payments: &[i64],
    used: &[i64],
    unused: &[i64],
    done: usize,
    text: &mut [u8],
) -> Step
    requires { (tally.requirements ≤ 32) × (tally.units ≤ 512) × (done ≤ length text.old) }
    ensures { (bytes : List ℕ) (rest : Lent) → Turns tally bytes (lent_member rest figures.now numbers.now homes.now)
        (c.Answered requirement given) (columns performances.now factors.now payments.now used.now unused.entry.now) done
        text.old result (columns performances.now factors.now payments.now used.now unused.now)
        text.new }
{
    if tally.requirements <= requirement {
        return Step {
            at: Cursor::Answered(requirement, given),
            done: done,
            halt: Halt::Refused(Refusal::WrongState),
        };
    }
    let said = say_requirement(given, done, text);
    if said == 0 {
        return Step {
            at: Cursor::Answered(requirement, given),
            done: done,
            halt: Halt::Full,
        };
    }
    from_members(
        tally,
        requirement,
        given,
        0,
        0,
        figures,
        numbers,
        homes,
        performances,
        factors,
        payments,
        used,
        unused,
        done + said,
        text,
    )
}

// Nothing is left behind the last requirement; past that there is none.
fn behind(tally: Tally, requirement: u16, done: usize) -> Step
    requires { tally.requirements ≤ requirement }
    ensures { result ≡ record { at = c.Requirement requirement; done = done; halt = halt_behind tally.requirements requirement } }
{
    if tally.requirements < requirement {
        return Step {
            at: Cursor::Requirement(requirement),
            done: done,
            halt: Halt::Refused(Refusal::WrongState),
        };
    }
    Step {
        at: Cursor::Requirement(requirement),
        done: done,
        halt: Halt::Ended,
    }
}

// A requirement that is yet to be answered, and its lines. Refuses what `answer` refuses.
fn from_requirement(
    tally: Tally,
    requirement: u16,
    bytes: &[u8],
    measures: &[i32],
    sums: &[i64],
    figures: &[i64],
    numbers: &[u16],
    homes: &[u8],
    rows: &[i64],
    performances: &mut [i64],
    factors: &mut [i64],
    payments: &mut [i64],
    used: &mut [i64],
    unused: &mut [i64],
    done: usize,
    text: &mut [u8],
) -> Step
    requires { (tally.requirements ≤ 32) × (tally.units ≤ 512) × (24 * tally.requirements ≤ length bytes.now) × (done ≤ length text.old) }
    ensures { (rest : Lent) → Turns tally bytes.now (lent_listing rest measures.now sums.now figures.now
        numbers.now homes.now rows.now)
        (c.Requirement requirement) (columns performances.old factors.old payments.old used.old unused.entry.now) done
        text.old result (columns performances.new factors.new payments.new used.new unused.new) text.new }
{
    if tally.requirements <= requirement {
        return behind(tally, requirement, done);
    }
    let start = REQUIREMENT * requirement as usize;
    let answered = answer(
        tally,
        &bytes[start..],
        measures,
        sums,
        figures,
        homes,
        rows,
        performances,
        factors,
        payments,
        used,
        unused,
    );
    match answered {
        Ok(given) => from_answered(
            tally,
            requirement,
            given,
            figures,
            numbers,
            homes,
            performances,
            factors,
            payments,
            used,
            unused,
            done,
            text,
        ),
        Err(refusal) => Step {
            at: Cursor::Requirement(requirement),
            done: done,
            halt: Halt::Refused(refusal),
        },
    }
}

pub(crate) fn turn(
    at: Cursor,
    tally: Tally,
    bytes: &[u8],
    measures: &[i32],
    sums: &[i64],
    figures: &[i64],
    numbers: &[u16],
    homes: &[u8],
    rows: &[i64],
    performances: &mut [i64],
    factors: &mut [i64],
    payments: &mut [i64],
    used: &mut [i64],
    unused: &mut [i64],
    done: usize,
    text: &mut [u8],
) -> Step
    requires { (tally.requirements ≤ 32) × (tally.units ≤ 512) × (24 * tally.requirements ≤ length bytes.now) × (done ≤ length text.old) }
    ensures { (rest : Lent) → Turns tally bytes.now (lent_listing rest measures.now sums.now figures.now
        numbers.now homes.now rows.now)
        at (columns performances.old factors.old payments.old used.old unused.old) done
        text.old result (columns performances.new factors.new payments.new used.new unused.new) text.new }
{
    match at {
        Cursor::Interval => from_interval(tally, done, text),
        Cursor::Requirement(requirement) => from_requirement(
            tally,
            requirement,
            bytes,
            measures,
            sums,
            figures,
            numbers,
            homes,
            rows,
            performances,
            factors,
            payments,
            used,
            unused,
            done,
            text,
        ),
        Cursor::Answered(requirement, given) => from_answered(
            tally,
            requirement,
            given,
            figures,
            numbers,
            homes,
            performances,
            factors,
            payments,
            used,
            unused,
            done,
            text,
        ),
        Cursor::Members(requirement, given, row, place) => from_members(
            tally,
            requirement,
            given,
            row,
            place,
            figures,
            numbers,
            homes,
            performances,
            factors,
            payments,
            used,
            unused,
            done,
            text,
        ),
    }
}
