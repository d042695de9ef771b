// The units of a requirement that are its members, in their order, as far as their lines have room.
ghost use Rattle.std.specs.Prelude.{◌≡◌, true, List, ℕ, ◌≤◌, ◌<◌, length};
ghost use Rattle.interval.specs.Lent.{Lent, lent_member};
ghost use Rattle.answer.specs.Promises.{columns, columns_long};
ghost use Rattle.lister.specs.Move.{amounts_at, among};
ghost use Rattle.lister.specs.Steps.{RowListed, UnitsListed};

use super::said::say_unit;
use super::{Halt, Walked};
use answer::roster::member;
use answer::{Answer, Row};
use interval::Tally;
use listing::Amounts;

// A member's numbers in the columns.
pub(crate) fn amounts(
    place: usize,
    performances: &[i64],
    factors: &[i64],
    payments: &[i64],
    used: &[i64],
    unused: &[i64],
) -> Amounts
    requires { (place < length performances.now) × (place < length factors.now) × (place < length payments.now) × (place < length used.now)
        × (place < length unused.now) }
    ensures { result ≡ amounts_at (columns performances.now factors.now payments.now used.now unused.entry.now) place }
{
    Amounts {
        performance: performances[place],
        factor: factors[place],
        payment: payments[place],
        used: used[place],
        unused: unused[place],
    }
}

fn halted(row: u16, place: u16, done: usize, halt: Halt) -> Walked
    ensures { result ≡ record { row = row; place = place; done = done; halt = halt } }
{
    Walked {
        row: row,
        place: place,
        done: done,
        halt: halt,
    }
}

// One row: its unit's line where it is a member, and nothing where it is none.
fn list_row(
    tally: Tally,
    requirement: u16,
    given: Answer,
    row: u16,
    place: u16,
    figures: &[i64],
    numbers: &[u16],
    homes: &[u8],
    performances: &[i64],
    factors: &[i64],
    payments: &[i64],
    used: &[i64],
    unused: &[i64],
    done: usize,
    text: &mut [u8],
) -> Walked
    requires { (among tally requirement row place ≡ true) × (row < tally.units) × (tally.units ≤ 512) × (done ≤ length text.old)
        × (columns_long tally.units (columns performances.now factors.now payments.now used.now unused.now) ≡ true) }
    ensures { (bytes : List ℕ) (rest : Lent) → RowListed tally bytes (lent_member rest figures.now numbers.now homes.entry.now)
        requirement given (columns performances.now factors.now payments.now used.now unused.now)
        row place done text.old result text.new }
{
    let direction = given.direction;
    let who = member(tally, row, direction, given.set, figures, numbers, homes);
    match who {
        Row::Unit(number, standing) => {
            let shares = amounts(
                place as usize,
                performances,
                factors,
                payments,
                used,
                unused,
            );
            let said = say_unit(number, standing, shares, done, text);
            if said == 0 {
                return halted(row, place, done, Halt::Full);
            }
            halted(row + 1, place + 1, done + said, Halt::On)
        }
        Row::Other => halted(row + 1, place, done, Halt::On),
        Row::Refused(refusal) => halted(row, place, done, Halt::Refused(refusal)),
    }
}

// From a row on, where so many members stand before it.
pub(crate) fn list_units(
    tally: Tally,
    requirement: u16,
    given: Answer,
    first: u16,
    members: u16,
    figures: &[i64],
    numbers: &[u16],
    homes: &[u8],
    performances: &[i64],
    factors: &[i64],
    payments: &[i64],
    used: &[i64],
    unused: &[i64],
    start: usize,
    text: &mut [u8],
) -> Walked
    requires { (among tally requirement first members ≡ true) × (tally.units ≤ 512) × (start ≤ length text.old)
        × (columns_long tally.units (columns performances.now factors.now payments.now used.now unused.now) ≡ true) }
    ensures { (bytes : List ℕ) (rest : Lent) → UnitsListed tally bytes (lent_member rest figures.now numbers.now homes.entry.now)
        requirement given (columns performances.now factors.now payments.now used.now unused.now)
        first members start text.old result text.new }
{
    let mut row = first;
    let mut place = members;
    let mut done = start;
    while row < tally.units {
        let step = list_row(
            tally,
            requirement,
            given,
            row,
            place,
            figures,
            numbers,
            homes,
            performances,
            factors,
            payments,
            used,
            unused,
            done,
            text,
        );
        let halt = step.halt;
        let Halt::On = halt else {
            return step;
        };
        row = step.row;
        place = step.place;
        done = step.done;
    }
    halted(row, place, done, Halt::On)
}
