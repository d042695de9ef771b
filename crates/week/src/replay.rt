// The books of the week, one after another: each is taken whole, then every running week has one interval more.
ghost use Rattle.std.specs.Prelude.{◌+◌, ◌*◌, ◌<◌, ◌≤◌, length, IfOk, IfSome};

use super::output::tell_books;
use super::performances::{ROWS, note_book, within_rows};
use super::running::{MEMBERS, RESIDUALS, WEEKS, add_at, find, join};
use book::POINTS;
use intake::RECORDS;
use intake::input::fill;
use intake::whole::{Next, take_book};
use interval::{FIGURES_LENGTH, PASSED_OVER, ROWS_LENGTH, SERIES_LENGTH, SUMS_LENGTH};
use rules::{Located, Refusal, locate};
use std::io::Stdin;

const MOST_BOOKS: u16 = 2016;

// The week ended with a refusal at a book's place, or with a reading that failed.
#[derive(Clone, Copy)]
pub(crate) enum Fault {
    Refused(Located, u16),
    Unread,
}

// The numbers of a book's members join the names: how many there are then, one more than there is room for where one has none.
fn join_all(numbers: &[u16; ROWS], units: u16, names: &mut [u16; MEMBERS], members: usize) -> usize
    requires { (units ≤ 512) × (members ≤ 512) }
    ensures { result ≤ 513 }
{
    let mut joined = members;
    for row in 0..units as usize {
        joined = join(names, joined, numbers[row]);
        if MEMBERS < joined {
            return joined;
        }
    }
    joined
}

// What was done in a week's interval: by how many units, whether it is live, and the performance.
#[derive(Clone, Copy)]
struct Done {
    units: u16,
    live: u8,
    performance: i64,
}

// The row of the member with this number, and how many units it has; behind the last row where the book has no such member. All rows of a group have its
// number, and those that are passed over come before the member's own.
#[derive(Clone, Copy)]
struct Place {
    row: usize,
    units: u16,
}

fn place_of(number: u16, units: u16, numbers: &[u16; ROWS], homes: &[u8; ROWS]) -> Place
    requires { units ≤ 512 }
    ensures { result.row ≤ units }
{
    let most = units as usize;
    let mut row = find(numbers, most, number);
    let mut many: u16 = 1;
    while row < most {
        if homes[row] != PASSED_OVER {
            return Place { row, units: many };
        }
        row += 1;
        many += 1;
    }
    Place {
        row: most,
        units: many,
    }
}

// What was done for the week at a place. A number's is that of its row, or not live where the book has no such member.
fn done_at(
    at: usize,
    units: u16,
    numbers: &[u16; ROWS],
    homes: &[u8; ROWS],
    names: &[u16; MEMBERS],
    done: &[i64; WEEKS],
    live: &[u8; WEEKS],
) -> Done
    requires { (at < 1_034) × (units ≤ 512) }
{
    if RESIDUALS <= at {
        return Done {
            units: 1,
            live: live[at],
            performance: done[at],
        };
    }
    let place = place_of(names[at / 2], units, numbers, homes);
    let row = place.row;
    if units as usize <= row {
        return Done {
            units: 1,
            live: 0,
            performance: 0,
        };
    }
    let from = 2 * row + at % 2;
    Done {
        units: place.units,
        live: live[from],
        performance: done[from],
    }
}

// The weeks from one place to another have an interval more.
fn add_weeks(
    from: usize,
    to: usize,
    books: u16,
    units: u16,
    numbers: &[u16; ROWS],
    homes: &[u8; ROWS],
    names: &[u16; MEMBERS],
    done: &[i64; WEEKS],
    live: &[u8; WEEKS],
    lives: &mut [u16; WEEKS],
    highs: &mut [u16; WEEKS],
    lows: &mut [u64; WEEKS],
) -> Result<(), Refusal>
    requires { (to ≤ 1_034) × (units ≤ 512) }
{
    for at in from..to {
        let what = done_at(at, units, numbers, homes, names, done, live);
        add_at(
            at,
            books,
            what.units,
            what.live != 0,
            what.performance,
            lives,
            highs,
            lows,
        )?;
    }
    Ok(())
}

// Every number's and every residual's weeks have an interval more.
fn add_book(
    books: u16,
    members: usize,
    units: u16,
    numbers: &[u16; ROWS],
    homes: &[u8; ROWS],
    names: &[u16; MEMBERS],
    done: &[i64; WEEKS],
    live: &[u8; WEEKS],
    lives: &mut [u16; WEEKS],
    highs: &mut [u16; WEEKS],
    lows: &mut [u64; WEEKS],
) -> Result<(), Refusal>
    requires { (members ≤ 512) × (units ≤ 512) }
{
    add_weeks(
        0,
        2 * members,
        books,
        units,
        numbers,
        homes,
        names,
        done,
        live,
        lives,
        highs,
        lows,
    )?;
    add_weeks(
        RESIDUALS, WEEKS, books, units, numbers, homes, names, done, live, lives, highs, lows,
    )
}

// Why no more books are taken.
fn end_of(next: Next, place: u16) -> Result<(), Fault> {
    match next {
        Next::Taken(_) => Ok(()),
        Next::Ended => Ok(()),
        Next::Refused(said) => Err(Fault::Refused(said, place)),
        Next::Failed => Err(Fault::Unread),
    }
}

// After 2,016 books any byte is one too many.
fn last_end(input: &mut Stdin, members: usize) -> Result<(u16, usize), Fault> {
    let mut byte = [0u8; 1];
    let got = fill(input, &mut byte);
    if got.failed {
        return Err(Fault::Unread);
    }
    if got.count == 0 {
        return Ok((MOST_BOOKS, members));
    }
    Err(Fault::Refused(locate(0, Refusal::WrongWeek), MOST_BOOKS + 1))
}

// The next book, after so many with so many numbers, and how many numbers there are then, or none where the books have ended; its place is counted from 1.
fn replay_book(
    input: &mut Stdin,
    books: u16,
    members: usize,
    bytes: &mut [u8; RECORDS],
    measures: &mut [i32; SERIES_LENGTH],
    sums: &mut [i64; SUMS_LENGTH],
    figures: &mut [i64; FIGURES_LENGTH],
    numbers: &mut [u16; ROWS],
    homes: &mut [u8; ROWS],
    rows: &mut [i64; ROWS_LENGTH],
    groups: &mut [u16; ROWS],
    deviations: &mut [i64; POINTS],
    names: &mut [u16; MEMBERS],
    lives: &mut [u16; WEEKS],
    highs: &mut [u16; WEEKS],
    lows: &mut [u64; WEEKS],
) -> Result<Option<usize>, Fault>
    requires { (books < 2_016) × (members ≤ 512) }
    ensures { IfOk result (λ after. IfSome after (λ joined. joined ≤ 512)) }
{
    let place = books + 1;
    let next = take_book(
        input, false, bytes, measures, sums, figures, numbers, homes, rows, groups, deviations,
    );
    let Next::Taken(tally) = next else {
        end_of(next, place)?;
        return Ok(None);
    };
    let units = within_rows(tally.units);
    let joined = join_all(numbers, units, names, members);
    if MEMBERS < joined {
        return Err(Fault::Refused(locate(0, Refusal::WrongCount), place));
    }
    let mut done = [0i64; WEEKS];
    let mut live = [0u8; WEEKS];
    let noted = note_book(
        tally, measures, sums, figures, numbers, homes, rows, &mut done, &mut live,
    );
    if let Err(refusal) = noted {
        return Err(Fault::Refused(locate(0, refusal), place));
    }
    let kept = add_book(
        books, joined, units, numbers, homes, names, &done, &live, lives, highs, lows,
    );
    if let Err(refusal) = kept {
        return Err(Fault::Refused(locate(0, refusal), place));
    }
    Ok(Some(joined))
}

// After how many books the week ended, and with how many numbers.
pub(crate) fn replay(
    input: &mut Stdin,
    bytes: &mut [u8; RECORDS],
    measures: &mut [i32; SERIES_LENGTH],
    sums: &mut [i64; SUMS_LENGTH],
    figures: &mut [i64; FIGURES_LENGTH],
    numbers: &mut [u16; ROWS],
    homes: &mut [u8; ROWS],
    rows: &mut [i64; ROWS_LENGTH],
    groups: &mut [u16; ROWS],
    deviations: &mut [i64; POINTS],
    names: &mut [u16; MEMBERS],
    lives: &mut [u16; WEEKS],
    highs: &mut [u16; WEEKS],
    lows: &mut [u64; WEEKS],
) -> Result<(u16, usize), Fault> {
    let mut members: usize = 0;
    for books in 0..MOST_BOOKS {
        let after = replay_book(
            input, books, members, bytes, measures, sums, figures, numbers, homes, rows, groups,
            deviations, names, lives, highs, lows,
        )?;
        let Some(joined) = after else {
            return Ok((books, members));
        };
        members = joined;
        tell_books(books + 1);
    }
    last_end(input, members)
}
