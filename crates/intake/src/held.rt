// A book that is held whole in memory. Each record is handed to its call as the part that starts at it and runs to the end of what was read.
ghost use Rattle.std.specs.Prelude.{◌≡◌, min};
ghost use Rattle.intake.specs.Held.{from_place};

use super::UNITS;
use super::input::fill;
use book::{CONTENTS, POINTS};
use interval::contents::contents;
use interval::turns::BEFORE_UNITS;
use interval::{FIGURES_LENGTH, ROWS_LENGTH, SERIES_LENGTH, SUMS_LENGTH, Tally};
use reader::turn::{size, take};
use rules::{Located, locate};
use std::io::Read;

// The longest book, of 512 units and 32 requirements, and a byte more, so that bytes that follow are seen.
pub const HELD: usize = 193_137;

// The book was taken to its end; or why it was not: the refusal, or a reading that failed.
#[derive(Clone, Copy)]
pub enum Outcome {
    Taken(Tally),
    Refused(Located),
    Failed,
}

// No more than there are.
fn within(place: usize, most: usize) -> usize
    ensures { result ≡ min place most }
{
    if most < place {
        return most;
    }
    place
}

// The record that starts there, or behind the end nothing.
pub fn record_at(book: &[u8], start: usize) -> &[u8]
    ensures { result.now ≡ from_place start book.now }
{
    let from = within(start, book.len());
    &book[from..]
}

fn take_records(
    opened: Tally,
    book: &[u8],
    measures: &mut [i32; SERIES_LENGTH],
    sums: &mut [i64; SUMS_LENGTH],
    figures: &mut [i64; FIGURES_LENGTH],
    numbers: &mut [u16; UNITS],
    homes: &mut [u8; UNITS],
    rows: &mut [i64; ROWS_LENGTH],
    groups: &mut [u16; UNITS],
    deviations: &mut [i64; POINTS],
) -> Outcome {
    let mut tally = opened;
    let mut start = CONTENTS;
    let records = BEFORE_UNITS as u32 + tally.units as u32 + tally.requirements as u32;
    for record in 0..records {
        let next = start + size(tally);
        let step = take(
            tally,
            record_at(book, start),
            measures,
            sums,
            figures,
            numbers,
            homes,
            rows,
            groups,
            deviations,
        );
        let outcome = step.taking;
        if let Err(said) = outcome {
            return Outcome::Refused(said);
        }
        tally = step.tally;
        start = next;
    }
    Outcome::Taken(tally)
}

// What the calls are lent, 43,828 bytes, is of no use when the book has been taken: a program goes on with its bytes.
fn take_bodies(tally: Tally, book: &[u8]) -> Outcome {
    let mut measures = [0i32; SERIES_LENGTH];
    let mut sums = [0i64; SUMS_LENGTH];
    let mut figures = [0i64; FIGURES_LENGTH];
    let mut numbers = [0u16; UNITS];
    let mut homes = [0u8; UNITS];
    let mut rows = [0i64; ROWS_LENGTH];
    let mut groups = [0u16; UNITS];
    let mut deviations = [0i64; POINTS];
    take_records(
        tally,
        book,
        &mut measures,
        &mut sums,
        &mut figures,
        &mut numbers,
        &mut homes,
        &mut rows,
        &mut groups,
        &mut deviations,
    )
}

fn take_all(book: &[u8]) -> Outcome {
    let opened = contents(book);
    match opened {
        Ok(tally) => take_bodies(tally, book),
        Err(refusal) => Outcome::Refused(locate(0, refusal)),
    }
}

// What is read to its end, such as standard input, and the book that it is. Behind a book that was taken the place holds what it held.
pub fn take_input<R: Read>(file: &mut R, place: &mut [u8; HELD]) -> Outcome {
    let got = fill(file, place);
    if got.failed {
        return Outcome::Failed;
    }
    let count = got.count;
    let whole = &place[..];
    take_all(&whole[0..count])
}
