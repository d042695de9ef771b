// report: a book on standard input, and its performance report on standard output, a row a line (document 02, R-11); the one argument there may be is the
// report's version. Nothing is printed before the book has ended. A book that `settle` refuses is refused alike, with the one line `refused` and number, place
// and t, and so is an interval that ends past the year 9999. What goes wrong with arguments, reading or writing is told on standard error.
#![tactic(auto)]

mod rows;
mod version;

use book::POINTS;
use intake::whole::{Next, take_book};
use intake::{RECORDS, UNITS};
use interval::{FIGURES_LENGTH, ROWS_LENGTH, SERIES_LENGTH, SUMS_LENGTH};
use printing::print_refused;
use rows::print_rows;
use rules::{Refusal, locate};
use std::io::Stdin;
use version::what_is_asked;

// Standard error.
const STDERR_FILENO: i32 = 2;

fn reading_failed() {
    io::write_all(STDERR_FILENO, b"report: standard input cannot be read\n");
}

// Was all of it written? After a writing that takes nothing no more is written.
fn end(written: bool) {
    if !written {
        io::write_all(STDERR_FILENO, b"report: the rows cannot be written\n");
    }
}

fn usage() {
    io::write_all(
        STDERR_FILENO,
        b"report: the one argument is a version, 0 to 65535\n",
    );
}

// The buffers, in bytes, each array once:
//   regions: measures 1,500, sums 6,000, figures 400
//   units: numbers 1,024, homes 512, rows 32,768, groups 1,024, the deviations of a group 600
//   bytes 769
//   rows of text 4,096, the line of a refusal 165 (`printing`)
//   the argument 20, five of a unit's readings 20 (`units`)
// Together 48,898.
fn tell(version: u16, input: &mut Stdin) {
    let mut measures = [0i32; SERIES_LENGTH];
    let mut sums = [0i64; SUMS_LENGTH];
    let mut figures = [0i64; FIGURES_LENGTH];
    let mut numbers = [0u16; UNITS];
    let mut homes = [0u8; UNITS];
    let mut rows = [0i64; ROWS_LENGTH];
    let mut groups = [0u16; UNITS];
    let mut deviations = [0i64; POINTS];
    let mut bytes = [0u8; RECORDS];
    let next = take_book(
        input,
        true,
        &mut bytes,
        &mut measures,
        &mut sums,
        &mut figures,
        &mut numbers,
        &mut homes,
        &mut rows,
        &mut groups,
        &mut deviations,
    );
    match next {
        Next::Taken(tally) => end(print_rows(tally, version, &figures, &numbers, &homes, &rows)),
        Next::Ended => end(print_refused(locate(0, Refusal::EndsEarly))),
        Next::Refused(said) => end(print_refused(said)),
        Next::Failed => reading_failed(),
    }
}

fn main(rt: HostRuntime) {
    let mut input = rt.stdin();
    match what_is_asked(&rt) {
        Some(version) => tell(version, &mut input),
        None => usage(),
    }
}
