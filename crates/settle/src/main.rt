// settle: reads a book on standard input, as its bytes come, and prints its listing; on refusal the one line `refused` with number, place and t. Nothing is
// printed before the book has ended. What goes wrong with reading or writing is told on standard error.
#![tactic(auto)]

mod output;

use intake::whole::{Next, take_book};
use intake::{MEMBERS, RECORDS, UNITS};
use interval::{FIGURES_LENGTH, ROWS_LENGTH, SERIES_LENGTH, SUMS_LENGTH};
use rules::{Refusal, locate};
use std::io::Stdin;

// Standard input, which holds one book and nothing behind it. The units' groups are of no use past this.
fn read_book(
    input: &mut Stdin,
    bytes: &mut [u8; RECORDS],
    measures: &mut [i32; SERIES_LENGTH],
    sums: &mut [i64; SUMS_LENGTH],
    figures: &mut [i64; FIGURES_LENGTH],
    numbers: &mut [u16; UNITS],
    homes: &mut [u8; UNITS],
    rows: &mut [i64; ROWS_LENGTH],
    deviations: &mut [i64; MEMBERS],
) -> Next {
    let mut groups = [0u16; UNITS];
    take_book(
        input,
        true,
        bytes,
        measures,
        sums,
        figures,
        numbers,
        homes,
        rows,
        &mut groups,
        deviations,
    )
}

// The buffers, in bytes, each array once:
//   regions: measures 1,500, sums 6,000, figures 400
//   units: numbers 1,024, homes 512, rows 32,768
//   bytes 769
//   columns: performances, factors, payments, used, unused 4,104 each; the first holds the deviations of a group while the book is read
// Beside these 63,493, while the book is read: groups 1,024, and five of a unit's readings 20 (`units`); while its listing is printed: a text of 320, and a
// share's counters 512 (`share`) or a line that is put together 165 (`lister`). All of them are 65,534, within 65,536; at most 64,537 are in use at a time, and
// the compiler gives groups and text one place (docs/DECISIONS.md, 170).
fn main(rt: HostRuntime) {
    let mut input = rt.stdin();
    let mut measures = [0i32; SERIES_LENGTH];
    let mut sums = [0i64; SUMS_LENGTH];
    let mut figures = [0i64; FIGURES_LENGTH];
    let mut numbers = [0u16; UNITS];
    let mut homes = [0u8; UNITS];
    let mut rows = [0i64; ROWS_LENGTH];
    let mut bytes = [0u8; RECORDS];
    let mut performances = [0i64; MEMBERS];
    let mut factors = [0i64; MEMBERS];
    let mut payments = [0i64; MEMBERS];
    let mut used = [0i64; MEMBERS];
    let mut unused = [0i64; MEMBERS];
    let next = read_book(
        &mut input,
        &mut bytes,
        &mut measures,
        &mut sums,
        &mut figures,
        &mut numbers,
        &mut homes,
        &mut rows,
        &mut performances,
    );
    match next {
        Next::Taken(tally) => {
            output::print_book(
                tally,
                &bytes,
                &measures,
                &sums,
                &figures,
                &numbers,
                &homes,
                &rows,
                &mut performances,
                &mut factors,
                &mut payments,
                &mut used,
                &mut unused,
            );
        }
        Next::Ended => output::print_refused(locate(0, Refusal::EndsEarly)),
        Next::Refused(said) => output::print_refused(said),
        Next::Failed => output::say_reading_failed(),
    }
}
