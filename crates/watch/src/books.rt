// A named book: it is opened, taken to its end and shown. One that cannot be opened, or whose reading fails, is shown as one that has no byte.
use super::requirements::{watch_phrase, watch_requirements};
use super::{Left, Place};
use book::POINTS;
use intake::arguments::{argument, open_book};
use intake::whole::{Next, take_book};
use intake::{RECORDS, UNITS};
use interval::{FIGURES_LENGTH, ROWS_LENGTH, SERIES_LENGTH, SUMS_LENGTH};
use rules::{Page, Refusal, refusal_number};
use std::fs::File;
use std::io;
use std::io::Stdin;

// A file's name has room here.
const NAME: usize = 4_096;

fn watch_refused(input: &mut Stdin, refusal: Refusal, place: Place, page: Page) -> Left {
    watch_phrase(input, refusal_number(refusal), place, page, 0, 0)
}

// An open book. The buffers, in bytes, each array once:
//   regions: measures 1,500, sums 6,000, figures 400
//   units: numbers 1,024, homes 512, rows 32,768, groups 1,024, the deviations of a group 600
//   bytes 769
//   columns: performances, factors, payments, used, unused 4,104 each (`requirements`)
//   a page 80, its screen 91
//   five of a unit's readings 20 (`units`), a share's counters 512 (`share`)
// Together 65,820.
fn watch_file(input: &mut Stdin, opened: File, place: Place, page: Page) -> Left {
    let mut file = opened;
    let mut measures = [0i32; SERIES_LENGTH];
    let mut sums = [0i64; SUMS_LENGTH];
    let mut figures = [0i64; FIGURES_LENGTH];
    let mut numbers = [0u16; UNITS];
    let mut homes = [0u8; UNITS];
    let mut rows = [0i64; ROWS_LENGTH];
    let mut groups = [0u16; UNITS];
    let mut deviations = [0i64; POINTS];
    let mut bytes = [0u8; RECORDS];
    let next = take_book(
        &mut file,
        true,
        &mut bytes,
        &mut measures,
        &mut sums,
        &mut figures,
        &mut numbers,
        &mut homes,
        &mut rows,
        &mut groups,
        &mut deviations,
    );
    drop(file);
    match next {
        Next::Taken(tally) => watch_requirements(
            input, place, page, tally, &bytes, &measures, &sums, &figures, &numbers, &homes, &rows,
        ),
        Next::Ended => watch_refused(input, Refusal::EndsEarly, place, page),
        Next::Refused(said) => {
            let refusal = said.refusal;
            watch_refused(input, refusal, place, page)
        }
        Next::Failed => watch_refused(input, Refusal::EndsEarly, place, page),
    }
}

// The book that an argument names; a name with no place here cannot be opened.
fn open_named(rt: &HostRuntime, at: usize) -> io::Result<File> {
    let mut name = [0u8; NAME];
    let length = argument(rt, at, &mut name);
    open_book(rt, &name[..length])
}

pub(crate) fn watch_book(
    rt: &HostRuntime,
    input: &mut Stdin,
    at: usize,
    place: Place,
    page: Page,
) -> Left {
    match open_named(rt, at) {
        Ok(file) => watch_file(input, file, place, page),
        Err(_) => watch_refused(input, Refusal::EndsEarly, place, page),
    }
}
