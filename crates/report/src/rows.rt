// The rows of a book that was taken, as text. They are gathered, and written whenever there may be no room for one more.
ghost use Rattle.std.specs.Prelude.{◌≤◌};

use answer::report::report;
use intake::UNITS;
use interval::{FIGURES_LENGTH, ROWS_LENGTH, Tally};
use printing::print_refused;
use report_row::ROW_MOST;
use report_row::write::write_row;
use rules::{Refusal, ReportRow, locate};
use std::ops::ControlFlow;

// Standard output.
const STDOUT_FILENO: i32 = 1;

// So many bytes of rows are gathered at most.
const GATHERED: usize = 4_096;

// No more than there are.
fn within(count: usize, most: usize) -> usize
    ensures { result ≤ most }
{
    if most < count {
        return most;
    }
    count
}

fn write_rows(count: usize, text: &[u8; GATHERED]) -> bool {
    let end = within(count, GATHERED);
    let whole = &text[..];
    io::write_all(STDOUT_FILENO, &whole[0..end])
}

// Writes the rows that are gathered where the longest one has no room behind them. Here and below: the rows that are gathered end there, or the report is over,
// and it was written or not.
fn make_room(count: usize, text: &[u8; GATHERED]) -> ControlFlow<bool, usize> {
    if count <= GATHERED - ROW_MOST {
        return ControlFlow::Continue(count);
    }
    if write_rows(count, text) {
        return ControlFlow::Continue(0);
    }
    ControlFlow::Break(false)
}

// A row behind so many bytes. A year past 9999 is refused with the first row, before anything is written; nothing else is.
fn put_row(row: ReportRow, count: usize, text: &mut [u8]) -> ControlFlow<bool, usize> {
    let from = within(count, text.len());
    let room = text.len() - from;
    let written = write_row(row, &mut text[from..]);
    match written {
        Ok(length) => ControlFlow::Continue(from + within(length as usize, room)),
        Err(refusal) => ControlFlow::Break(print_refused(locate(0, refusal))),
    }
}

fn add_row(row: ReportRow, count: usize, text: &mut [u8; GATHERED]) -> ControlFlow<bool, usize> {
    let from = make_room(count, text)?;
    put_row(row, from, text)
}

// Behind the last row 11 is given, which ends the report. Of a book that was taken no row is refused; if one were, that would be passed on.
fn end_rows(refusal: Refusal, count: usize, text: &[u8; GATHERED]) -> bool {
    if let Refusal::WrongState = refusal {
        return write_rows(count, text);
    }
    print_refused(locate(0, refusal))
}

fn take_found(
    found: Result<ReportRow, Refusal>,
    count: usize,
    text: &mut [u8; GATHERED],
) -> ControlFlow<bool, usize> {
    match found {
        Ok(row) => add_row(row, count, text),
        Err(refusal) => ControlFlow::Break(end_rows(refusal, count, text)),
    }
}

// Whether all of it was written. No book has as many rows as are counted here: it says that the loop ends.
pub(crate) fn print_rows(
    tally: Tally,
    version: u16,
    figures: &[i64; FIGURES_LENGTH],
    numbers: &[u16; UNITS],
    homes: &[u8; UNITS],
    rows: &[i64; ROWS_LENGTH],
) -> bool {
    let mut text = [0u8; GATHERED];
    let mut count: usize = 0;
    for row in 0..u32::MAX {
        let found = report(tally, row, version, figures, numbers, homes, rows);
        let turn = take_found(found, count, &mut text);
        match turn {
            ControlFlow::Continue(next) => {
                count = next;
            }
            ControlFlow::Break(written) => return written,
        }
    }
    true
}
