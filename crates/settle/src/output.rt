// What is given is written: the listing's pieces to standard output, each as soon as it is given. A writing that takes nothing ends it, which is told on
// standard error.
ghost use Rattle.std.specs.Prelude.{◌≡◌, true, false};
ghost use Rattle.interval.specs.Lent.{Lent};
ghost use Rattle.answer.specs.Promises.{columns};
ghost use Rattle.lister.specs.Steps.{lent_listing};
ghost use Rattle.settle.specs.Printed.{ListingPrinted};

use intake::{MEMBERS, RECORDS, UNITS};
use interval::{FIGURES_LENGTH, ROWS_LENGTH, SERIES_LENGTH, SUMS_LENGTH, Tally};
use lister::list::list;
use lister::{Cursor, Listed};
use listing::LINE;
use listing::lines::refused_line;
use rules::{Located, Refusal, locate};

// Standard error.
const STDERR_FILENO: i32 = 2;

// Standard output.
const STDOUT_FILENO: i32 = 1;

// So many bytes of the listing are written at a time, at most: as many as are left of 65,536 beside all other arrays, whole eights.
const TEXT: usize = 320;

// Whether all of it was written.
fn write(file: i32, text: &[u8]) -> bool {
    io::write_all(file, text)
}

// Whether it was written to standard output; if not, that is told.
fn print(text: &[u8]) -> bool {
    if write(STDOUT_FILENO, text) {
        return true;
    }
    write(STDERR_FILENO, b"settle: the listing cannot be written\n");
    false
}

pub(crate) fn print_refused(said: Located) {
    let mut line = [0u8; LINE];
    let start = refused_line(said, &mut line);
    print(&line[start..]);
}

// A book that was taken is never refused its listing; if it were, the listing would end, and say so.
fn broken_off(refusal: Refusal) -> bool
    ensures { result ≡ false }
{
    let mut line = [0u8; LINE];
    let start = refused_line(locate(0, refusal), &mut line);
    write(STDERR_FILENO, b"settle: the listing is broken off: ");
    write(STDERR_FILENO, &line[start..]);
    false
}

// The listing, piece by piece, until nothing is left; whether all of it was written.
fn print_listing(
    tally: Tally,
    bytes: &[u8; RECORDS],
    measures: &[i32; SERIES_LENGTH],
    sums: &[i64; SUMS_LENGTH],
    figures: &[i64; FIGURES_LENGTH],
    numbers: &[u16; UNITS],
    homes: &[u8; UNITS],
    rows: &[i64; ROWS_LENGTH],
    performances: &mut [i64; MEMBERS],
    factors: &mut [i64; MEMBERS],
    payments: &mut [i64; MEMBERS],
    used: &mut [i64; MEMBERS],
    unused: &mut [i64; MEMBERS],
    text: &mut [u8],
) -> bool
    ensures { result ≡ true → (rest : Lent) → ListingPrinted tally bytes.now
        (lent_listing rest measures.now sums.now figures.now numbers.now homes.now rows.now)
        (columns performances.old factors.old payments.old used.old unused.old)
        (columns performances.new factors.new payments.new used.new unused.new) }
{
    let mut cursor = Cursor::Interval;
    loop {
        let listed = list(
            cursor,
            tally,
            bytes,
            measures,
            sums,
            figures,
            numbers,
            homes,
            rows,
            performances,
            factors,
            payments,
            used,
            unused,
            text,
        );
        match listed {
            Listed::Written(count, next) => {
                if !print(&text[0..count]) {
                    return false;
                }
                cursor = next;
            }
            Listed::Nothing => return true,
            Listed::Refused(refusal) => return broken_off(refusal),
        }
    }
}

// The listing of a taken book, many lines at a time.
pub(crate) fn print_book(
    tally: Tally,
    bytes: &[u8; RECORDS],
    measures: &[i32; SERIES_LENGTH],
    sums: &[i64; SUMS_LENGTH],
    figures: &[i64; FIGURES_LENGTH],
    numbers: &[u16; UNITS],
    homes: &[u8; UNITS],
    rows: &[i64; ROWS_LENGTH],
    performances: &mut [i64; MEMBERS],
    factors: &mut [i64; MEMBERS],
    payments: &mut [i64; MEMBERS],
    used: &mut [i64; MEMBERS],
    unused: &mut [i64; MEMBERS],
) -> bool
    ensures { result ≡ true → (rest : Lent) → ListingPrinted tally bytes.now
        (lent_listing rest measures.now sums.now figures.now numbers.now homes.now rows.now)
        (columns performances.old factors.old payments.old used.old unused.old)
        (columns performances.new factors.new payments.new used.new unused.new) }
{
    let mut text = [0u8; TEXT];
    print_listing(
        tally,
        bytes,
        measures,
        sums,
        figures,
        numbers,
        homes,
        rows,
        performances,
        factors,
        payments,
        used,
        unused,
        &mut text,
    )
}

pub(crate) fn say_reading_failed() {
    write(STDERR_FILENO, b"settle: standard input cannot be read\n");
}
