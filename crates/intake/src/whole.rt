// A whole book from an open file: bytes go where they are wanted, however few come at a time, up to the book's end or its refusal. The programs that read books
// differ in what they do with one that was taken.
ghost use Rattle.std.specs.Prelude.{◌≤◌, length};
ghost use Rattle.interval.specs.Lent.{lent_unit};
ghost use Rattle.intake.specs.Came.{BookCame, RoomFor, ReadHere};

use super::{Filled, RECORDS, UNITS};
use interval::{FIGURES_LENGTH, ROWS_LENGTH, SERIES_LENGTH, SUMS_LENGTH, Tally};
use reader::step::{came, wanted};
use reader::{Came, Reading};
use rules::Located;
use std::io::Read;

// The tally so far; or why no more is read: no byte came where a book would start, the refusal, or a reading that failed.
#[derive(Clone, Copy)]
pub enum Next {
    Taken(Tally),
    Ended,
    Refused(Located),
    Failed,
}

// One reading, to where bytes are wanted.
fn read_between<R: Read>(file: &mut R, bytes: &mut [u8], from: usize, to: usize) -> Filled
    requires { (from ≤ to) × (to ≤ length bytes.old) }
    ensures { ReadHere from to result.count bytes.old bytes.new }
{
    match file.read(&mut bytes[from..to]) {
        Ok(count) => Filled {
            count,
            failed: false,
        },
        Err(_) => Filled {
            count: 0,
            failed: true,
        },
    }
}

// Takes a book to its end; its requirements stand one after the other in the bytes then. Where the book stands alone, a byte behind it is seen and refused
// with 4; where it does not, the next one starts behind its last requirement, and no byte of it is read.
pub fn take_book<R: Read>(
    file: &mut R,
    alone: bool,
    bytes: &mut [u8; RECORDS],
    measures: &mut [i32; SERIES_LENGTH],
    sums: &mut [i64; SUMS_LENGTH],
    figures: &mut [i64; FIGURES_LENGTH],
    numbers: &mut [u16; UNITS],
    homes: &mut [u8; UNITS],
    rows: &mut [i64; ROWS_LENGTH],
    groups: &mut [u16; UNITS],
    deviations: &mut [i64],
) -> Next
    ensures book_came { BookCame alone bytes.old
        (lent_unit measures.old sums.old figures.old numbers.old homes.old rows.old
        groups.old deviations.old) result bytes.new
        (lent_unit measures.new sums.new figures.new numbers.new homes.new rows.new
        groups.new deviations.new) }
    ensures room_for { RoomFor 32 result }
{
    let mut reading = Reading::Contents(0);
    let mut begun = false;
    loop {
        let place = wanted(reading, alone, RECORDS);
        let got = read_between(file, bytes, place.from, place.to);
        let count = got.count;
        if got.failed {
            return Next::Failed;
        }
        if count == 0 {
            if !begun {
                return Next::Ended;
            }
        }
        begun = true;
        let said = came(
            reading, alone, count, bytes, measures, sums, figures, numbers, homes, rows, groups,
            deviations,
        );
        match said {
            Came::Wants(next) => reading = next,
            Came::Taken(tally) => return Next::Taken(tally),
            Came::Refused(why) => return Next::Refused(why),
        }
    }
}
