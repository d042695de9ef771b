// The rows, piece by piece and byte by byte, however few bytes each reading brings.
ghost use Rattle.std.specs.Prelude.{◌≡◌, ◌≤◌};
ghost use Rattle.report_rows.specs.Rows.{row_ends};

use super::words::{print_refusal, print_row};
use printing::TEXT;
use report_row::read::read_row;
use std::io::{Read, Stdin};
use std::ops::ControlFlow;

// So many bytes of a row are held, one more than the longest has. Where they have no line feed, a column among them is wrong, and the same one as in the whole
// row: the right columns before it end within 106 bytes; it ends within these bytes too, or is cut here and then already longer than any right column at that
// place; and the seventh, which runs to the end, is wrong without its line feed.
const HELD: usize = 107;

// The number of the row that is being read, from 1, and how many of its bytes are held.
#[derive(Clone, Copy)]
struct Reading {
    row: u64,
    held: usize,
}

// How the rows ended: all were told, or the first one that is refused; or they cannot be read, or written.
#[derive(Clone, Copy)]
pub(crate) enum Ending {
    Told,
    Unread,
    Unwritten,
}

// No report has as many rows as can be counted.
fn next_row(row: u64) -> u64 {
    if row < u64::MAX {
        return row + 1;
    }
    row
}

// The next row starts, if this one was written.
fn behind_row(written: bool, row: u64) -> ControlFlow<Ending, Reading> {
    if !written {
        return ControlFlow::Break(Ending::Unwritten);
    }
    ControlFlow::Continue(Reading {
        row: next_row(row),
        held: 0,
    })
}

fn behind_refusal(written: bool) -> ControlFlow<Ending, Reading> {
    if !written {
        return ControlFlow::Break(Ending::Unwritten);
    }
    ControlFlow::Break(Ending::Told)
}

// The row that so many bytes are.
fn hand_in(
    row: u64,
    held: usize,
    bytes: &[u8; HELD],
    text: &mut [u8; TEXT],
) -> ControlFlow<Ending, Reading>
    requires { held ≤ 107 }
{
    let whole = &bytes[..];
    let read = read_row(&whole[0..held]);
    match read {
        Ok(said) => behind_row(print_row(said, text), row),
        Err(refusal) => behind_refusal(print_refusal(row, refusal, text)),
    }
}

// A byte behind those that are held; how many there are then.
fn keep(byte: u8, held: usize, bytes: &mut [u8; HELD]) -> usize
    ensures { result ≤ 107 }
{
    if HELD <= held {
        return HELD;
    }
    bytes[held] = byte;
    held + 1
}

// Is the row handed in with this byte, when so many are held? With its line feed, or where no more can be held.
fn row_ends(byte: u8, held: usize) -> bool
    ensures { result ≡ row_ends byte held }
{
    if byte == b'\n' {
        return true;
    }
    HELD <= held
}

fn take_byte(
    reading: Reading,
    byte: u8,
    bytes: &mut [u8; HELD],
    text: &mut [u8; TEXT],
) -> ControlFlow<Ending, Reading> {
    let row = reading.row;
    let held = keep(byte, reading.held, bytes);
    if row_ends(byte, held) {
        return hand_in(row, held, bytes, text);
    }
    ControlFlow::Continue(Reading { row, held })
}

// The bytes that came.
fn take_piece(
    from: Reading,
    piece: &[u8],
    bytes: &mut [u8; HELD],
    text: &mut [u8; TEXT],
) -> ControlFlow<Ending, Reading> {
    let mut reading = from;
    for i in 0..piece.len() {
        reading = take_byte(reading, piece[i], bytes, text)?;
    }
    ControlFlow::Continue(reading)
}

// No more than there are.
fn within(count: usize, most: usize) -> usize
    ensures { result ≤ most }
{
    if most < count {
        return most;
    }
    count
}

// What the input's end leaves: nothing, or a row without its line feed, which is refused; in any case it is the last.
fn last_row(
    reading: Reading,
    bytes: &[u8; HELD],
    text: &mut [u8; TEXT],
) -> ControlFlow<Ending, Reading> {
    let held = reading.held;
    if held == 0 {
        return ControlFlow::Break(Ending::Told);
    }
    hand_in(reading.row, within(held, HELD), bytes, text)?;
    ControlFlow::Break(Ending::Told)
}

fn read_piece(
    input: &mut Stdin,
    reading: Reading,
    bytes: &mut [u8; HELD],
    text: &mut [u8; TEXT],
) -> ControlFlow<Ending, Reading> {
    let mut piece = io::buffer();
    let Ok(count) = input.read(&mut piece) else {
        return ControlFlow::Break(Ending::Unread);
    };
    if count == 0 {
        return last_row(reading, bytes, text);
    }
    take_piece(reading, &piece[..count], bytes, text)
}

// The rows to their end, or to the first one that is refused. No report has as many pieces as are counted here: it says that the loop ends.
pub(crate) fn read_rows(input: &mut Stdin) -> Ending {
    let mut bytes = [0u8; HELD];
    let mut text = [0u8; TEXT];
    let mut reading = Reading { row: 1, held: 0 };
    for _ in 0..u64::MAX {
        let turn = read_piece(input, reading, &mut bytes, &mut text);
        match turn {
            ControlFlow::Continue(next) => {
                reading = next;
            }
            ControlFlow::Break(ending) => return ending,
        }
    }
    Ending::Unread
}
