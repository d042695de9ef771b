// The text, piece by piece and byte by byte: words apart by blanks and line feeds, and `#` up to the line's end left out.
ghost use Rattle.std.specs.Prelude.{◌≤◌};

use super::keeping::{
    FREQUENCIES, READINGS, REGION_NUMBERS, REGION_QUALITIES, REQUIREMENT_NUMBERS, SETTINGS,
    UNIT_NUMBERS, UNIT_QUALITIES, keep,
};
use super::next::{Note, Place, may_end, start, take_word};
use super::words::{LETTERS, found_in, keep_letter};
use numerals::{Word, longer, no_word};
use std::io::{Read, Stdin};
use std::ops::ControlFlow;

const PIECE: usize = 4_096;

// The line of a text's first fault, or that it cannot be read.
#[derive(Clone, Copy)]
pub(crate) enum Fault {
    Line(u64),
    Unread,
}

// Where the text is: what has to stand next, the line, whether it is left out from here on, the word so far and how many of its letters are kept, and
// whether a word was found that may not stand where it stands. Then the line is that word's, and the text is read no further.
#[derive(Clone, Copy)]
struct Reading {
    place: Place,
    line: u64,
    comment: bool,
    word: Word,
    letters: usize,
    fault: bool,
}

// How many bytes of a piece came, the line feed that stands for the text's end among them.
#[derive(Clone, Copy)]
struct Fetched {
    count: usize,
    ended: bool,
    failed: bool,
}

#[derive(Clone, Copy)]
struct Taken {
    reading: Reading,
    note: Note,
}

fn fresh() -> Reading {
    Reading {
        place: start(),
        line: 1,
        comment: false,
        word: no_word(),
        letters: 0,
        fault: false,
    }
}

fn is_blank(byte: u8) -> bool {
    match byte {
        b' ' | b'\t' | b'\r' => true,
        _ => false,
    }
}

// Between words, at this place.
fn between(place: Place, line: u64, comment: bool) -> Reading {
    Reading {
        place,
        line,
        comment,
        word: no_word(),
        letters: 0,
        fault: false,
    }
}

fn stopped(reading: Reading) -> Taken {
    let place = reading.place;
    let word = reading.word;
    Taken {
        reading: Reading {
            place,
            line: reading.line,
            comment: false,
            word,
            letters: 0,
            fault: true,
        },
        note: Note::Nothing,
    }
}

// Where a word ends, if one has begun; what comes behind is left out or not.
fn end_word(reading: Reading, comment: bool, letters: &[u8; LETTERS]) -> Taken {
    let place = reading.place;
    let word = reading.word;
    if !word.begun {
        return Taken {
            reading: between(place, reading.line, comment),
            note: Note::Nothing,
        };
    }
    let found = found_in(word, reading.letters, letters);
    match take_word(place, found) {
        Some((next, note)) => Taken {
            reading: between(next, reading.line, comment),
            note,
        },
        None => stopped(reading),
    }
}

// No text has as many lines as can be counted.
fn next_line(line: u64) -> u64 {
    if line < u64::MAX {
        return line + 1;
    }
    line
}

fn end_line(reading: Reading, letters: &[u8; LETTERS]) -> Taken {
    let taken = end_word(reading, false, letters);
    let ended = taken.reading;
    let note = taken.note;
    if ended.fault {
        return taken;
    }
    let place = ended.place;
    Taken {
        reading: between(place, next_line(ended.line), false),
        note,
    }
}

fn take_letter(reading: Reading, byte: u8, letters: &mut [u8; LETTERS]) -> Taken {
    let place = reading.place;
    let word = reading.word;
    Taken {
        reading: Reading {
            place,
            line: reading.line,
            comment: false,
            word: longer(word, byte),
            letters: keep_letter(byte, reading.letters, letters),
            fault: false,
        },
        note: Note::Nothing,
    }
}

// What stands behind `#` is left out up to the line feed.
fn is_left_out(reading: Reading, byte: u8) -> bool {
    if byte == b'\n' {
        return false;
    }
    reading.comment
}

fn take_byte(reading: Reading, byte: u8, letters: &mut [u8; LETTERS]) -> Taken {
    if byte == b'\n' {
        return end_line(reading, letters);
    }
    if byte == b'#' {
        return end_word(reading, true, letters);
    }
    if is_blank(byte) {
        return end_word(reading, false, letters);
    }
    take_letter(reading, byte, letters)
}

// So many bytes of the piece.
fn take_piece(
    from: Reading,
    count: usize,
    piece: &[u8; PIECE],
    letters: &mut [u8; LETTERS],
    settings: &mut [i64; SETTINGS],
    region_rows: &mut [i64; REGION_NUMBERS],
    region_qualities: &mut [u8; REGION_QUALITIES],
    frequencies: &mut [u32; FREQUENCIES],
    unit_rows: &mut [i64; UNIT_NUMBERS],
    unit_qualities: &mut [u8; UNIT_QUALITIES],
    readings: &mut [i32; READINGS],
    requirement_rows: &mut [i64; REQUIREMENT_NUMBERS],
) -> Reading
    requires { count ≤ 4096 }
{
    let mut reading = from;
    for i in 0..count {
        let byte = piece[i];
        if is_left_out(reading, byte) {
            continue;
        }
        let taken = take_byte(reading, byte, letters);
        reading = taken.reading;
        let note = taken.note;
        if reading.fault {
            return reading;
        }
        keep(
            note,
            settings,
            region_rows,
            region_qualities,
            frequencies,
            unit_rows,
            unit_qualities,
            readings,
            requirement_rows,
        );
    }
    reading
}

fn one_reading(input: &mut Stdin, piece: &mut [u8; PIECE]) -> Fetched
    ensures { result.count ≤ 4096 }
{
    match input.read(piece) {
        Ok(count) => Fetched {
            count,
            ended: false,
            failed: false,
        },
        Err(_) => Fetched {
            count: 0,
            ended: true,
            failed: true,
        },
    }
}

// Reads on. What ends the text ends its last word and its last line too, so a line feed stands for it.
fn fetch(input: &mut Stdin, piece: &mut [u8; PIECE]) -> Fetched
    ensures { result.count ≤ 4096 }
{
    let got = one_reading(input, piece);
    let count = got.count;
    if 0 < count {
        return Fetched {
            count,
            ended: false,
            failed: false,
        };
    }
    piece[0] = b'\n';
    Fetched {
        count: 1,
        ended: true,
        failed: got.failed,
    }
}

// Behind a piece that began on this line: the text goes on, or it is whole and has so many units and requirements.
fn behind_piece(
    reading: Reading,
    line: u64,
    ended: bool,
) -> Result<ControlFlow<(u32, u32), Reading>, Fault> {
    if reading.fault {
        return Err(Fault::Line(reading.line));
    }
    if !ended {
        return Ok(ControlFlow::Continue(reading));
    }
    let place = reading.place;
    if may_end(place) {
        return Ok(ControlFlow::Break((place.units, place.requirements)));
    }
    Err(Fault::Line(line))
}

// The next piece of the text.
fn read_piece(
    input: &mut Stdin,
    reading: Reading,
    letters: &mut [u8; LETTERS],
    settings: &mut [i64; SETTINGS],
    region_rows: &mut [i64; REGION_NUMBERS],
    region_qualities: &mut [u8; REGION_QUALITIES],
    frequencies: &mut [u32; FREQUENCIES],
    unit_rows: &mut [i64; UNIT_NUMBERS],
    unit_qualities: &mut [u8; UNIT_QUALITIES],
    readings: &mut [i32; READINGS],
    requirement_rows: &mut [i64; REQUIREMENT_NUMBERS],
) -> Result<ControlFlow<(u32, u32), Reading>, Fault> {
    let mut piece = [0u8; PIECE];
    let fetched = fetch(input, &mut piece);
    if fetched.failed {
        return Err(Fault::Unread);
    }
    let line = reading.line;
    let next = take_piece(
        reading,
        fetched.count,
        &piece,
        letters,
        settings,
        region_rows,
        region_qualities,
        frequencies,
        unit_rows,
        unit_qualities,
        readings,
        requirement_rows,
    );
    behind_piece(next, line, fetched.ended)
}

// The text to its end, with how many units and requirements it has, or to its first fault. No text has as many pieces as are counted here: it says that the
// loop ends.
pub(crate) fn read_text(
    input: &mut Stdin,
    settings: &mut [i64; SETTINGS],
    region_rows: &mut [i64; REGION_NUMBERS],
    region_qualities: &mut [u8; REGION_QUALITIES],
    frequencies: &mut [u32; FREQUENCIES],
    unit_rows: &mut [i64; UNIT_NUMBERS],
    unit_qualities: &mut [u8; UNIT_QUALITIES],
    readings: &mut [i32; READINGS],
    requirement_rows: &mut [i64; REQUIREMENT_NUMBERS],
) -> Result<(u32, u32), Fault> {
    let mut letters = [0u8; LETTERS];
    let mut reading = fresh();
    for _ in 0..u64::MAX {
        let turn = read_piece(
            input,
            reading,
            &mut letters,
            settings,
            region_rows,
            region_qualities,
            frequencies,
            unit_rows,
            unit_qualities,
            readings,
            requirement_rows,
        )?;
        match turn {
            ControlFlow::Continue(next) => {
                reading = next;
            }
            ControlFlow::Break(counts) => return Ok(counts),
        }
    }
    Err(Fault::Unread)
}
