// Whole numbers from standard input, a line at a time.
ghost use Rattle.std.specs.Prelude.{◌≤◌};

use super::output;
use numerals::{Word, longer, no_word, number_in};
use rules::{Refusal, Verdict};
use sheets::sheet;
use std::io::{Read as _, Stdin};

// One more than a sheet can have: what comes past that many is counted no further.
pub(crate) const PLACES: usize = 514;

// Where the next byte stands in the buffer, and where those end that were read.
#[derive(Clone, Copy)]
pub(crate) struct Input {
    pub(crate) at: usize,
    pub(crate) end: usize,
}

// A line has a word that is no number, or it cannot be read.
#[derive(Clone, Copy)]
pub(crate) enum Fault {
    NoNumber,
    Unread,
}

// A line so far: its numbers, whether every word was one, and the word that is being read.
#[derive(Clone, Copy)]
struct Reading {
    count: usize,
    fine: bool,
    word: Word,
}

pub(crate) fn fresh() -> Input {
    Input { at: 0, end: 0 }
}

// Reads on, and gives the first byte that came, if one did.
fn refill(file: &mut Stdin, input: &mut Input, buffer: &mut [u8]) -> Result<Option<u8>, Fault> {
    let Ok(end) = file.read(buffer) else {
        return Err(Fault::Unread);
    };
    if end == 0 {
        return Ok(None);
    }
    *input = Input { at: 1, end };
    Ok(Some(buffer[0]))
}

fn next_byte(file: &mut Stdin, input: &mut Input, buffer: &mut [u8]) -> Result<Option<u8>, Fault> {
    let at = input.at;
    let end = input.end;
    if at < end {
        if at < buffer.len() {
            *input = Input { at: at + 1, end };
            return Ok(Some(buffer[at]));
        }
    }
    refill(file, input, buffer)
}

// Where a word ends, its number is noted.
fn end_word(reading: Reading, numbers: &mut [i64]) -> Reading {
    let word = reading.word;
    let count = reading.count;
    if !word.begun {
        return reading;
    }
    let Some(number) = number_in(word) else {
        return Reading {
            count,
            fine: false,
            word: no_word(),
        };
    };
    if count < numbers.len() {
        numbers[count] = number;
        return Reading {
            count: count + 1,
            fine: reading.fine,
            word: no_word(),
        };
    }
    Reading {
        count,
        fine: reading.fine,
        word: no_word(),
    }
}

fn is_blank(byte: u8) -> bool {
    match byte {
        b' ' | b'\t' | b'\r' => true,
        _ => false,
    }
}

fn take(reading: Reading, byte: u8, numbers: &mut [i64]) -> Reading {
    if is_blank(byte) {
        return end_word(reading, numbers);
    }
    let word = reading.word;
    Reading {
        count: reading.count,
        fine: reading.fine,
        word: longer(word, byte),
    }
}

fn told(reading: Reading) -> Result<usize, Fault> {
    if !reading.fine {
        return Err(Fault::NoNumber);
    }
    Ok(reading.count)
}

// How many numbers a line has, to its end or the input's. No line has as many bytes as are counted here: it says that the loop ends.
fn read_line(
    file: &mut Stdin,
    input: &mut Input,
    buffer: &mut [u8],
    numbers: &mut [i64],
) -> Result<usize, Fault> {
    let mut reading = Reading {
        count: 0,
        fine: true,
        word: no_word(),
    };
    for _ in 0..u64::MAX {
        let Some(byte) = next_byte(file, input, buffer)? else {
            return told(end_word(reading, numbers));
        };
        if byte == b'\n' {
            return told(end_word(reading, numbers));
        }
        reading = take(reading, byte, numbers);
    }
    Err(Fault::Unread)
}

// How many numbers the line at this place has, or why it has none is told.
pub(crate) fn count_in(
    file: &mut Stdin,
    place: u64,
    input: &mut Input,
    buffer: &mut [u8],
    numbers: &mut [i64],
) -> Option<usize> {
    match read_line(file, input, buffer, numbers) {
        Ok(count) => Some(count),
        Err(fault) => {
            output::no_line(fault, place);
            None
        }
    }
}

// No more than there are.
fn within(count: usize, most: usize) -> usize
    ensures { result ≤ most }
{
    if most < count {
        return most;
    }
    count
}

// The first so many of either list.
pub(crate) fn judge(
    performances: &[i64],
    members: usize,
    factors: &[i64],
    count: usize,
) -> Result<Verdict, Refusal> {
    let n = within(members, performances.len());
    let m = within(count, factors.len());
    sheet(&performances[..n], &factors[..m])
}

// Both lines from standard input.
pub(crate) fn judge_lines(file: &mut Stdin) {
    let mut buffer = io::buffer();
    let mut input = fresh();
    let mut performances = [0i64; PLACES];
    let mut factors = [0i64; PLACES];
    let Some(members) = count_in(file, 1, &mut input, &mut buffer, &mut performances) else {
        return;
    };
    let Some(count) = count_in(file, 2, &mut input, &mut buffer, &mut factors) else {
        return;
    };
    output::tell(judge(&performances, members, &factors, count));
}
