// The line of a unit: its lowest, highest and last deviation in MW with four decimals, and a character a point.
ghost use Rattle.std.specs.Prelude.{◌≡◌, ℕ, ◌≤◌, ◌<◌, pos, get_or, Ok};
ghost use Rattle.integers.specs.Bounds.{Within};
ghost use Rattle.rules.specs.UnitRecord.{unit_record};
ghost use Rattle.book.specs.Unit.{unit_answer};
ghost use Rattle.trend.specs.Spans.{Spans};

use super::numbers::{level, span_of, ten_thousandths, write_deviations};
use book::unit::read_unit;
use book::{POINTS, UnitFields};
use printing::{TEXT, print, print_refused, put_below, put_byte, put_bytes, put_number, put_word};
use rules::locate;

// Ten-thousandths of a MW.
const MEGAWATT: u64 = 10_000;

// The point and four decimals: they are the digits of ten thousand more behind its first, so that no zero is left out.
fn put_decimals(size: u64, at: usize, text: &mut [u8; TEXT]) -> usize {
    let mut digits = [0u8; 20];
    let count = io::decimal(MEGAWATT + size % MEGAWATT, &mut digits);
    let to = put_byte(b'.', at, text);
    put_bytes(&digits[1..count], to, text)
}

// A deviation in MW. Only a number that is not zero has a minus.
fn put_megawatts(deviation: i64, at: usize, text: &mut [u8; TEXT]) -> usize
    requires { Within 15_000_000 deviation }
{
    let number = ten_thousandths(deviation);
    if number < 0 {
        let size = (-number) as u64;
        let to = put_below(size / MEGAWATT, at, text);
        return put_decimals(size, to, text);
    }
    let size = number as u64;
    let to = put_number(size / MEGAWATT, at, text);
    put_decimals(size, to, text)
}

// The characters U+2581 to U+2588, by level, in UTF-8.
fn put_level(level: u8, at: usize, text: &mut [u8; TEXT]) -> usize
    requires { level ≤ 7 }
{
    let character = [0xE2u8, 0x96, 0x81 + level];
    put_bytes(&character, at, text)
}

// A word of 75 characters.
fn put_strip(
    lowest: i64,
    highest: i64,
    deviations: &[i64; POINTS],
    at: usize,
    text: &mut [u8; TEXT],
) -> usize
    requires { (t : ℕ) → t < 75 → Spans lowest highest (get_or deviations.now t (pos 0)) }
{
    let mut to = put_byte(b' ', at, text);
    for &deviation in deviations {
        to = put_level(level(lowest, highest, deviation), to, text);
    }
    to
}

// The words that every line of a unit starts with.
pub(crate) fn put_unit(number: u16, text: &mut [u8; TEXT]) -> usize {
    let at = put_word(b"unit", 0, text);
    put_number(number as u64, at, text)
}

fn bad_line(fields: UnitFields, text: &mut [u8; TEXT]) -> bool {
    let at = put_unit(fields.number, text);
    print(put_word(b"bad", at, text), text)
}

fn drawn_line(fields: UnitFields, part: &[u8], text: &mut [u8; TEXT]) -> bool
    requires { Ok fields ≡ unit_answer (unit_record 0 part.now) }
{
    let mut deviations = [0i64; POINTS];
    write_deviations(fields, part, &mut deviations);
    let span = span_of(&deviations);
    let mut at = put_unit(fields.number, text);
    at = put_megawatts(span.lowest, at, text);
    at = put_megawatts(span.highest, at, text);
    at = put_megawatts(span.last, at, text);
    at = put_strip(span.lowest, span.highest, &deviations, at, text);
    print(at, text)
}

fn taken_line(fields: UnitFields, part: &[u8], text: &mut [u8; TEXT]) -> bool
    requires { Ok fields ≡ unit_answer (unit_record 0 part.now) }
{
    if !fields.good {
        return bad_line(fields, text);
    }
    drawn_line(fields, part, text)
}

// Of a book that was taken no unit is refused; if one were, that would be passed on.
pub(crate) fn unit_line(part: &[u8], text: &mut [u8; TEXT]) -> bool {
    let read = read_unit(part, 0);
    match read {
        Ok(fields) => taken_line(fields, part, text),
        Err(refusal) => print_refused(locate(0, refusal)),
    }
}
