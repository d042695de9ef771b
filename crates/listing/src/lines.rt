// The lines. The text ends with the line, and the answer is where it starts; the bytes before it stay.
ghost use Rattle.std.specs.Prelude.{◌≡◌, ◌≤◌, length, [], ◌∷◌};
ghost use Rattle.rules.specs.Listing.{interval_line, refused_line, requirement_line, member_line};
ghost use Rattle.listing.specs.Pieces.{Room, Put};
ghost use Rattle.listing.specs.Lines.{LineWritten, answer_of, amounts_words, unit_of, residual_of};

use super::pieces::{put, put_direction, put_integer, put_natural, put_standing};
use super::{Amounts, LINE, RequirementLine};
use rules::{Located, Standing, refusal_number, refusal_point};

// Where a line's last byte stands.
const END: usize = 164;

// A line's last byte, a line feed.
fn put_end(line: &mut [u8]) -> usize
    requires { length line.old ≡ 165 }
    ensures line_written { LineWritten (10 ∷ []) line.old result line.new }
    ensures room { Room 164 result line.new }
{
    line[END] = b'\n';
    END
}

pub fn interval_line(interval: u32, text: &mut [u8; LINE]) -> usize
    ensures line_written { LineWritten (interval_line interval) text.old result text.new }
    ensures upper_bound { result ≤ 165 }
{
    let last = put_end(text);
    let end = put_natural(interval as u64, last, text);
    put(b"interval", end, text)
}

// Number, place and t, with 0 for one that is not there.
pub fn refused_line(said: Located, text: &mut [u8; LINE]) -> usize
    ensures line_written { LineWritten (refused_line said) text.old result text.new }
    ensures upper_bound { result ≤ 165 }
{
    let refusal = said.refusal;
    let last = put_end(text);
    let mut at = put_natural(refusal_point(refusal) as u64, last, text);
    at = put_natural(said.place as u64, at, text);
    at = put_natural(refusal_number(refusal) as u64, at, text);
    put(b"refused", at, text)
}

pub fn requirement_line(said: RequirementLine, text: &mut [u8; LINE]) -> usize
    ensures line_written { LineWritten (requirement_line (answer_of said)) text.old result text.new }
    ensures upper_bound { result ≤ 165 }
{
    let last = put_end(text);
    let used = said.used;
    let unused = said.unused;
    let direction = said.direction;
    let mut at = put_natural(unused.unplaced, last, text);
    at = put_natural(used.unplaced, at, text);
    at = put_natural(unused.cents, at, text);
    at = put_natural(used.cents, at, text);
    at = put_natural(said.pool, at, text);
    at = put_natural(said.rcr, at, text);
    at = put_direction(direction, at, text);
    at = put_natural(said.number as u64, at, text);
    put(b"requirement", at, text)
}

// A member's standing and its five amounts, before the line's end.
fn put_amounts(standing: Standing, amounts: Amounts, last: usize, line: &mut [u8]) -> usize
    requires { Room 164 last line.old }
    ensures { Put (amounts_words standing amounts) last line.old result line.new }
{
    let mut at = put_integer(amounts.unused, last, line);
    at = put_integer(amounts.used, at, line);
    at = put_integer(amounts.payment, at, line);
    at = put_integer(amounts.factor, at, line);
    at = put_integer(amounts.performance, at, line);
    put_standing(standing, at, line)
}

pub fn unit_line(number: u16, standing: Standing, amounts: Amounts, text: &mut [u8; LINE]) -> usize
    ensures line_written { LineWritten (member_line (unit_of number standing amounts)) text.old result text.new }
    ensures upper_bound { result ≤ 165 }
{
    let last = put_end(text);
    let member = put_amounts(standing, amounts, last, text);
    let name = put_natural(number as u64, member, text);
    put(b"unit", name, text)
}

pub fn residual_line(standing: Standing, amounts: Amounts, text: &mut [u8; LINE]) -> usize
    ensures line_written { LineWritten (member_line (residual_of standing amounts)) text.old result text.new }
    ensures upper_bound { result ≤ 165 }
{
    let last = put_end(text);
    let member = put_amounts(standing, amounts, last, text);
    put(b"residual", member, text)
}
