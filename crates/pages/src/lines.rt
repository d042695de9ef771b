// The lines of a page, put together from its end: a label with its figure, and line one.
ghost use Rattle.std.specs.Prelude.{◌≡◌, ◌+◌, ◌≤◌, length};
ghost use Rattle.rules.specs.Listing.{standing_word};
ghost use Rattle.rules.specs.Panel.{labelled, at_left, at_ends, name_text};
ghost use Rattle.listing.specs.Pieces.{Room, Put};
ghost use Rattle.pages.specs.Lines.{way_text, required_text, unit_text};
ghost use Rattle.pages.specs.Promises.{name_of};

use super::amounts::signed_amount;
use super::figures::put_figure;
use super::pieces::put_repeated;
use super::{LINE, Who};
use listing::pieces::{put_number, put_word};
use rules::{Direction, Standing};

// A label of four, and the figure behind it.
pub(crate) fn put_labelled(label: &[u8; 4], x: i64, at: usize, text: &mut [u8]) -> usize
    requires { Room 20 at text.old × (length label.now ≡ 4) }
    ensures { Put (labelled label.now x) at text.old result text.new }
{
    let figure = put_figure(signed_amount(x), at, text);
    put_word(label, figure, text)
}

// Line one: a text at its left and one at its right end.
pub(crate) fn put_top(left: &[u8], right: &[u8], text: &mut [u8]) -> usize
    requires { (20 ≤ length text.old) × (length left.now + length right.now ≤ 20) }
    ensures put { Put (at_ends left.now right.now) 20 text.old result text.new }
    ensures value { result ≡ 0 }
{
    let end = put_word(right, LINE, text);
    let start = put_repeated(b' ', end - left.len(), end, text);
    put_word(left, start, text)
}

// Line one of a member: its name, and its standing at the right end.
fn put_standing(left: &[u8], standing: Standing, text: &mut [u8]) -> usize
    requires { (20 ≤ length text.old) × (length left.now ≤ 13) }
    ensures put { Put (at_ends left.now (standing_word standing)) 20 text.old result text.new }
    ensures value { result ≡ 0 }
{
    match standing {
        Standing::Live => put_top(left, b"live", text),
        Standing::Default(_) => put_top(left, b"default", text),
    }
}

// How long a unit's name is, with room for any number's digits before it; and a requirement's line one.
const NAME: usize = 25;

const REQUIRED: usize = 30;

// A unit's name at the end of a line of its own, where its length shows.
fn put_unit(number: u16, name: &mut [u8]) -> usize
    requires { length name.old ≡ 25 }
    ensures { Put (unit_text number) 25 name.old result name.new }
{
    let digits = put_number(number as u64, NAME, name);
    put_word(b"unit ", digits, name)
}

pub(crate) fn put_member(who: Who, standing: Standing, text: &mut [u8]) -> usize
    requires { 20 ≤ length text.old }
    ensures put { Put (at_ends (name_text (name_of who)) (standing_word standing)) 20 text.old result text.new }
    ensures value { result ≡ 0 }
{
    match who {
        Who::Unit(number) => {
            let mut name = [0u8; NAME];
            let start = put_unit(number, &mut name);
            put_standing(&name[start..], standing, text)
        }
        Who::Residual => put_standing(b"residual", standing, text),
    }
}

fn put_direction(direction: Direction, line: &mut [u8]) -> usize
    requires { length line.old ≡ 30 }
    ensures { Put (way_text direction) 30 line.old result line.new }
{
    match direction {
        Direction::Raise => put_word(b" raise", REQUIRED, line),
        Direction::Lower => put_word(b" lower", REQUIRED, line),
    }
}

// `req`, number and direction, at the end of a line of its own.
fn put_required(number: u16, direction: Direction, line: &mut [u8]) -> usize
    requires { length line.old ≡ 30 }
    ensures { Put (required_text number direction) 30 line.old result line.new }
{
    let way = put_direction(direction, line);
    let digits = put_number(number as u64, way, line);
    put_word(b"req ", digits, line)
}

pub(crate) fn put_requirement(number: u16, direction: Direction, text: &mut [u8]) -> usize
    requires { 20 ≤ length text.old }
    ensures put { Put (at_left 20 (required_text number direction)) 20 text.old result text.new }
    ensures value { result ≡ 0 }
{
    let mut line = [0u8; REQUIRED];
    let start = put_required(number, direction, &mut line);
    put_top(&line[start..], b"", text)
}
