// A figure: a number at the right end of 16 places, or 16 hashes where it has more characters.
ghost use Rattle.std.specs.Prelude.{◌≡◌, ◌≤◌, ltb, length};
ghost use Rattle.rules.specs.Text.{integer};
ghost use Rattle.rules.specs.Panel.{figure as drawn};
ghost use Rattle.listing.specs.Pieces.{Room, Put};
ghost use Rattle.pages.specs.Amounts.{value};
ghost use Rattle.pages.specs.Promises.{Draws};

use super::amounts::signed_amount;
use super::pieces::put_repeated;
use super::{Amount, FIGURE, LINE};
use listing::pieces::{put_number, put_word};
use rules::Refusal;

// The greatest size that 16 characters hold, and with a minus before it.
const MOST: u64 = 9_999_999_999_999_999;

const MOST_BELOW: u64 = 999_999_999_999_999;

// Has it more characters than there are places? A sign counts.
fn too_long(x: Amount) -> bool
    ensures { result ≡ ltb 16 (length (integer (value x))) }
{
    if x.below {
        return MOST_BELOW < x.size;
    }
    MOST < x.size
}

// The digits of a number that has room, and its sign before them.
fn put_integer(x: Amount, at: usize, text: &mut [u8]) -> usize
    requires { Room 20 at text.old × (length (integer (value x)) ≤ 16) }
    ensures { Put (integer (value x)) at text.old result text.new }
{
    let digits = put_number(x.size, at, text);
    if !x.below {
        return digits;
    }
    if x.size == 0 {
        return digits;
    }
    put_word(b"-", digits, text)
}

// The 16 places before `at`.
pub(crate) fn put_figure(x: Amount, at: usize, text: &mut [u8]) -> usize
    requires { Room 20 at text.old }
    ensures { Put (drawn (value x)) at text.old result text.new }
{
    if too_long(x) {
        return put_repeated(b'#', FIGURE, at, text);
    }
    let start = put_integer(x, at, text);
    put_repeated(b' ', FIGURE + start - at, start, text)
}

// Draws a figure at the front of the text. Refuses 12 for a text under 16 bytes.
pub fn figure(x: i64, text: &mut [u8]) -> Result<(), Refusal>
    ensures { Draws 16 (drawn x) text.old result text.new }
{
    if text.len() < FIGURE {
        return Err(Refusal::TooShort);
    }
    let mut line = [0u8; LINE];
    let start = put_figure(signed_amount(x), LINE, &mut line);
    put_word(&line[start..], FIGURE, text);
    Ok(())
}
