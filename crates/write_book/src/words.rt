// What a word is: one of the four names, a whole number within i64, or a minus alone. A number is followed digit by digit, since it may be of any length; of a
// name no more letters are kept than tell it from the others.
ghost use Rattle.std.specs.Prelude.{◌≤◌};

use super::next::within;
use numerals::{Word, number_in};

// One letter more than the longest name.
pub(crate) const LETTERS: usize = 12;

#[derive(Clone, Copy)]
pub(crate) enum Found {
    Settings,
    Region,
    Unit,
    Requirement,
    Number(i64),
    Bad,
    Other,
}

fn same(word: &[u8], name: &[u8]) -> bool {
    if word.len() != name.len() {
        return false;
    }
    for i in 0..word.len() {
        if word[i] != name[i] {
            return false;
        }
    }
    true
}

fn name_in(word: &[u8]) -> Found {
    if same(word, b"settings") {
        return Found::Settings;
    }
    if same(word, b"region") {
        return Found::Region;
    }
    if same(word, b"unit") {
        return Found::Unit;
    }
    if same(word, b"requirement") {
        return Found::Requirement;
    }
    Found::Other
}

// A minus alone.
fn is_bad(word: Word) -> bool {
    if !word.fine {
        return false;
    }
    if word.digits {
        return false;
    }
    word.minus
}

fn first_letters(count: usize, letters: &[u8; LETTERS]) -> Found
    requires { count ≤ 12 }
{
    let whole = &letters[..];
    name_in(&whole[0..count])
}

pub(crate) fn found_in(word: Word, count: usize, letters: &[u8; LETTERS]) -> Found {
    if let Some(number) = number_in(word) {
        return Found::Number(number);
    }
    if is_bad(word) {
        return Found::Bad;
    }
    first_letters(within(count, LETTERS), letters)
}

// A letter more; how many there are then.
pub(crate) fn keep_letter(byte: u8, count: usize, letters: &mut [u8; LETTERS]) -> usize {
    if LETTERS <= count {
        return LETTERS;
    }
    letters[count] = byte;
    count + 1
}
