// numerals: a word of text as a whole number within i64, a byte at a time: digits, with a minus before them or none. Leading zeros are let in.
#![tactic(auto)]

ghost use Rattle.std.specs.Prelude.{◌≡◌, ◌≤◌};
ghost use Rattle.numerals.specs.Numerals.{blank, minus_word, wrong_word, digit_added, byte_added, below_zero, number_of};

use little::signed_eight;

// One more than i64's largest number, which is the size of its least.
const MOST: u64 = 0x8000_0000_0000_0000;

// A word so far: whether it has begun, whether with a minus, whether a digit came, their number, and whether it can still be one within i64.
#[derive(Clone, Copy)]
pub struct Word {
    pub begun: bool,
    pub minus: bool,
    pub digits: bool,
    pub size: u64,
    pub fine: bool,
}

// A word of which nothing has come.
pub fn no_word() -> Word
    ensures { result ≡ blank }
{
    Word {
        begun: false,
        minus: false,
        digits: false,
        size: 0,
        fine: true,
    }
}

fn wrong(word: Word) -> Word
    ensures { result ≡ wrong_word word }
{
    Word {
        begun: true,
        minus: word.minus,
        digits: word.digits,
        size: 0,
        fine: false,
    }
}

// A minus, where the word begins.
fn minus_sign() -> Word
    ensures { result ≡ minus_word }
{
    Word {
        begun: true,
        minus: true,
        digits: false,
        size: 0,
        fine: true,
    }
}

// One digit more, unless the number passes what i64 can hold either way.
fn with_digit(word: Word, digit: u8) -> Word
    requires { digit ≤ 9 }
    ensures { result ≡ digit_added word digit }
{
    if MOST / 10 < word.size {
        return wrong(word);
    }
    let size = 10 * word.size + digit as u64;
    if MOST < size {
        return wrong(word);
    }
    Word {
        begun: true,
        minus: word.minus,
        digits: true,
        size,
        fine: word.fine,
    }
}

// The word with a byte more.
pub fn longer(word: Word, byte: u8) -> Word
    ensures { result ≡ byte_added word byte }
{
    if byte == b'-' {
        if word.begun {
            return wrong(word);
        }
        return minus_sign();
    }
    if byte < b'0' {
        return wrong(word);
    }
    if b'9' < byte {
        return wrong(word);
    }
    with_digit(word, byte - b'0')
}

// A number below zero, or -0, which is 0. The least i64 has no negative of its own, so it is taken from its bits.
fn turned(size: u64) -> Option<i64>
    ensures { result ≡ below_zero size }
{
    if MOST < size {
        return None;
    }
    if size == 0 {
        return Some(0);
    }
    Some(signed_eight(u64::MAX - (size - 1)))
}

// What a word says that has come to its end.
pub fn number_in(word: Word) -> Option<i64>
    ensures { result ≡ number_of word }
{
    if !word.fine {
        return None;
    }
    if !word.digits {
        return None;
    }
    if word.minus {
        return turned(word.size);
    }
    if MOST <= word.size {
        return None;
    }
    Some(signed_eight(word.size))
}
