// The pieces of a line, each put before what stands from `at` on; the answer is where the line now starts.
ghost use Rattle.std.specs.Prelude.{◌≡◌, ◌+◌, ◌≤◌, ◌<◌, nat_abs, length};
ghost use Rattle.std.proofs.Math.Seq.{paste};
ghost use Rattle.rules.specs.Text.{text, natural, integer};
ghost use Rattle.rules.specs.Listing.{standing_word};
ghost use Rattle.listing.specs.Pieces.{Room, Put, PutWhereRoom, two_put, after_space, direction_piece};

use rules::{Direction, Standing};

// A number of 64 bits has at most so many digits.
const DIGITS: usize = 20;

// A word has a few bytes: a loop is written out where it stands, and the library's copy_from_slice is a call for each word, which takes settle 5 % more.
pub(crate) fn copy(source: &[u8], target: &mut [u8], to: usize)
    requires { to + length source.now ≤ length target.old }
    ensures { target.new ≡ paste target.old to source.now (length source.now) }
{
    for i in 0..source.len() {
        target[to + i] = source[i];
    }
}

pub(crate) fn put(word: &[u8], at: usize, line: &mut [u8]) -> usize
    requires { Room (length word.now) at line.old }
    ensures { Put word.now at line.old result line.new }
{
    let from = at - word.len();
    copy(word, line, from);
    from
}

// The same for the lines of other crates: where the word has no room, nothing is put.
pub fn put_word(word: &[u8], at: usize, line: &mut [u8]) -> usize
    ensures { PutWhereRoom (length word.now) word.now at line.old result line.new }
{
    if at < word.len() {
        return at;
    }
    if line.len() < at {
        return at;
    }
    put(word, at, line)
}

// The two digits of a number below 100, before what stands from `to` on. Both bytes of a word hold 48, the code of 0; the tens are added to the low byte and the
// ones to the high one, so that a processor writes both at once.
fn put_two(two: u64, to: usize, line: &mut [u8])
    requires { (two < 100) × (2 ≤ to) × (to ≤ length line.old) }
    ensures { line.new ≡ two_put two to line.old }
{
    let word = 12_336 + 256 * two - 2_559 * (two / 10);
    line[to - 1] = (word / 256) as u8;
    line[to - 2] = (word % 256) as u8;
}

// A number's digits, the last four first: a division of 64 bits for four, which is what costs on a core of 32.
fn put_digits(n: u64, at: usize, line: &mut [u8]) -> usize
    requires { Room 20 at line.old }
    ensures { Put (natural n) at line.old result line.new }
{
    let mut rest = n;
    let mut to = at;
    while 10_000 <= rest {
        let four = rest % 10_000;
        put_two(four % 100, to, line);
        put_two(four / 100, to - 2, line);
        to -= 4;
        rest /= 10_000;
    }
    if 100 <= rest {
        put_two(rest % 100, to, line);
        to -= 2;
        rest /= 100;
    }
    if rest < 10 {
        line[to - 1] = (48 + rest) as u8;
        return to - 1;
    }
    put_two(rest, to, line);
    to - 2
}

// The same for the lines of other crates: where twenty digits have no room, nothing is put.
pub fn put_number(n: u64, at: usize, line: &mut [u8]) -> usize
    ensures { PutWhereRoom 20 (natural n) at line.old result line.new }
{
    if at < DIGITS {
        return at;
    }
    if line.len() < at {
        return at;
    }
    put_digits(n, at, line)
}

pub(crate) fn put_natural(n: u64, at: usize, line: &mut [u8]) -> usize
    requires { Room 21 at line.old }
    ensures { Put (after_space (natural n)) at line.old result line.new }
{
    let to = put_digits(n, at, line);
    put(b" ", to, line)
}

// A number without its sign. The least i64 has no negative of its own; one more than a number below zero always has.
pub fn size(x: i64) -> u64
    ensures { result ≡ nat_abs x }
{
    if x < 0 {
        (-(x + 1)) as u64 + 1
    } else {
        x as u64
    }
}

pub(crate) fn put_integer(x: i64, at: usize, line: &mut [u8]) -> usize
    requires { Room 22 at line.old }
    ensures { Put (after_space (integer x)) at line.old result line.new }
{
    let to = put_digits(size(x), at, line);
    if 0 <= x {
        return put(b" ", to, line);
    }
    put(b" -", to, line)
}

pub(crate) fn put_direction(direction: Direction, at: usize, line: &mut [u8]) -> usize
    requires { Room 6 at line.old }
    ensures { Put (direction_piece direction) at line.old result line.new }
{
    match direction {
        Direction::Raise => put(b" raise", at, line),
        Direction::Lower => put(b" lower", at, line),
    }
}

pub(crate) fn put_standing(standing: Standing, at: usize, line: &mut [u8]) -> usize
    requires { Room 8 at line.old }
    ensures { Put (after_space (standing_word standing)) at line.old result line.new }
{
    match standing {
        Standing::Live => put(b" live", at, line),
        Standing::Default(_) => put(b" default", at, line),
    }
}
