// What can be asked once every unit is in, and how the answer stands in lent words.
ghost use Rattle.std.specs.Prelude.{◌≡◌, ◌&&◌, ◌≤◌, length};
ghost use Rattle.dullavane.specs.Words.{held, handed, reply_number};
ghost use Rattle.dullavane.specs.Asked.{asked_tally, held_or_none, asked_narrow, direction_of, standing_number, with_row, row_number, row_after};
ghost use Rattle.dullavane.specs.Answers.{with_answer, answered_number, answered_after};

use super::words::{OVER_8_BITS, OVER_16_BITS, held};
use answer::{Answer, Row};
use interval::Tally;
use interval::turns::answer_turn;
use rules::{Direction, Reason, Refusal, Standing, refusal_number};

// The tally that words hold, with every unit in and room for the answer, or why there is none to ask: 12 and 11 for the words, 11 out of turn,
// 11 where a number that it is asked by is over its width, then 12 where the words for the answer are too few.
pub(crate) fn asked(words: &[u32], narrow: bool, long: bool) -> Result<Tally, Refusal>
    ensures { result ≡ handed (asked_tally words.now narrow long) }
{
    let tally = held(words)?;
    if !answer_turn(tally) {
        return Err(Refusal::WrongState);
    }
    if !narrow {
        return Err(Refusal::WrongState);
    }
    if !long {
        return Err(Refusal::TooShort);
    }
    Ok(tally)
}

// 0 where words hold a tally that can be asked, else the number of why not, for calls of other crates.
pub fn asked_refusal(words: &[u32], narrow: bool, long: bool) -> u32
    ensures { result ≡ reply_number (asked_tally words.now narrow long) }
{
    match asked(words, narrow, long) {
        Ok(_) => 0,
        Err(refusal) => refusal_number(refusal),
    }
}

// The tally that words hold, for calls of other crates; all zeros where they hold none.
pub fn tally_held(words: &[u32]) -> Tally
    ensures { result ≡ held_or_none (held words.now) }
{
    match held(words) {
        Ok(tally) => tally,
        Err(_) => Tally {
            units: 0,
            requirements: 0,
            records: 0,
            least: 0,
            smoothing: 0,
            limit: 0,
            percent: 0,
            interval: 0,
        },
    }
}

// Is each number that a row is asked by within its width? A direction is 0 or 1.
pub(crate) fn narrow_asked(row: u32, direction: u32, set: u32) -> bool
    ensures { result ≡ asked_narrow row direction set }
{
    if OVER_16_BITS <= row {
        return false;
    }
    if 2 <= direction {
        return false;
    }
    set < OVER_8_BITS
}

pub fn direction_of(direction: u32) -> Direction
    ensures { result ≡ direction_of direction }
{
    if direction == 0 {
        return Direction::Raise;
    }
    Direction::Lower
}

// 0 is live; else the reason why a default stands in.
pub(crate) fn standing_number(standing: Standing) -> u32
    ensures { result ≡ standing_number standing }
{
    match standing {
        Standing::Live => 0,
        Standing::Default(reason) => match reason {
            Reason::UnreliableRegion => 1,
            Reason::BadUnit => 2,
            Reason::NoGoodUnit => 3,
        },
    }
}

// Words past the three stay.
fn put_row(one: u32, number: u32, standing: u32, words: &mut [u32])
    requires { 3 ≤ length words.old }
    ensures { words.new ≡ with_row one number standing words.old }
{
    words[0] = one;
    words[1] = number;
    words[2] = standing;
}

// The number of a row's answer, with who stands there in the words.
pub(crate) fn tell_row(row: Row, words: &mut [u32]) -> u32
    requires { 3 ≤ length words.old }
    ensures { (result ≡ row_number row) × (words.new ≡ row_after row words.old) }
{
    match row {
        Row::Unit(number, standing) => {
            put_row(1, number as u32, standing_number(standing), words);
            0
        }
        Row::Other => {
            put_row(0, 0, 0, words);
            0
        }
        Row::Refused(refusal) => refusal_number(refusal),
    }
}

// Words past the eight stay.
fn put_answer(given: Answer, reply: &mut [u64])
    requires { 8 ≤ length reply.old }
    ensures { reply.new ≡ with_answer given reply.old }
{
    let used = given.used;
    let unused = given.unused;
    let residual = given.residual;
    let standing = standing_number(residual);
    reply[0] = given.members as u64;
    reply[1] = given.rcr;
    reply[2] = given.pool;
    reply[3] = used.pool;
    reply[4] = unused.pool;
    reply[5] = used.unplaced;
    reply[6] = unused.unplaced;
    reply[7] = standing as u64;
}

// The number of an answer, with its figures in the words.
pub(crate) fn tell_answer(answered: Result<Answer, Refusal>, reply: &mut [u64]) -> u32
    requires { 8 ≤ length reply.old }
    ensures { (result ≡ answered_number answered) × (reply.new ≡ answered_after answered reply.old) }
{
    match answered {
        Ok(given) => {
            put_answer(given, reply);
            0
        }
        Err(refusal) => refusal_number(refusal),
    }
}
