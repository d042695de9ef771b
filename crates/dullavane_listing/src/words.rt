// The cursor in sixteen lent words: how many bytes the last call wrote, the stage, the requirement, the row, the members before it, the requirement's number,
// its direction and region set, and the eight words of its answer.
ghost use Rattle.std.specs.Prelude.{◌≡◌, ◌≤◌, length};
ghost use Rattle.rules.specs.Refusals.{taken};
ghost use Rattle.dullavane.specs.Words.{reply_number};
ghost use Rattle.dullavane.specs.Asked.{standing_number};
ghost use Rattle.dullavane_listing.specs.Cursor.{direction_number, standing_in, no_answer, words_at, cursor_words_of};
ghost use Rattle.dullavane_listing.specs.Cursor.{words_fit, answer_in, cursor_held, Held, AnswerFits, CursorFits};
ghost use Rattle.dullavane_listing.specs.Called.{listed_number, listed_after, NextFits};

use answer::{Answer, Charge};
use dullavane::asked::direction_of;
use lister::{Cursor, Listed};
use rules::{Direction, Reason, Refusal, Standing, refusal_number};

const CURSOR_WORDS: usize = 16;

const OVER_16_BITS: u64 = 65_536;

const OVER_8_BITS: u64 = 256;

// Stages by their numbers: 0 the interval's line, 1 a requirement, 2 the line of one that is answered, 3 its members.
const STAGES: u64 = 4;

// Directions by their numbers: 0 raise, 1 lower.
const DIRECTIONS: u64 = 2;

// Standings by their numbers: 0 live, 1 to 3 default, by the reason.
const STANDINGS: u64 = 4;

// Is each word within its width? The first is not read, and the figures of an answer but the first and the last are as wide as a word.
fn narrow(words: &[u64]) -> bool
    requires { 16 ≤ length words.now }
    ensures { result ≡ words_fit words.now }
{
    if STAGES <= words[1] {
        return false;
    }
    if OVER_16_BITS <= words[2] {
        return false;
    }
    if OVER_16_BITS <= words[3] {
        return false;
    }
    if OVER_16_BITS <= words[4] {
        return false;
    }
    if OVER_16_BITS <= words[5] {
        return false;
    }
    if DIRECTIONS <= words[6] {
        return false;
    }
    if OVER_8_BITS <= words[7] {
        return false;
    }
    if OVER_16_BITS <= words[8] {
        return false;
    }
    words[15] < STANDINGS
}

// 0 where words hold a cursor, else why they hold none: 12 for fewer than sixteen words, then 11 for a word over its width.
pub(crate) fn cursor_refusal(words: &[u64]) -> u32
    ensures { result ≡ reply_number (cursor_held words.now) }
{
    if words.len() < CURSOR_WORDS {
        return refusal_number(Refusal::TooShort);
    }
    if !narrow(words) {
        return refusal_number(Refusal::WrongState);
    }
    0
}

// 0 is live; else the reason why a default stands in.
fn standing_in(standing: u64) -> Standing
    ensures { result ≡ standing_in standing }
{
    match standing {
        0 => Standing::Live,
        1 => Standing::Default(Reason::UnreliableRegion),
        2 => Standing::Default(Reason::BadUnit),
        _ => Standing::Default(Reason::NoGoodUnit),
    }
}

// The answer whose figures stand in the words.
fn answer_in(words: &[u64]) -> Answer
    requires { Held words.now }
    ensures { result ≡ answer_in words.now }
{
    Answer {
        number: words[5] as u16,
        direction: direction_of(words[6] as u32),
        set: words[7] as u8,
        members: words[8] as u16,
        residual: standing_in(words[15]),
        rcr: words[9],
        pool: words[10],
        used: Charge {
            pool: words[11],
            unplaced: words[13],
        },
        unused: Charge {
            pool: words[12],
            unplaced: words[14],
        },
    }
}

// The cursor that words hold.
pub(crate) fn cursor_in(words: &[u64]) -> Cursor
    requires { Held words.now }
    ensures { cursor_held words.now ≡ taken result }
{
    match words[1] {
        0 => Cursor::Interval,
        1 => Cursor::Requirement(words[2] as u16),
        2 => Cursor::Answered(words[2] as u16, answer_in(words)),
        _ => Cursor::Members(
            words[2] as u16,
            answer_in(words),
            words[3] as u16,
            words[4] as u16,
        ),
    }
}

fn direction_number(direction: Direction) -> u64
    ensures { result ≡ direction_number direction }
{
    match direction {
        Direction::Raise => 0,
        Direction::Lower => 1,
    }
}

fn standing_number(standing: Standing) -> u64
    ensures { result ≡ standing_number standing }
{
    match standing {
        Standing::Live => 0,
        Standing::Default(reason) => match reason {
            Reason::UnreliableRegion => 1,
            Reason::BadUnit => 2,
            Reason::NoGoodUnit => 3,
        },
    }
}

// What stands in the words of a stage that has no answer: zeros.
fn no_answer() -> Answer
    ensures { result ≡ no_answer }
{
    Answer {
        number: 0,
        direction: Direction::Raise,
        set: 0,
        members: 0,
        residual: Standing::Live,
        rcr: 0,
        pool: 0,
        used: Charge {
            pool: 0,
            unplaced: 0,
        },
        unused: Charge {
            pool: 0,
            unplaced: 0,
        },
    }
}

// Words past the sixteen stay.
fn put_words(
    written: u64,
    stage: u64,
    requirement: u16,
    row: u16,
    before: u16,
    given: Answer,
    words: &mut [u64],
)
    requires { 16 ≤ length words.old }
    ensures { (words.new ≡ words_at written stage requirement row before given words.old) × AnswerFits given }
{
    let asked = given.direction;
    let residual = given.residual;
    let direction = direction_number(asked);
    let standing = standing_number(residual);
    let used = given.used;
    let unused = given.unused;
    words[0] = written;
    words[1] = stage;
    words[2] = requirement as u64;
    words[3] = row as u64;
    words[4] = before as u64;
    words[5] = given.number as u64;
    words[6] = direction;
    words[7] = given.set as u64;
    words[8] = given.members as u64;
    words[9] = given.rcr;
    words[10] = given.pool;
    words[11] = used.pool;
    words[12] = unused.pool;
    words[13] = used.unplaced;
    words[14] = unused.unplaced;
    words[15] = standing;
}

// A cursor in its words, behind how many bytes were written.
fn put_cursor(written: u64, next: Cursor, words: &mut [u64])
    requires { 16 ≤ length words.old }
    ensures { (words.new ≡ cursor_words_of written next words.old) × CursorFits next }
{
    match next {
        Cursor::Interval => put_words(written, 0, 0, 0, 0, no_answer(), words),
        Cursor::Requirement(requirement) => put_words(
            written,
            1,
            requirement,
            0,
            0,
            no_answer(),
            words,
        ),
        Cursor::Answered(requirement, given) => put_words(
            written,
            2,
            requirement,
            0,
            0,
            given,
            words,
        ),
        Cursor::Members(requirement, given, row, before) => put_words(
            written,
            3,
            requirement,
            row,
            before,
            given,
            words,
        ),
    }
}

// The number of a piece, with the next cursor in the words where one was written. Where nothing is left, no byte was.
pub(crate) fn tell_listed(listed: Listed, words: &mut [u64]) -> u32
    requires { 16 ≤ length words.old }
    ensures { (result ≡ listed_number listed) × (words.new ≡ listed_after listed words.old) × NextFits listed }
{
    match listed {
        Listed::Written(written, next) => {
            put_cursor(written as u64, next, words);
            0
        }
        Listed::Nothing => {
            words[0] = 0;
            0
        }
        Listed::Refused(refusal) => refusal_number(refusal),
    }
}
