// lister: the listing of a book that was taken, piece by piece, into a text that is lent (01, One listing in full). Each call is handed a cursor, writes as
// many whole lines as have room and hands the next cursor back. The columns hold the answer whose members are listed, so that no requirement is worked out
// twice.
#![tactic(auto)]

use answer::Answer;
use rules::Refusal;

mod least;
pub mod list;
mod members;
mod said;
mod turn;

// What comes next: the interval's line, where a listing starts; a requirement, from 0, that is yet to be answered; the line of one that is answered, by its
// figures; or its members from a row of the roster on, with how many members stand before it.
#[derive(Clone, Copy)]
pub enum Cursor {
    Interval,
    Requirement(u16),
    Answered(u16, Answer),
    Members(u16, Answer, u16, u16),
}

// So many bytes of whole lines, and what comes next; or nothing is left; or nothing is written.
#[derive(Clone, Copy)]
pub enum Listed {
    Written(usize, Cursor),
    Nothing,
    Refused(Refusal),
}

// Why a listing does not go on: a line has no room, nothing is left, or it is refused.
#[derive(Clone, Copy)]
pub(crate) enum Halt {
    On,
    Full,
    Ended,
    Refused(Refusal),
}

// How far a listing has come: the cursor, and the bytes of text before it.
#[derive(Clone, Copy)]
pub(crate) struct Step {
    pub(crate) at: Cursor,
    pub(crate) done: usize,
    pub(crate) halt: Halt,
}

// The same among the members of a requirement.
#[derive(Clone, Copy)]
pub(crate) struct Walked {
    pub(crate) row: u16,
    pub(crate) place: u16,
    pub(crate) done: usize,
    pub(crate) halt: Halt,
}
