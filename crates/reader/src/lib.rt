// reader: the reading of a book as a step by value. A caller who has the bytes asks where the next ones go, puts there what came, and tells how many did; each
// record goes to the call whose turn it is as soon as it is there. Nothing here reads: where bytes come from is the caller's.
#![tactic(auto)]

use interval::Tally;
use rules::Located;

pub mod step;
pub mod turn;

// What is being read, with how many of its bytes have come: the table of contents, or the record whose turn it is by the tally.
#[derive(Clone, Copy)]
pub enum Reading {
    Contents(usize),
    Record(Tally, usize),
}

// Where the next bytes go.
#[derive(Clone, Copy)]
pub struct Wanted {
    pub from: usize,
    pub to: usize,
}

// The reading goes on; or the book was taken to its end; or refused.
#[derive(Clone, Copy)]
pub enum Came {
    Wants(Reading),
    Taken(Tally),
    Refused(Located),
}

// Where the bytes of what is being read start and end in a place that is long enough, and how many have come.
#[derive(Clone, Copy)]
pub(crate) struct Span {
    pub(crate) start: usize,
    pub(crate) end: usize,
    pub(crate) got: usize,
}
