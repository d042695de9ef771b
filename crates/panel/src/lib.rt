// panel: the four-line display of a taken book (document 02, R-13), above the calculator's library. `keys` moves the page record; `press` is a key press: it
// moves the page and draws it, from what the calls have kept of the book and what `answer` has left of the requirement. Nothing is kept between presses but
// the record, which the caller holds.
#![tactic(auto)]

pub mod keys;
mod members;
pub mod press;
mod tested;
mod who;

use rules::{Page, Refusal, Standing};

// What a press shows of an answer's reply: how many members the requirement has, its RCR, its pool, and how its residual stands. No requirement has no members.
#[derive(Clone, Copy)]
pub struct Shown {
    pub members: u16,
    pub rcr: u64,
    pub pool: u64,
    pub residual: Standing,
}
