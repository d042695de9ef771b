// listing: the lines of the listing as text (01, One listing in full), each at the end of a text that is lent. A line is put together from its end, because a
// number's last digit is known first.
#![tactic(auto)]

use rules::Direction;

pub mod lines;
pub mod pieces;

// How long the text is: no line is longer than a requirement's of the longest numbers, 11 + 7 * 21 + 6 bytes and a line feed.
pub const LINE: usize = 165;

// A pool in cents, and what of it nobody gets.
#[derive(Clone, Copy)]
pub struct Pool {
    pub cents: u64,
    pub unplaced: u64,
}

// What a requirement's line says.
#[derive(Clone, Copy)]
pub struct RequirementLine {
    pub number: u16,
    pub direction: Direction,
    pub rcr: u64,
    pub pool: u64,
    pub used: Pool,
    pub unused: Pool,
}

// What a member's line says after its name and standing.
#[derive(Clone, Copy)]
pub struct Amounts {
    pub performance: i64,
    pub factor: i64,
    pub payment: i64,
    pub used: i64,
    pub unused: i64,
}
