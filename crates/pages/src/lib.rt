// pages: what the four-line display shows (document 02, R-13), drawn from plain numbers into a lent text: four lines of 20, 80 bytes in all, filled with
// spaces; bytes past the 80th stay. A figure in its 16 places, a refusal's phrase, and the pages: a requirement's first, a member's, a refusal's. Refuses 12
// for a text that is too short, with nothing written.
#![tactic(auto)]

mod amounts;
pub mod figures;
mod lines;
pub mod page;
pub mod phrases;
mod pieces;

// How many bytes the text of a page has, one of its lines, and a figure behind its label.
pub const PAGE: usize = 80;

pub const LINE: usize = 20;

pub const FIGURE: usize = 16;

// A number by its sign and its size.
#[derive(Clone, Copy)]
pub(crate) struct Amount {
    pub(crate) below: bool,
    pub(crate) size: u64,
}

// Whose a page is: a member's, by its unit number (a group's by its primary's), or the residual's.
#[derive(Clone, Copy)]
pub enum Who {
    Unit(u16),
    Residual,
}
