// answer: a requirement's answer, from what the calls of `interval` keep to the cents (document 01, Members, Factors, RCR and Cents). It can
// be asked for again, in any order, once every unit is in; nothing but the five lent columns is written. Three doors: `call::answer`,
// `roster::member`, which says who stands in a row, and `report::report`, which gives a row of the performance report (document 02, R-11). Each tests what is
// lent to it, once; past it the functions ask for what was tested.
#![tactic(auto)]

use rules::{Direction, Refusal, ReportRow, Standing};

pub mod call;
mod charges;
mod counts;
mod figures;
mod homes;
pub mod lent;
mod made;
mod points;
mod pools;
mod rcr;
mod regions;
pub mod report;
mod residual;
pub mod roster;
mod rows;
mod series;
mod shares;
mod tested;
mod units;
mod values;
mod worked;

// Where a region's numbers stand among its ten figures, past the interval number; from DEFAULTS on its residual's six defaults.
const GENERATION: usize = 1;

const RAISE_RELIABLE: usize = 2;

const LOWER_RELIABLE: usize = 3;

const DEFAULTS: usize = 4;

// Which number of a member a share goes by.
#[derive(Clone, Copy)]
pub(crate) enum Field {
    Payment,
    Used,
    Unused,
}

// A member: its standing, its performance or the default that stands in, for payment and for use, and its unused default.
#[derive(Clone, Copy)]
pub(crate) struct Member {
    pub(crate) standing: Standing,
    pub(crate) payment: i64,
    pub(crate) used: i64,
    pub(crate) unused: i64,
}

// Who stands in a row: a member's number and standing; no member, as in a row that is passed over or of another region; or the refusal.
#[derive(Clone, Copy)]
pub enum Row {
    Unit(u16, Standing),
    Other,
    Refused(Refusal),
}

// A pool that is charged, and how much of it is unplaced.
#[derive(Clone, Copy)]
pub struct Charge {
    pub pool: u64,
    pub unplaced: u64,
}

// A requirement's figures, with how many members it has and how its residual stands. The members' numbers are in the columns.
#[derive(Clone, Copy)]
pub struct Answer {
    pub number: u16,
    pub direction: Direction,
    pub set: u8,
    pub members: u16,
    pub residual: Standing,
    pub rcr: u64,
    pub pool: u64,
    pub used: Charge,
    pub unused: Charge,
}
