// book: records from bytes, or a numbered refusal (document 01, The book). One reader a record: it is handed the part of the
// book that starts at its record, relies on no test of its caller's, and on a refusal writes nothing.
#![tactic(auto)]

use rules::{Direction, Kind, Refusal};

pub mod contents;
pub mod defaults;
mod fields;
pub mod frequency;
mod inside;
pub mod requirement;
pub mod settings;
pub mod unit;

// The points of an interval.
pub const POINTS: usize = 75;

pub const REGIONS: usize = 5;

// How many frequency records a book has: one a region.
pub const FREQUENCIES: u16 = 5;

// The bytes of a record.
pub const CONTENTS: usize = 56;

pub const SETTINGS: usize = 8;

pub const FREQUENCY: usize = 368;

pub const UNIT: usize = 372;

pub const REQUIREMENT: usize = 24;

// Where the bodies of the regions and of the units start.
pub const REGIONS_START: usize = 64;

pub const UNITS_START: usize = 1904;

// The defaults of a record: three a direction.
pub const DEFAULTS: usize = 6;

// Where a requirement's record holds its region set.
pub const SET: usize = 2;

// What the table of contents leaves open.
#[derive(Clone, Copy)]
pub struct Counts {
    pub units: u16,
    pub requirements: u16,
}

#[derive(Clone, Copy)]
pub struct SettingsFields {
    pub smoothing: u16,
    pub limit: u8,
    pub percent: u8,
    pub interval: u32,
}

// The three defaults of one direction.
#[derive(Clone, Copy)]
pub struct Three {
    pub payment: i64,
    pub used: i64,
    pub unused: i64,
}

// A frequency record without its points, which are read where they stand.
#[derive(Clone, Copy)]
pub struct FrequencyFields {
    pub separation: bool,
    pub before: i32,
    pub generation: u32,
    pub raise: Three,
    pub lower: Three,
}

// A unit record without its readings; `good` says that none of them is bad.
#[derive(Clone, Copy)]
pub struct UnitFields {
    pub number: u16,
    pub region: u8,
    pub kind: Kind,
    pub start: i32,
    pub end: i32,
    pub raise: Three,
    pub lower: Three,
    pub group: u16,
    pub good: bool,
}

#[derive(Clone, Copy)]
pub struct RequirementFields {
    pub number: u16,
    pub set: u8,
    pub direction: Direction,
    pub price: u32,
    pub cost: u64,
    pub enabled: u32,
    pub used: u32,
}
