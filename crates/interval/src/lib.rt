// interval: the calculator step by step, as the firmware calls it. A book's records are handed in one by one, in its order:
// contents, settings, five frequency records, the units, the requirements. Each call takes the tally, hands it on or back, and writes to
// what is lent only where it refuses nothing. The calls that lend lists stand above, in `frequencies` and `units`; what they promise stands in specs/.
#![tactic(auto)]

use rules::{Located, Refusal};

// What the lent lists hold: of a region 75 measures, 150 sums and ten figures, the interval number first; of a unit a row of eight.
pub const SERIES_LENGTH: usize = 375;

pub const SUMS_EACH: usize = 150;

pub const SUMS_LENGTH: usize = 750;

pub const FIGURES_EACH: usize = 10;

pub const FIGURES_LENGTH: usize = 50;

pub const ROW_EACH: usize = 8;

pub const ROWS_LENGTH: usize = 4096;

// Where a plant's numbers stand in its row; from ROW_DEFAULTS on its six defaults.
pub const RAISE_PERFORMANCE: usize = 0;

pub const LOWER_PERFORMANCE: usize = 1;

pub const ROW_DEFAULTS: usize = 2;

// The home of a row that stands for no member: the next unit has joined its group, which stands in that unit's row.
pub const PASSED_OVER: u8 = 10;

// At a point that is dropped from performance its measure is kept as FM and so much more: twice the limit of FM, and 1.
pub const MARK: i32 = 10_000_001;

// A unit's deviation is at most so much either way.
pub const DEVIATION_LIMIT: u64 = 15_000_000;

pub mod contents;
pub mod lent;
pub mod requirement;
pub mod settings;
pub mod sizes;
pub mod steps;
pub mod turns;

// How far the book is. `records` counts what was taken after the table of contents: the settings, five frequency records, the
// units, the requirements. `least` is the least number that the next unit or requirement may have.
#[derive(Clone, Copy)]
pub struct Tally {
    pub units: u16,
    pub requirements: u16,
    pub records: u16,
    pub least: u32,
    pub smoothing: u16,
    pub limit: u8,
    pub percent: u8,
    pub interval: u32,
}

// The tally after a call: one record further, or as it came.
#[derive(Clone, Copy)]
pub struct Step {
    pub tally: Tally,
    pub taking: Result<(), Located>,
}
