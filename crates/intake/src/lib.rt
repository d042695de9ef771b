// intake: what every program that reads books does alike. A book comes from a file, however few bytes each reading brings, to where they are wanted; or it is
// held whole in memory, and each record goes from there to the call whose turn it is.
#![tactic(auto)]

pub mod arguments;
pub mod held;
pub mod input;
pub mod whole;

pub const UNITS: usize = 512;

// One more than the units, for the residual.
pub const MEMBERS: usize = 513;

// All requirements of 24 bytes, and the byte that may follow the last. The records before them are read into their place.
pub const RECORDS: usize = 769;

// How many bytes came, fewer than asked for where the input has ended; or the reading failed.
#[derive(Clone, Copy)]
pub struct Filled {
    pub count: usize,
    pub failed: bool,
}
