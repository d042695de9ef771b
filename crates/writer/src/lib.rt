// writer: a book's bytes from its values, or a numbered refusal (document 02, R-4). Each record is laid out in an array of its own length and handed to the
// reader of such records, so that what is refused here is what the reader refuses; only when all are fine is the book laid out where the caller wants it.
#![tactic(auto)]

mod group;
mod judge;
mod lay;
mod records;
mod words;
pub mod write;

// How many numbers a row has, and how many quality bytes a record.
pub const REGION_ROW: usize = 9;

pub const UNIT_ROW: usize = 12;

pub const REQUIREMENT_ROW: usize = 7;

pub const QUALITY: usize = 10;

// A region's number is a byte.
pub(crate) const REGION_COUNT: u8 = 5;

// The settings as they are handed in: a number that does not fit its field breaks the field's rule.
#[derive(Clone, Copy)]
pub struct SettingsRow {
    pub smoothing: i64,
    pub limit: i64,
    pub percent: i64,
    pub interval: i64,
}
