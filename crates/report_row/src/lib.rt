// report_row: a row of the performance report as text, and such a text read back (document 02, R-11). A row is put together from its end, as a line of the
// listing is; a column that is read is right if it is what the writer makes of what it says, so reading writes it again and compares.
#![tactic(auto)]

mod calendar;
mod columns;
mod columns_in;
mod pieces;
pub mod read;
mod said;
pub mod write;

// The longest row: a residual's, of the longest performances and types.
pub const ROW_MOST: usize = 106;

// The last interval that ends before the year 10000.
pub const LAST_INTERVAL: u32 = 841_518_719;
