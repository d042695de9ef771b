// report_rows: rows of a performance report on standard input, each as a line of words on standard output (document 02, R-11): interval, `unit` and its number
// or `residual` and the region's name, raise in billionths of a MWHz, its type, lower, its type, version. At the first row that is refused `refused 18`, the
// row's number and its first wrong column, and no more. What goes wrong with reading or writing is told on standard error.
#![tactic(auto)]

mod reading;
mod words;

use reading::{Ending, read_rows};

// Standard error.
const STDERR_FILENO: i32 = 2;

fn reading_failed() {
    io::write_all(
        STDERR_FILENO,
        b"report_rows: standard input cannot be read\n",
    );
}

fn writing_failed() {
    io::write_all(STDERR_FILENO, b"report_rows: the text cannot be written\n");
}

// The buffers, in bytes: a piece of the input 4,096, a row 107, a line of words 1,024, the digits of a number 20 (`printing`).
fn main(rt: HostRuntime) {
    let mut input = rt.stdin();
    match read_rows(&mut input) {
        Ending::Told => {}
        Ending::Unread => reading_failed(),
        Ending::Unwritten => writing_failed(),
    }
}
