// read_book: a book on standard input, as text on standard output (document 02, R-4): what `write_book` makes the same book of. A book that `settle` refuses is
// refused alike, with the one line `refused` and number, place and t. What goes wrong with reading or writing is told on standard error.
#![tactic(auto)]

mod lines;

use intake::held::{HELD, Outcome, take_input};
use printing::print_refused;

// Standard error.
const STDERR_FILENO: i32 = 2;

fn reading_failed() {
    io::write_all(STDERR_FILENO, b"read_book: standard input cannot be read\n");
}

// Was all of it written? After a writing that takes nothing no more is written.
fn end(written: bool) {
    if !written {
        io::write_all(STDERR_FILENO, b"read_book: the text cannot be written\n");
    }
}

// The buffers, in bytes: the book 193,137, a line of text 1,024, and what the calls are lent while the book is taken, 43,828.
fn main(rt: HostRuntime) {
    let mut input = rt.stdin();
    let mut book = [0u8; HELD];
    let outcome = take_input(&mut input, &mut book);
    match outcome {
        Outcome::Taken(tally) => end(lines::print_book(tally.units, tally.requirements, &book)),
        Outcome::Refused(said) => end(print_refused(said)),
        Outcome::Failed => reading_failed(),
    }
}
