// trend: a book on standard input, and what the display draws of each of its units (document 02, R-2): a line with its lowest, highest and last deviation in MW
// and a strip of 75 characters; with the one argument `bits` the strip as the box hands it over, every float as its bits. A book that `settle` refuses is
// refused alike, with the one line `refused` and number, place and t. What goes wrong with arguments, reading or writing is told on standard error.
#![tactic(auto)]

mod bits;
mod numbers;
mod roster;
mod text;

use intake::arguments::{argument, argument_count};
use intake::held::{HELD, Outcome, take_input};
use printing::print_refused;
use roster::{Form, print_units};
use std::io::Stdin;

// Standard error.
const STDERR_FILENO: i32 = 2;

// The one argument there may be is `bits`; a longer one has no place, and is none that is known.
fn what_is_asked(rt: &HostRuntime) -> Option<Form> {
    let arguments = argument_count(rt);
    if arguments == 1 {
        return Some(Form::Text);
    }
    if arguments != 2 {
        return None;
    }
    let mut word = [0u8; 4];
    let count = argument(rt, 1, &mut word);
    if check::same(&word[..count], b"bits") {
        return Some(Form::Bits);
    }
    None
}

fn reading_failed() {
    io::write_all(STDERR_FILENO, b"trend: standard input cannot be read\n");
}

// Was all of it written? After a writing that takes nothing no more is written.
fn end(written: bool) {
    if !written {
        io::write_all(STDERR_FILENO, b"trend: the text cannot be written\n");
    }
}

fn usage() {
    io::write_all(STDERR_FILENO, b"trend: the one argument is bits\n");
}

// The buffers, in bytes: the book 193,137, a line of text 1,024, a unit's deviations 600 or its points 300, and what the calls are lent while the book is
// taken, 43,828.
fn tell(form: Form, input: &mut Stdin) {
    let mut book = [0u8; HELD];
    let outcome = take_input(input, &mut book);
    match outcome {
        Outcome::Taken(tally) => end(print_units(form, tally.units, &book)),
        Outcome::Refused(said) => end(print_refused(said)),
        Outcome::Failed => reading_failed(),
    }
}

fn main(rt: HostRuntime) {
    let mut input = rt.stdin();
    match what_is_asked(&rt) {
        Some(form) => tell(form, &mut input),
        None => usage(),
    }
}
