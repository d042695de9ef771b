// watch: the books that the arguments name, on a panel of four lines (document 02, R-13). Keys come on standard input, a byte each: n next, p previous, h home,
// r and R the next and the previous requirement, b the next book, q the end; other bytes do nothing. The first page is shown before any key, and a screen
// after each. With `live` as the first argument each screen clears the terminal first. Without a book one line is said on standard error.
#![tactic(auto)]

mod books;
mod commands;
mod keys;
mod requirements;
mod screen;

use books::watch_book;
use commands::Turn;
use intake::arguments::{argument, argument_count};
use rules::Page;
use std::io::Stdin;

// Standard error.
const STDERR_FILENO: i32 = 2;

// Which book is on show, from 1; whether one is named behind it; and whether the screens are for a terminal.
#[derive(Clone, Copy)]
pub(crate) struct Place {
    pub(crate) book: u32,
    pub(crate) more: bool,
    pub(crate) live: bool,
}

// The page record when what was on show is left, and where it is left for.
#[derive(Clone, Copy)]
pub(crate) struct Left {
    pub(crate) page: Page,
    pub(crate) turn: Turn,
}

// Is the first argument `live`? A longer one has no place here, so that nothing is there of it.
fn is_live(rt: &HostRuntime) -> bool {
    let mut word = [0u8; 4];
    if argument(rt, 1, &mut word) != 4 {
        return false;
    }
    if word[0] != b'l' {
        return false;
    }
    if word[1] != b'i' {
        return false;
    }
    if word[2] != b'v' {
        return false;
    }
    word[3] == b'e'
}

// The argument that names the first book.
fn first_of(live: bool) -> usize {
    if live {
        return 2;
    }
    1
}

// One book after the other. A run has no more books than are counted here: it says that the loop ends.
fn watch_books(rt: &HostRuntime, input: &mut Stdin, first: usize, arguments: usize, live: bool) {
    let mut page = Page {
        book: 0,
        requirement: 0,
        page: 0,
    };
    let mut argument = first;
    for before in 0..u32::MAX {
        if arguments <= argument {
            return;
        }
        let place = Place {
            book: before + 1,
            more: argument + 1 < arguments,
            live: live,
        };
        let left = watch_book(rt, input, argument, place, page);
        let turn = left.turn;
        let Turn::Book = turn else {
            return;
        };
        let kept = left.page;
        page = kept;
        argument += 1;
    }
}

fn main(rt: HostRuntime) {
    let mut input = rt.stdin();
    let live = is_live(&rt);
    let first = first_of(live);
    let arguments = argument_count(&rt);
    if arguments <= first {
        io::write_all(
            STDERR_FILENO,
            b"watch: name the books, behind `live` for a terminal\n",
        );
        return;
    }
    watch_books(&rt, &mut input, first, arguments, live);
}
