// The words that a program was called with, from 1; the program's own name is at 0. And the file that one of them names.
ghost use Rattle.std.specs.Prelude.{◌≤◌, length};

use std::env::{Env, FillError};
use std::fs::File;
use std::io;
use std::rt::Files;
use std::str::from_utf8;

// Into a place: how long the word is, and nothing where there is none or where it has no room.
pub fn argument<R: Env>(rt: &R, at: usize, place: &mut [u8]) -> usize
    ensures { result ≤ length place.new }
{
    match rt.arg(at, place) {
        Ok(count) => count,
        Err(_) => 0,
    }
}

fn is_there<R: Env>(rt: &R, at: usize) -> bool {
    let mut byte = [0u8; 1];
    let found = rt.arg(at, &mut byte);
    match found {
        Ok(_) => true,
        Err(FillError::TooLong) => true,
        Err(FillError::NotPresent) => false,
    }
}

// How many words there are, the program's name among them.
pub fn argument_count<R: Env>(rt: &R) -> usize {
    for at in 0..usize::MAX {
        if !is_there(rt, at) {
            return at;
        }
    }
    usize::MAX
}

// The file of that name, for reading. A name that is no text is refused as a file that is not there would be.
pub fn open_book<R: Files>(rt: &R, name: &[u8]) -> io::Result<R::File> {
    let Ok(text) = from_utf8(name) else {
        return Err(io::Error::from(io::ErrorKind::NotFound));
    };
    File::open(rt, text)
}
