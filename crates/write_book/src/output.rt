// The book's bytes, or the one line that says why there are none.
ghost use Rattle.std.specs.Prelude.{◌≤◌};
ghost use Rattle.writer.specs.Promise.{WithinRoom};

use super::keeping::BOOK;
use printing::print_refused;
use rules::Located;

// Standard error.
const STDERR_FILENO: i32 = 2;

// Standard output.
const STDOUT_FILENO: i32 = 1;

fn unwritten() {
    io::write_all(STDERR_FILENO, b"write_book: the book cannot be written\n");
}

fn write(bytes: &[u8]) -> bool {
    if io::write_all(STDOUT_FILENO, bytes) {
        return true;
    }
    unwritten();
    false
}

fn print_book(length: usize, book: &[u8; BOOK])
    requires { length ≤ 193_532 }
{
    let whole = &book[..];
    write(&whole[0..length]);
}

fn refused(said: Located) {
    if !print_refused(said) {
        unwritten();
    }
}

pub(crate) fn tell(written: Result<u32, Located>, book: &[u8; BOOK])
    requires { WithinRoom 193_532 written }
{
    match written {
        Ok(length) => print_book(length as usize, book),
        Err(said) => refused(said),
    }
}

// A word that may not stand where it stands, or a text that ends too early.
pub(crate) fn text_fault(line: u64) {
    if !write(b"text ") {
        return;
    }
    if !io::print_decimal(STDOUT_FILENO, line) {
        unwritten();
        return;
    }
    write(b"\n");
}

pub(crate) fn reading_failed() {
    io::write_all(
        STDERR_FILENO,
        b"write_book: standard input cannot be read\n",
    );
}
