// printing: what every program that prints words and numbers does alike. A line of text is put together in a lent place and written whole to standard output.
// Past the place's end nothing is put: no line is that long.
#![tactic(auto)]

ghost use Rattle.std.specs.Prelude.{◌≡◌, ◌≤◌};
ghost use Rattle.printing.specs.Lines.{line, with_byte, with_bytes, with_word, with_number, with_below};

use listing::LINE;
use listing::lines::refused_line;
use rules::Located;

// Standard output.
const STDOUT_FILENO: i32 = 1;

// The longest lines are those of 75 words of up to 8 signs, each after a blank: no more than 675 bytes.
pub const TEXT: usize = 1024;

pub fn put_byte(byte: u8, at: usize, text: &mut [u8; TEXT]) -> usize
    ensures text_after { line result text.new ≡ with_byte byte (line at text.old) }
    ensures upper_bound { result ≤ 1024 }
{
    if TEXT <= at {
        return TEXT;
    }
    text[at] = byte;
    at + 1
}

pub fn put_bytes(bytes: &[u8], at: usize, text: &mut [u8; TEXT]) -> usize
    ensures { line result text.new ≡ with_bytes bytes.now (line at text.old) }
{
    let mut to = at;
    for &byte in bytes {
        to = put_byte(byte, to, text);
    }
    to
}

// A word; a blank goes before each but a line's first. The answer is where the line now ends.
pub fn put_word(word: &[u8], at: usize, text: &mut [u8; TEXT]) -> usize
    ensures { line result text.new ≡ with_word word.now (line at text.old) }
{
    let mut to = at;
    if 0 < at {
        to = put_byte(b' ', at, text);
    }
    put_bytes(word, to, text)
}

pub fn put_number(number: u64, at: usize, text: &mut [u8; TEXT]) -> usize
    ensures { line result text.new ≡ with_number number (line at text.old) }
{
    let mut digits = [0u8; 20];
    let count = io::decimal(number, &mut digits);
    put_word(&digits[..count], at, text)
}

// A number after a minus.
pub fn put_below(size: u64, at: usize, text: &mut [u8; TEXT]) -> usize
    ensures { line result text.new ≡ with_below size (line at text.old) }
{
    let mut digits = [0u8; 20];
    let count = io::decimal(size, &mut digits);
    let to = put_word(b"-", at, text);
    put_bytes(&digits[..count], to, text)
}

// Writes the line that ends there; whether it was written.
pub fn print(at: usize, text: &mut [u8; TEXT]) -> bool
    ensures { text.new ≡ (with_byte 10 (line at text.old)).bytes }
{
    let end = put_byte(b'\n', at, text);
    print_to(end, text)
}

fn print_to(end: usize, text: &[u8; TEXT]) -> bool
    requires { end ≤ 1024 }
{
    let whole = &text[..];
    io::write_all(STDOUT_FILENO, &whole[0..end])
}

// The line that starts there and ends with the text.
fn print_from(start: usize, text: &[u8; LINE]) -> bool
    requires { start ≤ 165 }
{
    let whole = &text[..];
    io::write_all(STDOUT_FILENO, &whole[start..])
}

// The line of a refusal, with number, place and t; whether it was written.
pub fn print_refused(said: Located) -> bool {
    let mut text = [0u8; LINE];
    let start = refused_line(said, &mut text);
    print_from(start, &text)
}
