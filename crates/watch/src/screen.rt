// A page on standard output: four lines of 20, each with its line feed, and before them on a terminal what clears it. A screen is written at once.
ghost use Rattle.std.specs.Prelude.{◌<◌, ◌≤◌};

use pages::{LINE, PAGE};

// Standard output.
const STDOUT_FILENO: i32 = 1;

// ESC [ 2 J ESC [ H, and the 84 bytes behind it.
const CLEARING: usize = 7;

const SCREEN: usize = 91;

// A line of the page, in its place on the screen.
fn put_line(line: usize, text: &[u8; PAGE], screen: &mut [u8; SCREEN])
    requires { line < 4 }
{
    let from = LINE * line;
    let to = CLEARING + (LINE + 1) * line;
    for i in 0..LINE {
        screen[to + i] = text[from + i];
    }
}

fn put_clearing(screen: &mut [u8; SCREEN]) {
    screen[0] = b'\x1b';
    screen[1] = b'[';
    screen[2] = b'2';
    screen[3] = b'J';
    screen[4] = b'\x1b';
    screen[5] = b'[';
    screen[6] = b'H';
}

// Where a screen starts: with what clears the terminal, or behind it.
fn start_of(live: bool) -> usize
    ensures { result ≤ 7 }
{
    if live {
        return 0;
    }
    CLEARING
}

// The whole screen of a page.
fn lay_out(text: &[u8; PAGE], screen: &mut [u8; SCREEN]) {
    put_clearing(screen);
    put_line(0, text, screen);
    put_line(1, text, screen);
    put_line(2, text, screen);
    put_line(3, text, screen);
}

fn write_screen(live: bool, screen: &[u8; SCREEN]) -> bool {
    let start = start_of(live);
    let whole = &screen[..];
    io::write_all(STDOUT_FILENO, &whole[start..])
}

// Shows a page; whether it was written.
pub(crate) fn show(live: bool, text: &[u8; PAGE]) -> bool {
    let mut screen = [b'\n'; SCREEN];
    lay_out(text, &mut screen);
    write_screen(live, &screen)
}
