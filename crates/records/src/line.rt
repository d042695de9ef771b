// Lines of the input, byte by byte: the kind's first letter, the context's digits, the record's bytes.
use super::{read, say};

// How far a line has come: 0 in the kind, 1 in the context, 2 in the bytes, of which `count` are there and perhaps the upper half
// of one more.
#[derive(Clone, Copy)]
struct Line {
    part: u8,
    kind: u8,
    context: u32,
    count: usize,
    half: bool,
    upper: u8,
}

#[derive(Clone, Copy)]
struct Passed {
    line: Line,
    more: bool,
}

fn fresh() -> Line {
    Line {
        part: 0,
        kind: 0,
        context: 0,
        count: 0,
        half: false,
        upper: 0,
    }
}

fn answer(line: Line, bytes: &[u8]) {
    let kind = line.kind;
    match kind {
        b'c' => read::contents(bytes),
        b's' => read::settings(bytes),
        b'f' => read::frequency(bytes, line.context),
        b'u' => read::unit(bytes, line.context),
        b'r' => read::requirement(bytes, line.context, false),
        b'l' => read::requirement(bytes, line.context, true),
        b'#' => say::end(),
        _ => {}
    }
}

fn finish(line: Line, bytes: &[u8]) {
    let count = line.count;
    if count <= bytes.len() {
        answer(line, &bytes[..count]);
    }
}

// The value of a hexadecimal digit, in lower case; anything else counts as 0.
fn digit(c: u8) -> u8 {
    if c < b'0' {
        return 0;
    }
    if c <= b'9' {
        return c - b'0';
    }
    if c < b'a' {
        return 0;
    }
    (c - b'a') % 6 + 10
}

fn in_kind(line: Line, c: u8) -> Line {
    let mut next = line;
    if line.kind == 0 {
        next.kind = c;
        return next;
    }
    if line.kind == b'#' {
        say::byte(c);
        return next;
    }
    if c == b' ' {
        next.part = 1;
    }
    next
}

fn in_context(line: Line, c: u8) -> Line {
    let mut next = line;
    if c == b' ' {
        next.part = 2;
        return next;
    }
    if c == b'-' {
        return next;
    }
    next.context = line.context % 100_000_000 * 10 + (digit(c) % 10) as u32;
    next
}

fn store(bytes: &mut [u8], at: usize, x: u8) {
    if at < bytes.len() {
        bytes[at] = x;
    }
}

fn in_bytes(line: Line, c: u8, bytes: &mut [u8]) -> Line {
    let mut next = line;
    if line.half {
        let upper = line.upper;
        store(bytes, line.count, upper % 16 * 16 + digit(c) % 16);
        next.half = false;
        next.count = line.count % 0x1_0000_0000 + 1;
        return next;
    }
    next.upper = digit(c);
    next.half = true;
    next
}

fn step(line: Line, c: u8, bytes: &mut [u8]) -> Line {
    if c == b'\n' {
        finish(line, bytes);
        return fresh();
    }
    let part = line.part;
    match part {
        0 => in_kind(line, c),
        1 => in_context(line, c),
        _ => in_bytes(line, c, bytes),
    }
}

fn pass(start: Line, text: &[u8], bytes: &mut [u8]) -> Line {
    let mut line = start;
    for &byte in text {
        line = step(line, byte, bytes);
    }
    line
}

fn turn(line: Line, bytes: &mut [u8]) -> Passed {
    let mut text = io::buffer();
    let n = io::read_full(0, &mut text);
    let next = pass(line, &text[..n], bytes);
    Passed {
        line: next,
        more: n > 0,
    }
}

// No input uses up so many turns.
pub(crate) fn all(bytes: &mut [u8]) {
    let mut line = fresh();
    for _ in 0..u64::MAX {
        let t = turn(line, bytes);
        if !t.more {
            return;
        }
        line = t.line;
    }
}
