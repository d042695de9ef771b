// The one line on standard output, or why there is none on standard error.
use super::lines::Fault;
use rules::{Located, Refusal, Side, Verdict, locate, refusal_number, refusal_point};
use std::io::Error;

// Standard error.
const STDERR_FILENO: i32 = 2;

// Standard output.
const STDOUT_FILENO: i32 = 1;

fn unwritten() {
    io::write_all(STDERR_FILENO, b"sheet: the line cannot be written\n");
}

// A line of words.
fn say(words: &[u8]) {
    if !io::write_all(STDOUT_FILENO, words) {
        unwritten();
    }
}

// Words and a number, before more of a line; whether they were written.
fn say_before(words: &[u8], number: u64) -> bool {
    if !io::write_all(STDOUT_FILENO, words) {
        unwritten();
        return false;
    }
    if !io::print_decimal(STDOUT_FILENO, number) {
        unwritten();
        return false;
    }
    true
}

// A line of words, a number and words.
pub(crate) fn say_number(words: &[u8], number: u64, rest: &[u8]) {
    if say_before(words, number) {
        say(rest);
    }
}

// Number, place and t, with 0 for one that is not there.
pub(crate) fn refused(said: Located) {
    let refusal = said.refusal;
    if !say_before(b"refused ", refusal_number(refusal) as u64) {
        return;
    }
    if !say_before(b" ", said.place as u64) {
        return;
    }
    say_number(b" ", refusal_point(refusal) as u64, b"\n");
}

// A side whose sum is off.
fn wrong_side(side: Side) {
    match side {
        Side::Positive => say(b"wrong side positive\n"),
        Side::Negative => say(b"wrong side negative\n"),
    }
}

// The verdict, but for a wrong member.
pub(crate) fn tell_verdict(verdict: Verdict) {
    match verdict {
        Verdict::Possible => say(b"possible\n"),
        Verdict::WrongMember(member) => say_number(b"wrong member ", member as u64, b"\n"),
        Verdict::WrongSide(side) => wrong_side(side),
    }
}

// A wrong member by its name too.
pub(crate) fn wrong_unit(member: u16, unit: u16) {
    if say_before(b"wrong member ", member as u64) {
        say_number(b" unit ", unit as u64, b"\n");
    }
}

pub(crate) fn wrong_residual(member: u16) {
    say_number(b"wrong member ", member as u64, b" residual\n");
}

// A book without the requirement that was asked for.
pub(crate) fn no_requirement(number: u64) {
    say_number(b"no requirement ", number, b"\n");
}

pub(crate) fn tell(told: Result<Verdict, Refusal>) {
    match told {
        Ok(verdict) => tell_verdict(verdict),
        Err(refusal) => refused(locate(0, refusal)),
    }
}

// A line that holds no numbers alone.
pub(crate) fn no_line(fault: Fault, place: u64) {
    match fault {
        Fault::NoNumber => say_number(b"text ", place, b"\n"),
        Fault::Unread => {
            io::write_all(STDERR_FILENO, b"sheet: standard input cannot be read\n");
        }
    }
}

// What was to be opened, and why it was not.
pub(crate) fn unopened(rt: &HostRuntime, name: &[u8], error: &Error) {
    io::write_all(STDERR_FILENO, name);
    let _ = eprintln!(rt; ": {error}");
}

pub(crate) fn unread() {
    io::write_all(STDERR_FILENO, b"sheet: the book cannot be read\n");
}

pub(crate) fn usage() {
    io::write_all(
        STDERR_FILENO,
        b"sheet: no arguments, or a book and a requirement's number\n",
    );
}
