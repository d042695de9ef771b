// Words and numbers of an answer.
ghost use Rattle.std.specs.Prelude.{pos, negsuc, ◌<ℤ◌, ◌≤ℤ◌};

use rules::Refusal;

// Standard output.
const STDOUT_FILENO: i32 = 1;

pub(crate) fn taken() {
    io::write_all(STDOUT_FILENO, &[b't', b'a', b'k', b'e', b'n']);
}

pub(crate) fn unsigned(x: u64) {
    io::write_all(STDOUT_FILENO, &[b' ']);
    io::print_decimal(STDOUT_FILENO, x);
}

fn size(x: i64) -> u64
    requires { (negsuc 999999999999999999 ≤ℤ x) × (x <ℤ pos 0) }
{
    (-x) as u64
}

// No field of a record is further from zero than 10^18.
pub(crate) fn signed(x: i64) {
    if x < -1_000_000_000_000_000_000 {
        return;
    }
    if x < 0 {
        io::write_all(STDOUT_FILENO, &[b' ', b'-']);
        io::print_decimal(STDOUT_FILENO, size(x));
    } else {
        unsigned(x as u64);
    }
}

pub(crate) fn byte(c: u8) {
    io::write_all(STDOUT_FILENO, &[c]);
}

pub(crate) fn flag(x: bool) {
    if x {
        unsigned(1);
    } else {
        unsigned(0);
    }
}

pub(crate) fn end() {
    io::write_all(STDOUT_FILENO, &[b'\n']);
}

// The number, and t: a lone record has no place.
pub(crate) fn refused(r: Refusal) {
    io::write_all(STDOUT_FILENO, &[b'r', b'e', b'f', b'u', b's', b'e', b'd']);
    unsigned(rules::refusal_number(r) as u64);
    unsigned(rules::refusal_point(r) as u64);
    end();
}
