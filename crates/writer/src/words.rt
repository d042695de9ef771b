// A number that is handed in, as its field holds it: 0 where it does not fit, and whether it does.
ghost use Rattle.std.specs.Prelude.{◌≡◌, cond, ◌^◌, nat_abs};
ghost use Rattle.rules.specs.Laid.{below, halved, turned};

// Is it from 0 up to `end`, which it does not reach?
pub(crate) fn below(x: i64, end: u64) -> bool
    ensures { result ≡ below end x }
{
    if x < 0 {
        return false;
    }
    (x as u64) < end
}

// Does it fit eight bytes without a sign? No number of 64 bits is too large for them.
pub(crate) fn natural(x: i64) -> bool
    ensures { result ≡ below (2 ^ 64) x }
{
    0 <= x
}

// Does it fit four bytes with a sign?
pub(crate) fn halved(x: i64) -> bool
    ensures { result ≡ halved (2 ^ 31) x }
{
    if x < -0x8000_0000 {
        return false;
    }
    x < 0x8000_0000
}

pub(crate) fn one_byte(x: i64) -> u8
    ensures { result ≡ cond (below (2 ^ 8) x) (nat_abs x) 0 }
{
    if !below(x, 0x100) {
        return 0;
    }
    x as u8
}

pub(crate) fn two_bytes(x: i64) -> u16
    ensures { result ≡ cond (below (2 ^ 16) x) (nat_abs x) 0 }
{
    if !below(x, 0x1_0000) {
        return 0;
    }
    x as u16
}

pub(crate) fn four_bytes(x: i64) -> u32
    ensures { result ≡ cond (below (2 ^ 32) x) (nat_abs x) 0 }
{
    if !below(x, 0x1_0000_0000) {
        return 0;
    }
    x as u32
}

pub(crate) fn eight_bytes(x: i64) -> u64
    ensures { result ≡ cond (below (2 ^ 64) x) (nat_abs x) 0 }
{
    if !natural(x) {
        return 0;
    }
    x as u64
}

// No cast changes a number, so what is below zero is turned by hand; this compiles to nothing.
pub(crate) fn turned_four(x: i32) -> u32
    ensures { result ≡ turned (2 ^ 32) x }
{
    if x < 0 {
        0xffff_ffff - (-(x + 1)) as u32
    } else {
        x as u32
    }
}

pub(crate) fn turned_eight(x: i64) -> u64
    ensures { result ≡ turned (2 ^ 64) x }
{
    if x < 0 {
        0xffff_ffff_ffff_ffff - (-(x + 1)) as u64
    } else {
        x as u64
    }
}

pub(crate) fn signed_four(x: i64) -> u32
    ensures { result ≡ cond (halved (2 ^ 31) x) (turned (2 ^ 32) x) 0 }
{
    if !halved(x) {
        return 0;
    }
    turned_four(x as i32)
}
