// little: numbers in bytes, the lowest byte first (document 01, The book). Every reader takes any slice and any place: a byte past
// the end counts as 0. Where a record's length has been tested before, each compiles to one load.
#![tactic(auto)]

ghost use Rattle.little.specs.Numbers.{Unsigned, Turned};

pub fn u8_at(bytes: &[u8], place: usize) -> u8
    ensures { Unsigned 1 place bytes.now result }
{
    if bytes.len() <= place {
        return 0;
    }
    bytes[place]
}

pub fn u16_at(bytes: &[u8], place: usize) -> u16
    ensures { Unsigned 2 place bytes.now result }
{
    let low = u8_at(bytes, place) as u16;
    if bytes.len() <= place {
        return low;
    }
    low + u8_at(bytes, place + 1) as u16 * 0x100
}

pub fn u32_at(bytes: &[u8], place: usize) -> u32
    ensures { Unsigned 4 place bytes.now result }
{
    let low = u16_at(bytes, place) as u32;
    if bytes.len() <= place {
        return low;
    }
    if bytes.len() - place <= 2 {
        return low;
    }
    low + u16_at(bytes, place + 2) as u32 * 0x1_0000
}

pub fn u64_at(bytes: &[u8], place: usize) -> u64
    ensures { Unsigned 8 place bytes.now result }
{
    let low = u32_at(bytes, place) as u64;
    if bytes.len() <= place {
        return low;
    }
    if bytes.len() - place <= 4 {
        return low;
    }
    low + u32_at(bytes, place + 4) as u64 * 0x1_0000_0000
}

// No cast changes a number, so the upper half is turned by hand; this compiles to nothing.
pub fn signed_four(x: u32) -> i32
    ensures { Turned 4 x result }
{
    if x < 0x8000_0000 {
        x as i32
    } else {
        -((0xffff_ffff - x) as i32) - 1
    }
}

pub fn signed_eight(x: u64) -> i64
    ensures { Turned 8 x result }
{
    if x < 0x8000_0000_0000_0000 {
        x as i64
    } else {
        -((0xffff_ffff_ffff_ffff - x) as i64) - 1
    }
}
