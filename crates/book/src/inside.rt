// Numbers inside a record whose length has been tested: the same as little's at a place whose bytes are there, which a contract
// says. No test is left in the loops over 75 points, and each number is one load.
ghost use Rattle.std.specs.Prelude.{◌≡◌, ◌+◌, ◌≤◌, ◌<◌, length};
ghost use Rattle.rules.specs.Bytes.{number_at, integer_at};

pub(crate) fn byte_in(bytes: &[u8], place: usize) -> u8
    requires { place + 1 ≤ length bytes.now }
    ensures { result ≡ number_at 1 place bytes.now }
{
    bytes[place]
}

fn wide(byte: u8) -> u32
    ensures { (result ≡ byte) × (result < 256) }
{
    byte as u32
}

pub(crate) fn u16_in(bytes: &[u8], place: usize) -> u16
    requires { place + 2 ≤ length bytes.now }
    ensures { result ≡ number_at 2 place bytes.now }
{
    let low = byte_in(bytes, place) as u16;
    let high = byte_in(bytes, place + 1) as u16;
    low + high * 0x100
}

// Four bytes as one sum: this compiles to one load.
pub(crate) fn u32_in(bytes: &[u8], place: usize) -> u32
    requires { place + 4 ≤ length bytes.now }
    ensures { result ≡ number_at 4 place bytes.now }
{
    wide(bytes[place])
        + wide(bytes[place + 1]) * 0x100
        + wide(bytes[place + 2]) * 0x1_0000
        + wide(bytes[place + 3]) * 0x100_0000
}

pub(crate) fn u64_in(bytes: &[u8], place: usize) -> u64
    requires { place + 8 ≤ length bytes.now }
    ensures { result ≡ number_at 8 place bytes.now }
{
    let low = u32_in(bytes, place) as u64;
    let high = u32_in(bytes, place + 4) as u64;
    low + high * 0x1_0000_0000
}

pub(crate) fn i32_in(bytes: &[u8], place: usize) -> i32
    requires { place + 4 ≤ length bytes.now }
    ensures { result ≡ integer_at 4 place bytes.now }
{
    little::signed_four(u32_in(bytes, place))
}

pub(crate) fn i64_in(bytes: &[u8], place: usize) -> i64
    requires { place + 8 ≤ length bytes.now }
    ensures { result ≡ integer_at 8 place bytes.now }
{
    little::signed_eight(u64_in(bytes, place))
}
