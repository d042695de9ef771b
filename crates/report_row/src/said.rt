// What the bytes of a column say, and whether they are those that the writer makes.
ghost use Rattle.std.specs.Prelude.{◌≡◌, ◌≤◌, length, get_or};
ghost use Rattle.rules.specs.ReportRead.{with_digit, said, same, billionths_most};
ghost use Rattle.report_row.specs.Reading.{limited, SaidFirst};

// A byte that is no digit says nothing.
fn with_digit(number: u64, byte: u8) -> u64
    requires { number ≤ billionths_most }
    ensures { result ≡ with_digit number byte }
{
    if byte < b'0' {
        return number;
    }
    if b'9' < byte {
        return number;
    }
    10 * number + (byte - b'0') as u64
}

// So many digits make no number that is too large for one more.
const FEW: usize = 18;

fn first_few(length: usize) -> usize
    ensures { (result ≤ 18) × (result ≤ length) }
{
    if length < FEW {
        return length;
    }
    FEW
}

// The number that the digits among the first few bytes make. It is not too large, so that nothing is compared on the way.
fn few_said(count: usize, bytes: &[u8]) -> u64
    requires { (count ≤ 18) × (count ≤ length bytes.now) }
    ensures { SaidFirst bytes.now count result }
{
    let mut number: u64 = 0;
    for &byte in &bytes[..count] {
        number = with_digit(number, byte);
    }
    number
}

// The number that the digits make, or one more than the most that is asked for: it never falls, so it is known to be more before all are read.
pub(crate) fn number_said(most: u64, bytes: &[u8]) -> u64
    requires { most ≤ billionths_most }
    ensures { result ≡ limited most (said bytes.now) }
{
    let count = first_few(bytes.len());
    let mut number = few_said(count, bytes);
    if most < number {
        return most + 1;
    }
    for &byte in &bytes[count..] {
        number = with_digit(number, byte);
        if most < number {
            return most + 1;
        }
    }
    number
}

// A byte of the column; 0 behind its end.
pub(crate) fn byte_at(place: usize, column: &[u8]) -> u8
    ensures { result ≡ get_or column.now place 0 }
{
    if place < column.len() {
        return column[place];
    }
    0
}

pub(crate) fn same_bytes(made: &[u8], column: &[u8]) -> bool
    ensures { result ≡ same made.now column.now }
{
    made == column
}
