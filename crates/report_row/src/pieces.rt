// The smallest pieces of a row: a byte, and a number by so many digits.
ghost use Rattle.std.specs.Prelude.{[], ◌∷◌};
ghost use Rattle.rules.specs.ReportRow.{padded};
ghost use Rattle.listing.specs.Pieces.{Room, Put};

pub(crate) fn put_byte(byte: u8, at: usize, line: &mut [u8]) -> usize
    requires { Room 1 at line.old }
    ensures { Put (byte ∷ []) at line.old result line.new }
{
    let to = at - 1;
    line[to] = byte;
    to
}

// The last so many digits of a number, zeros before it.
pub(crate) fn put_padded(places: usize, n: u32, at: usize, line: &mut [u8]) -> usize
    requires { Room places at line.old }
    ensures { Put (padded places n) at line.old result line.new }
{
    let from = at - places;
    let mut rest = n;
    for to in (from..at).rev() {
        line[to] = (48 + rest % 10) as u8;
        rest /= 10;
    }
    from
}
