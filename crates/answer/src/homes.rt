// The home of a row: twice its plant's region, and 1 more where the plant is good. A row that is passed over is of region 5, which no requirement has.
ghost use Rattle.std.specs.Prelude.{◌≡◌, ◌<◌, ◌/◌, ◌%◌, eqb};
ghost use Rattle.rules.specs.Bytes.{bit};

use super::regions::covers;

pub(crate) fn is_good(home: u8) -> bool
    ensures { result ≡ eqb (home % 2) 1 }
{
    home % 2 == 1
}

// Is the row's region in the set?
pub(crate) fn in_set(set: u8, home: u8) -> bool
    requires { home < 11 }
    ensures { result ≡ bit (home / 2) set }
{
    covers(set, (home / 2) as usize)
}
