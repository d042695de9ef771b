// The defaults of one direction, as the readers hand them on.
ghost use Rattle.std.specs.Prelude.{◌≡◌};
ghost use Rattle.book.specs.Defaults.{none_in_three};

use super::Three;

// Are all three 0, as those of a unit off its group's primary are?
pub fn no_three(three: Three) -> bool
    ensures { result ≡ none_in_three three }
{
    if three.payment != 0 {
        return false;
    }
    if three.used != 0 {
        return false;
    }
    three.unused == 0
}
