// What a unit's line takes at the least, by a few comparisons of its numbers: a line that has no room is mostly known to have none before it is put together.
ghost use Rattle.std.specs.Prelude.{◌≡◌, true, ℕ, ◌≤◌, ◌<◌, length};
ghost use Rattle.rules.specs.declared.Standing.{Standing};
ghost use Rattle.rules.specs.Text.{natural, integer};
ghost use Rattle.rules.specs.Listing.{member_line};
ghost use Rattle.listing.specs.Lines.{unit_of};

use listing::Amounts;
use listing::pieces::size;

// With so much room a line is put together without a look at its numbers: most lines are shorter.
const PLENTY: usize = 80;

// Name, number, standing, five spaces before the numbers and the line feed are at least so long.
const BESIDE: usize = 17;

fn least_digits(n: u64) -> usize
    ensures { result ≤ length (natural n) }
{
    if n < 100 {
        return 1;
    }
    if n < 10_000 {
        return 3;
    }
    if n < 1_000_000 {
        return 5;
    }
    if n < 100_000_000 {
        return 7;
    }
    if n < 10_000_000_000 {
        return 9;
    }
    11
}

fn least_integer(x: i64) -> usize
    ensures { result ≤ length (integer x) }
{
    if x < 0 {
        return 1 + least_digits(size(x));
    }
    least_digits(size(x))
}

fn least_line(amounts: Amounts) -> usize
    ensures { (number : ℕ) (standing : Standing) → result ≤ length (member_line (unit_of number standing amounts)) }
{
    let shown = least_integer(amounts.performance) + least_integer(amounts.factor);
    let cents = least_integer(amounts.payment)
        + least_integer(amounts.used)
        + least_integer(amounts.unused);
    BESIDE + shown + cents
}

// Whether it is plain that a unit's line with these numbers has no room.
pub(crate) fn has_no_room(room: usize, amounts: Amounts) -> bool
    ensures { result ≡ true → (number : ℕ) (standing : Standing) → room < length (member_line (unit_of number standing amounts)) }
{
    if PLENTY <= room {
        return false;
    }
    room < least_line(amounts)
}
