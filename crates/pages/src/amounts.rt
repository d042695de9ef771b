// A figure's number, by its sign and its size.
ghost use Rattle.std.specs.Prelude.{◌≡◌};
ghost use Rattle.pages.specs.Amounts.{amount_of};

use super::Amount;
use listing::pieces::size;

pub(crate) fn signed_amount(x: i64) -> Amount
    ensures { result ≡ amount_of x }
{
    Amount {
        below: x < 0,
        size: size(x),
    }
}
