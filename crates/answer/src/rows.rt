// The homes and rows of the units: of each a home, a performance for raise and for lower, and six defaults.
ghost use Rattle.std.specs.Prelude.{◌≡◌, cond, [], ◌+◌, ◌*◌, ◌≤◌, eqb, length};
ghost use Rattle.kept.specs.Range.{rows_fine};
ghost use Rattle.answer.specs.Asked.{tally_of, lent_members};

use interval::PASSED_OVER;
use interval::lent::row_in_range;

// How many units the plant of the next row has up to it: one more where this row is passed over, else it is another plant.
fn units_next(units: u16, home: u8) -> u16
    requires { units ≤ 512 }
    ensures { result ≡ cond (eqb home 10) (units + 1) 1 }
{
    if home == PASSED_OVER {
        return units + 1;
    }
    1
}

// Is every number of these rows in range, of each for as many units as its plant has up to it?
pub(crate) fn rows_in_range(units: usize, homes: &[u8], rows: &[i64]) -> bool
    requires { (units ≤ 512) × (units ≤ length homes.now) × (8 * units ≤ length rows.now) }
    ensures { result ≡ rows_fine (tally_of units 0 0) (lent_members [] homes.now rows.now) }
{
    let mut many: u16 = 1;
    for row in 0..units {
        let home = homes[row];
        if PASSED_OVER < home {
            return false;
        }
        if !row_in_range(many, row, rows) {
            return false;
        }
        many = units_next(many, home);
    }
    true
}
