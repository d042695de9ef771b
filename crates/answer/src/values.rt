// The values of a requirement's members, by which a share goes: those of the rows of its regions in roster order, then the residual's.
ghost use Rattle.std.specs.Prelude.{◌≤◌, ◌<◌, length};
ghost use Rattle.answer.specs.Asked.{lent_members};
ghost use Rattle.answer.specs.Made.{RowThere};
ghost use Rattle.answer.specs.Values.{RowsThere, RowPut, RowsPut, MembersThere, Listed};

use super::homes::in_set;
use super::made::{row_value, value};
use super::{Field, Member};
use rules::Direction;

// A row's value behind those that are there, if its region is one of the set's: how many there are then. The set is of five regions, so a row that
// is passed over is in none.
fn put_row(
    field: Field,
    direction: Direction,
    set: u8,
    row: usize,
    at: usize,
    figures: &[i64],
    homes: &[u8],
    rows: &[i64],
    column: &mut [i64],
) -> usize
    requires { (set ≤ 31) × (at < length column.old) × RowThere row (lent_members figures.now homes.now rows.now) }
    ensures { RowPut field direction set row at
        (lent_members figures.now homes.now rows.now) column.old result column.new }
{
    if !in_set(set, homes[row]) {
        return at;
    }
    column[at] = row_value(field, direction, row, figures, homes, rows);
    at + 1
}

fn put_rows(
    field: Field,
    direction: Direction,
    set: u8,
    units: usize,
    figures: &[i64],
    homes: &[u8],
    rows: &[i64],
    column: &mut [i64],
) -> usize
    requires { (set ≤ 31) × (units < length column.old) × RowsThere units (lent_members figures.now homes.now rows.now) }
    ensures { RowsPut field direction set units
        (lent_members figures.now homes.now rows.now) column.old result column.new }
{
    let mut at: usize = 0;
    for row in 0..units {
        at = put_row(field, direction, set, row, at, figures, homes, rows, column);
    }
    at
}

// The members' numbers of one field at the front of a column, the residual's last: how many they are.
pub(crate) fn put_members(
    field: Field,
    direction: Direction,
    set: u8,
    units: usize,
    residual: Member,
    figures: &[i64],
    homes: &[u8],
    rows: &[i64],
    column: &mut [i64],
) -> usize
    requires { MembersThere units direction set (lent_members figures.now homes.now rows.now) residual (length column.old) }
    ensures { Listed field units direction set
        (lent_members figures.now homes.now rows.now) column.old result column.new }
{
    let last = put_rows(field, direction, set, units, figures, homes, rows, column);
    column[last] = value(field, residual);
    last + 1
}
