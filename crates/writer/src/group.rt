// Whether a unit may stand where it stands in its group (02, R-5). What the units before it are is looked up in their rows.
ghost use Rattle.std.specs.Prelude.{◌≡◌, ◌*◌, ◌≤◌, ◌<◌, length};
ghost use Rattle.writer.specs.Judged.{new_before, stands};

use super::UNIT_ROW;
use super::words::{one_byte, two_bytes};
use book::UnitFields;
use book::defaults::no_three;

// Where a unit's row holds its region and its group.
const REGION: usize = 1;

const GROUP: usize = 5;

// Does none of the units before have this group, which is not 0? A row whose group does not fit its field has another.
fn new_group(group: u16, rows: &[i64], unit: usize) -> bool
    requires { (0 < group) × (12 * unit ≤ length rows.now) }
    ensures { result ≡ new_before group rows.now unit }
{
    let wanted = group as i64;
    for i in 0..unit {
        if rows[UNIT_ROW * i + GROUP] == wanted {
            return false;
        }
    }
    true
}

// Behind a unit of its own group a unit is in its region and has no defaults; else its group, if it has one, is new.
pub(crate) fn in_its_group(fields: UnitFields, rows: &[i64], unit: usize) -> bool
    requires { 12 * unit ≤ length rows.now }
    ensures { result ≡ stands fields rows.now unit }
{
    if unit == 0 {
        return true;
    }
    if fields.group == 0 {
        return true;
    }
    let before = UNIT_ROW * (unit - 1);
    if two_bytes(rows[before + GROUP]) != fields.group {
        return new_group(fields.group, rows, unit);
    }
    if one_byte(rows[before + REGION]) != fields.region {
        return false;
    }
    let raise = fields.raise;
    let lower = fields.lower;
    if !no_three(raise) {
        return false;
    }
    no_three(lower)
}
