// Whether a unit may stand in its group: 16 is a group that was left and returns, a group in two regions, and a default off the primary.
ghost use Rattle.std.specs.Prelude.{◌≡◌, ◌+◌, ◌<◌, ◌≤◌, true, length};
ghost use Rattle.units.specs.Groups.{follows, none_of_four, new_group, free_group, fits_group, grouped};

use book::UnitFields;
use book::defaults::no_three;
use rules::Refusal;

// So many groups are passed at a time.
const SIXTEEN: u32 = 16;

// Does the unit of a row join the group of the unit before?
pub(crate) fn joins(group: u16, row: usize, groups: &[u16]) -> bool
    requires { row ≤ length groups.now }
    ensures { result ≡ follows group row groups.now }
{
    if group == 0 {
        return false;
    }
    if row == 0 {
        return false;
    }
    groups[row - 1] == group
}

// Is a group none of four?
fn none_of_four(group: u16, from: usize, groups: &[u16]) -> bool
    requires { from + 4 ≤ length groups.now }
    ensures { result ≡ none_of_four group from groups.now }
{
    if groups[from] == group {
        return false;
    }
    if groups[from + 1] == group {
        return false;
    }
    if groups[from + 2] == group {
        return false;
    }
    groups[from + 3] != group
}

// Is it none of those from a place on?
fn none_from(group: u16, from: usize, row: usize, groups: &[u16]) -> bool
    requires { (from ≤ row) × (row ≤ length groups.now) × (new_group group from groups.now ≡ true) }
    ensures { result ≡ new_group group row groups.now }
{
    for at in from..row {
        if groups[at] == group {
            return false;
        }
    }
    true
}

// Has no unit before a row this group? Sixteen a turn, with an index of 32 bits.
fn is_new(group: u16, row: usize, groups: &[u16]) -> bool
    requires { (row < 512) × (row ≤ length groups.now) }
    ensures { result ≡ new_group group row groups.now }
{
    let last = row as u32;
    let mut at: u32 = 0;
    while at + SIXTEEN <= last {
        let from = at as usize;
        if !none_of_four(group, from, groups) {
            return false;
        }
        if !none_of_four(group, from + 4, groups) {
            return false;
        }
        if !none_of_four(group, from + 8, groups) {
            return false;
        }
        if !none_of_four(group, from + 12, groups) {
            return false;
        }
        at += SIXTEEN;
    }
    none_from(group, at as usize, row, groups)
}

// May a unit have this group: none, that of the unit before, or a new one? Asked before the record is read, while few numbers are at hand, so that the search
// keeps the group in a register.
pub(crate) fn is_free(group: u16, row: usize, groups: &[u16]) -> bool
    requires { (row < 512) × (row ≤ length groups.now) }
    ensures { result ≡ free_group group row groups.now }
{
    if group == 0 {
        return true;
    }
    if joins(group, row, groups) {
        return true;
    }
    is_new(group, row, groups)
}

// A unit that joins a group is in its region and has no defaults of its own; for any other its group is free.
fn fits_group(fields: UnitFields, free: bool, row: usize, homes: &[u8], groups: &[u16]) -> bool
    requires { (row < length homes.now) × (row < length groups.now) }
    ensures { result ≡ fits_group fields free row homes.now groups.now }
{
    if joins(fields.group, row, groups) {
        if homes[row - 1] / 2 != fields.region {
            return false;
        }
        let raise = fields.raise;
        if !no_three(raise) {
            return false;
        }
        let lower = fields.lower;
        return no_three(lower);
    }
    free
}

// The unit that was read, where it may stand in its group; else 16.
pub(crate) fn in_group(
    read: Result<UnitFields, Refusal>,
    free: bool,
    row: usize,
    homes: &[u8],
    groups: &[u16],
) -> Result<UnitFields, Refusal>
    requires { (row < length homes.now) × (row < length groups.now) }
    ensures { result ≡ grouped free row homes.now groups.now read }
{
    let fields = read?;
    if !fits_group(fields, free, row, homes, groups) {
        return Err(Refusal::WrongGroup);
    }
    Ok(fields)
}
