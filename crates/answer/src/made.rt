// A plant's row as a member: live, or default with its reason. One path for raise and lower: the direction picks places in figures and row.
ghost use Rattle.std.specs.Prelude.{◌≡◌, ◌&&◌, [], ◌/◌, ◌%◌, ◌<◌, ◌≤◌, eqb, length, get_or};
ghost use Rattle.rules.specs.declared.Reason.TheVariants.{BadUnit};
ghost use Rattle.rules.specs.Standings.{standing};
ghost use Rattle.kept.specs.Kept.{reliable_of, row_member};
ghost use Rattle.answer.specs.Asked.{lent_members};
ghost use Rattle.answer.specs.Made.{performance_at, defaults_at, field_at, performed, made, picked, field_of, RowThere};

use super::homes::is_good;
use super::regions::reliable;
use super::{Field, Member};
use interval::{LOWER_PERFORMANCE, RAISE_PERFORMANCE, ROW_DEFAULTS, ROW_EACH};
use rules::{Direction, Reason, Standing};

// Where in a plant's row its performance stands.
pub(crate) fn performance_place(direction: Direction) -> usize
    ensures { result ≡ performance_at direction }
{
    match direction {
        Direction::Raise => RAISE_PERFORMANCE,
        Direction::Lower => LOWER_PERFORMANCE,
    }
}

// Where among six defaults the three of a direction start.
pub(crate) fn defaults_place(direction: Direction) -> usize
    ensures { result ≡ defaults_at direction }
{
    match direction {
        Direction::Raise => 0,
        Direction::Lower => 3,
    }
}

// Where among a direction's three a field's default stands.
fn field_place(field: Field) -> usize
    ensures { result ≡ field_at field }
{
    match field {
        Field::Payment => 0,
        Field::Used => 1,
        Field::Unused => 2,
    }
}

fn by_performance(field: Field) -> bool
    ensures { result ≡ performed field }
{
    match field {
        Field::Payment => true,
        Field::Used => true,
        Field::Unused => false,
    }
}

// Unreliable is named first.
pub(crate) fn standing_of(reliable: bool, fine: bool, why: Reason) -> Standing
    ensures { result ≡ standing reliable fine why }
{
    if !reliable {
        return Standing::Default(Reason::UnreliableRegion);
    }
    if !fine {
        return Standing::Default(why);
    }
    Standing::Live
}

// The performance of a live member; else its defaults stand in.
pub(crate) fn member_of(
    standing: Standing,
    performance: i64,
    payment: i64,
    used: i64,
    unused: i64,
) -> Member
    ensures { result ≡ made standing performance payment used unused }
{
    match standing {
        Standing::Live => Member {
            standing: Standing::Live,
            payment: performance,
            used: performance,
            unused: unused,
        },
        Standing::Default(reason) => Member {
            standing: Standing::Default(reason),
            payment: payment,
            used: used,
            unused: unused,
        },
    }
}

pub(crate) fn value(field: Field, member: Member) -> i64
    ensures { result ≡ picked field member }
{
    match field {
        Field::Payment => member.payment,
        Field::Used => member.used,
        Field::Unused => member.unused,
    }
}

// A plant is live if it is good and its region reliable.
pub(crate) fn row_standing(direction: Direction, home: u8, figures: &[i64]) -> Standing
    requires { (home < 10) × (50 ≤ length figures.now) }
    ensures { result ≡ standing (reliable_of (lent_members figures.now [] []) direction (home / 2)) (eqb (home % 2) 1) BadUnit }
{
    let sound = reliable(direction, (home / 2) as usize, figures);
    standing_of(sound, is_good(home), Reason::BadUnit)
}

// Does a plant's number go by its performance? That of a live one does, but for the unused default.
fn goes_live(field: Field, direction: Direction, home: u8, figures: &[i64]) -> bool
    requires { (home < 10) × (50 ≤ length figures.now) }
    ensures { result ≡ (performed field
        && (reliable_of (lent_members figures.now [] []) direction (home / 2) && eqb (home % 2) 1)) }
{
    if !by_performance(field) {
        return false;
    }
    if !reliable(direction, (home / 2) as usize, figures) {
        return false;
    }
    is_good(home)
}

// The number by which a share goes: the performance of a live plant, else the default that stands in.
pub(crate) fn row_value(
    field: Field,
    direction: Direction,
    row: usize,
    figures: &[i64],
    homes: &[u8],
    rows: &[i64],
) -> i64
    requires { (get_or homes.now row 0 < 10) × RowThere row (lent_members figures.now homes.now rows.now) }
    ensures { result ≡ field_of field
        (row_member (lent_members figures.now homes.now rows.now) direction row) }
{
    let start = ROW_EACH * row;
    if goes_live(field, direction, homes[row], figures) {
        return rows[start + performance_place(direction)];
    }
    let at = ROW_DEFAULTS + defaults_place(direction) + field_place(field);
    rows[start + at]
}
