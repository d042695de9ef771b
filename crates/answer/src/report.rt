// A row of the performance report of a book that was taken: the members in roster order, then the residuals of the five regions. Raise and lower go one way,
// by the direction.
ghost use Rattle.std.specs.Prelude.{◌≡◌, [], ◌+◌, ◌*◌, ◌<◌, ◌≤◌, length, get_or};
ghost use Rattle.rules.specs.Report.{type_of, region_name};
ghost use Rattle.interval.specs.Lent.{Lent};
ghost use Rattle.kept.specs.Range.{units_at};
ghost use Rattle.kept.specs.KeptReport.{member, residual, place_of, place_fine, row_figure, region_figure, report_long, fine_row};
ghost use Rattle.answer.specs.Asked.{no_lists, tally_of, lent_members};
ghost use Rattle.answer.specs.Made.{RowThere};
ghost use Rattle.answer.specs.Residual.{PerformancesWithin};
ghost use Rattle.answer.specs.Report.{lent_report, placed, report_found, MemberThere, RowsThere, MembersBetween, ReportPromise, region_at};

use super::Field;
use super::counts::counted;
use super::figures::region_within;
use super::made::{row_standing, row_value};
use super::residual::region_member;
use super::rows::rows_in_range;
use book::REGIONS;
use interval::lent::{of_interval, row_in_range};
use interval::turns::answer_turn;
use interval::{FIGURES_LENGTH, PASSED_OVER, ROW_EACH, Tally};
use rules::{Direction, Figure, FigureType, Refusal, RegionName, ReportRow, Reported, Standing};

// Whose a row of the report is: that of a row of the roster, of a region, or nobody's, past the last.
#[derive(Clone, Copy)]
enum Place {
    Member(usize),
    Residual(usize),
    Past,
}

// The figures of five regions; a number, a home and a row for each unit.
fn report_lists_long(
    units: usize,
    figures: &[i64],
    numbers: &[u16],
    homes: &[u8],
    rows: &[i64],
) -> bool
    requires { units ≤ 512 }
    ensures { result ≡ report_long units
        (lent_report no_lists figures.now numbers.now homes.now rows.now) }
{
    if figures.len() < FIGURES_LENGTH {
        return false;
    }
    if numbers.len() < units {
        return false;
    }
    if homes.len() < units {
        return false;
    }
    ROW_EACH * units <= rows.len()
}

// A row past the members is a region's, while there are any.
fn region_place(past: u32) -> Place
    ensures { result ≡ placed (region_at past) }
{
    if REGIONS as u32 <= past {
        return Place::Past;
    }
    Place::Residual(past as usize)
}

// So many rows of the roster are counted together.
const TOGETHER: usize = 64;

// Rows that are before the one that is asked for, and how many members stand in them.
#[derive(Clone, Copy)]
struct Before {
    at: usize,
    members: u32,
}

// How many members, rows that are not passed over, stand in so many rows together. No row is looked for among them, which takes less for each.
fn members_together(from: usize, homes: &[u8]) -> u32
    requires { (from + 64 ≤ 512) × (from + 64 ≤ length homes.now) }
    ensures { MembersBetween homes.now from (from + 64) result }
{
    let mut members: u32 = 0;
    for next in 0..TOGETHER {
        members += counted(homes[from + next] != PASSED_OVER);
    }
    members
}

// Rows by as many as are counted together, up to those among which the member is that is asked for.
fn rows_before(row: u32, units: usize, homes: &[u8]) -> Before
    requires { (units ≤ 512) × (units ≤ length homes.now) }
    ensures { (result.at ≤ units) × MembersBetween homes.now 0 result.at result.members × (result.members ≤ row) }
{
    let mut at: usize = 0;
    let mut members: u32 = 0;
    while at + TOGETHER <= units {
        let with_them = members + members_together(at, homes);
        if row < with_them {
            return Before { at, members };
        }
        members = with_them;
        at += TOGETHER;
    }
    Before { at, members }
}

// Counts the members up to the one that is asked for.
fn place_of(row: u32, units: usize, homes: &[u8]) -> Place
    requires { (units ≤ 512) × (units ≤ length homes.now) }
    ensures { result ≡ placed (place_of (tally_of units 0 0) (lent_members [] homes.now []) row) }
{
    let before = rows_before(row, units, homes);
    let mut members = before.members;
    for at in before.at..units {
        members += counted(homes[at] != PASSED_OVER);
        if row < members {
            return Place::Member(at);
        }
    }
    region_place(row - members)
}

// How many units the plant of a row has up to it: one more than the rows right before it that are passed over.
fn units_up_to(row: usize, homes: &[u8]) -> u16
    requires { (row < 512) × (row < length homes.now) }
    ensures { result ≡ units_at homes.now row }
{
    let mut units: u16 = 1;
    for before in (0..row).rev() {
        if homes[before] != PASSED_OVER {
            return units;
        }
        units += 1;
    }
    units
}

fn figure_type(standing: Standing) -> FigureType
    ensures { result ≡ type_of standing }
{
    match standing {
        Standing::Live => FigureType::Calculated,
        Standing::Default(_) => FigureType::Default,
    }
}

// Only 0 to 4 are regions; any other number gives the first.
pub fn region_name(region: usize) -> RegionName
    ensures { result ≡ region_name region }
{
    if region == 1 {
        return RegionName::Nsw1;
    }
    if region == 2 {
        return RegionName::Vic1;
    }
    if region == 3 {
        return RegionName::Sa1;
    }
    if region == 4 {
        return RegionName::Tas1;
    }
    RegionName::Qld1
}

fn member_figure(
    direction: Direction,
    row: usize,
    figures: &[i64],
    homes: &[u8],
    rows: &[i64],
) -> Figure
    requires { (get_or homes.now row 0 < 10) × RowThere row (lent_members figures.now homes.now rows.now) }
    ensures { result ≡ row_figure (lent_members figures.now homes.now rows.now) row direction }
{
    let standing = row_standing(direction, homes[row], figures);
    let performance = row_value(Field::Payment, direction, row, figures, homes, rows);
    Figure {
        performance: performance,
        typed: figure_type(standing),
    }
}

fn residual_figure(
    direction: Direction,
    region: usize,
    units: usize,
    figures: &[i64],
    homes: &[u8],
    rows: &[i64],
) -> Figure
    requires { (region < 5) × PerformancesWithin units (lent_members figures.now homes.now rows.now) }
    ensures { result ≡ region_figure (tally_of units 0 0)
        (lent_members figures.now homes.now rows.now) region direction }
{
    let residual = region_member(direction, region, units, figures, homes, rows);
    let standing = residual.standing;
    Figure {
        performance: residual.payment,
        typed: figure_type(standing),
    }
}

// Is what a member's row reads in range: its home, its own numbers, the figures of its region?
fn member_in_range(row: usize, figures: &[i64], homes: &[u8], rows: &[i64]) -> bool
    requires { MemberThere row (lent_members figures.now homes.now rows.now) }
    ensures { result ≡ place_fine (tally_of 0 0 0) (lent_members figures.now homes.now rows.now) (member row) }
{
    let home = homes[row];
    if PASSED_OVER < home {
        return false;
    }
    if !row_in_range(units_up_to(row, homes), row, rows) {
        return false;
    }
    region_within((home / 2) as usize, figures)
}

// And what a residual's reads: the rows of the whole roster, the figures of its region?
fn residual_in_range(
    region: usize,
    units: usize,
    figures: &[i64],
    homes: &[u8],
    rows: &[i64],
) -> bool
    requires { (region < 5) × RowsThere units (lent_members figures.now homes.now rows.now) }
    ensures { result ≡ place_fine (tally_of units 0 0)
        (lent_members figures.now homes.now rows.now) (residual region) }
{
    if !rows_in_range(units, homes, rows) {
        return false;
    }
    region_within(region, figures)
}

// The row of a member. Refuses 11 for a number out of range.
fn member_row(
    interval: u32,
    version: u16,
    row: usize,
    figures: &[i64],
    numbers: &[u16],
    homes: &[u8],
    rows: &[i64],
) -> Result<ReportRow, Refusal>
    requires { (row < length numbers.now) × MemberThere row (lent_members figures.now homes.now rows.now) }
    ensures { result ≡ report_found (fine_row (tally_of 0 0 interval)
        (lent_report no_lists figures.now numbers.now homes.now rows.now) version (member row)) }
{
    if !member_in_range(row, figures, homes, rows) {
        return Err(Refusal::WrongState);
    }
    Ok(ReportRow {
        interval: interval,
        whose: Reported::Unit(numbers[row]),
        raise: member_figure(Direction::Raise, row, figures, homes, rows),
        lower: member_figure(Direction::Lower, row, figures, homes, rows),
        version: version,
    })
}

// The row of a region's residual. Refuses 11 for a number out of range.
fn residual_row(
    interval: u32,
    version: u16,
    region: usize,
    units: usize,
    figures: &[i64],
    homes: &[u8],
    rows: &[i64],
) -> Result<ReportRow, Refusal>
    requires { (region < 5) × RowsThere units (lent_members figures.now homes.now rows.now) }
    ensures { result ≡ report_found (fine_row (tally_of units 0 interval)
        (lent_members figures.now homes.now rows.now) version (residual region)) }
{
    if !residual_in_range(region, units, figures, homes, rows) {
        return Err(Refusal::WrongState);
    }
    Ok(ReportRow {
        interval: interval,
        whose: Reported::Residual(region_name(region)),
        raise: residual_figure(Direction::Raise, region, units, figures, homes, rows),
        lower: residual_figure(Direction::Lower, region, units, figures, homes, rows),
        version: version,
    })
}

// A row of the report. Refuses 11 for a tally out of range or before the last unit, then 12 for a short list, then 11 for figures of another interval, for a
// row past the last, and for a lent number out of range that the row reads.
pub fn report(
    tally: Tally,
    row: u32,
    version: u16,
    figures: &[i64],
    numbers: &[u16],
    homes: &[u8],
    rows: &[i64],
) -> Result<ReportRow, Refusal>
    ensures { (rest : Lent) → ReportPromise tally row version
        (lent_report rest figures.now numbers.now homes.now rows.now) result }
{
    if !answer_turn(tally) {
        return Err(Refusal::WrongState);
    }
    let units = tally.units as usize;
    if !report_lists_long(units, figures, numbers, homes, rows) {
        return Err(Refusal::TooShort);
    }
    if !of_interval(tally.interval, figures) {
        return Err(Refusal::WrongState);
    }
    match place_of(row, units, homes) {
        Place::Member(at) => member_row(tally.interval, version, at, figures, numbers, homes, rows),
        Place::Residual(region) => residual_row(
            tally.interval,
            version,
            region,
            units,
            figures,
            homes,
            rows,
        ),
        Place::Past => Err(Refusal::WrongState),
    }
}
