// The call: everything is tested, and then the book is laid out, body by body.
ghost use Rattle.std.specs.Prelude.{◌≡◌, ◌≤◌, length};
ghost use Rattle.rules.specs.Laid.{strung};
ghost use Rattle.rules.specs.Written.{
  region_laid,
  unit_laid,
  requirement_laid,
  book_laid,
  book_size,
  regions_long,
  units_long,
  long_enough,
  counts_fine,
  book_given,
};
ghost use Rattle.writer.specs.Put.{put};
ghost use Rattle.writer.specs.Values.{
  values,
  region_values,
  unit_values,
  requirement_values,
  so_many_units,
  so_many,
  lists_values,
  UnitsRoom,
  RequirementsRoom,
  BookLists,
};
ghost use Rattle.writer.specs.Judged.{judged};
ghost use Rattle.writer.specs.Promise.{WritePromise, at_front, WithinRoom};

use super::judge::{judge_regions, judge_requirements, judge_settings, judge_units};
use super::records::{lay_contents, lay_region, lay_requirement, lay_settings, lay_unit};
use super::{QUALITY, REGION_COUNT, REGION_ROW, REQUIREMENT_ROW, SettingsRow, UNIT_ROW};
use book::{CONTENTS, FREQUENCY, POINTS, REGIONS, REGIONS_START, REQUIREMENT, UNIT, UNITS_START};
use rules::{Located, Refusal, locate};

// The counts are handed in as 32 bits.
const UNIT_LIMIT: u32 = 512;

const REQUIREMENT_LIMIT: u32 = 32;

// How long a book of so many units and requirements is; no two counts of 32 bits make it pass 64.
fn book_size(units: u32, requirements: u32) -> u64
    ensures { result ≡ book_size units requirements }
{
    UNITS_START as u64 + units as u64 * UNIT as u64 + requirements as u64 * REQUIREMENT as u64
}

fn regions_long(rows: &[i64], qualities: &[u8], frequencies: &[u32]) -> bool
    ensures { result ≡ regions_long (region_values rows.now qualities.now frequencies.now) }
{
    if rows.len() < REGION_ROW * REGIONS {
        return false;
    }
    if qualities.len() < QUALITY * REGIONS {
        return false;
    }
    POINTS * REGIONS <= frequencies.len()
}

fn units_long(rows: &[i64], qualities: &[u8], readings: &[i32], units: u32) -> bool
    ensures { result ≡ units_long (so_many_units units rows.now qualities.now readings.now) }
{
    let count = units as usize;
    if rows.len() < UNIT_ROW * count {
        return false;
    }
    if qualities.len() < QUALITY * count {
        return false;
    }
    POINTS * count <= readings.len()
}

fn counts_fine(units: u32, requirements: u32) -> bool
    ensures { result ≡ counts_fine (so_many units requirements) }
{
    if UNIT_LIMIT < units {
        return false;
    }
    if requirements < 1 {
        return false;
    }
    requirements <= REQUIREMENT_LIMIT
}

fn lay_regions(book: &mut [u8], rows: &[i64], qualities: &[u8], frequencies: &[u32])
    requires { (1904 ≤ length book.old) × (45 ≤ length rows.now) × (50 ≤ length qualities.now) × (375 ≤ length frequencies.now) }
    ensures { book.new ≡ put 64 (strung 0 5 (region_laid (region_values rows.now qualities.now frequencies.now))) book.old }
{
    for region in 0..REGION_COUNT {
        lay_region(
            book,
            REGIONS_START + FREQUENCY * region as usize,
            rows,
            qualities,
            frequencies,
            region,
        );
    }
}

fn lay_units(book: &mut [u8], rows: &[i64], qualities: &[u8], readings: &[i32], units: usize)
    requires { UnitsRoom units book.old rows.now qualities.now readings.now }
    ensures { book.new ≡
        put 1904 (strung 0 units (unit_laid (unit_values rows.now qualities.now readings.now))) book.old }
{
    for unit in 0..units {
        lay_unit(
            book,
            UNITS_START + UNIT * unit,
            rows,
            qualities,
            readings,
            unit,
        );
    }
}

fn lay_requirements(book: &mut [u8], start: usize, rows: &[i64], requirements: usize)
    requires { RequirementsRoom start requirements book.old rows.now }
    ensures { book.new ≡ put start (strung 0 requirements (requirement_laid (requirement_values rows.now))) book.old }
{
    for requirement in 0..requirements {
        lay_requirement(book, start + REQUIREMENT * requirement, rows, requirement);
    }
}

// The first of a book's records that is refused, where one is.
fn judge_book(
    settings: SettingsRow,
    region_rows: &[i64],
    region_qualities: &[u8],
    frequencies: &[u32],
    units: usize,
    unit_rows: &[i64],
    unit_qualities: &[u8],
    readings: &[i32],
    requirements: usize,
    requirement_rows: &[i64],
) -> Result<(), Located>
    requires { BookLists units requirements region_rows.now region_qualities.now frequencies.now unit_rows.now unit_qualities.now readings.now
        requirement_rows.now }
    ensures { result ≡ judged (book_given
        (values settings region_rows.now region_qualities.now frequencies.now units unit_rows.now
        unit_qualities.now readings.now requirements requirement_rows.now)) }
{
    judge_settings(settings)?;
    judge_regions(region_rows, region_qualities, frequencies)?;
    judge_units(unit_rows, unit_qualities, readings, units)?;
    judge_requirements(requirement_rows, requirements)
}

// Is every list, and a buffer of so many bytes, as long as the counts ask?
fn long_enough(
    region_rows: &[i64],
    region_qualities: &[u8],
    frequencies: &[u32],
    units: u32,
    unit_rows: &[i64],
    unit_qualities: &[u8],
    readings: &[i32],
    requirements: u32,
    requirement_rows: &[i64],
    room: usize,
) -> bool
    ensures { result ≡ long_enough
        (lists_values region_rows.now region_qualities.now frequencies.now units unit_rows.now
        unit_qualities.now readings.now requirements requirement_rows.now) room }
{
    if (room as u64) < book_size(units, requirements) {
        return false;
    }
    if !regions_long(region_rows, region_qualities, frequencies) {
        return false;
    }
    if !units_long(unit_rows, unit_qualities, readings, units) {
        return false;
    }
    REQUIREMENT_ROW * requirements as usize <= requirement_rows.len()
}

// The table of contents, and the bodies behind it without gaps.
fn lay_book(
    settings: SettingsRow,
    region_rows: &[i64],
    region_qualities: &[u8],
    frequencies: &[u32],
    units: usize,
    unit_rows: &[i64],
    unit_qualities: &[u8],
    readings: &[i32],
    requirements: usize,
    requirement_rows: &[i64],
    book: &mut [u8],
)
    requires book_lists { BookLists units requirements region_rows.now region_qualities.now frequencies.now unit_rows.now unit_qualities.now readings.now
        requirement_rows.now }
    requires requirements_in_bounds { book_size units requirements ≤ length book.old }
    ensures { book.new ≡ at_front (book_laid
        (values settings region_rows.now region_qualities.now frequencies.now units unit_rows.now
        unit_qualities.now readings.now requirements requirement_rows.now))
        book.old }
{
    lay_contents(book, units as u16, requirements as u16);
    lay_settings(book, CONTENTS, settings);
    lay_regions(book, region_rows, region_qualities, frequencies);
    lay_units(book, unit_rows, unit_qualities, readings, units);
    lay_requirements(
        book,
        UNITS_START + UNIT * units,
        requirement_rows,
        requirements,
    );
}

// Writes the book of these values and says its length, or refuses: 12 for a list or a buffer that is too short for the counts as given, 5 for a count out of its
// limits, then what the reader would refuse, in the order of the book. Nothing is written on a refusal, and never a byte past the book.
pub fn write(
    settings: SettingsRow,
    region_rows: &[i64],
    region_qualities: &[u8],
    frequencies: &[u32],
    units: u32,
    unit_rows: &[i64],
    unit_qualities: &[u8],
    readings: &[i32],
    requirements: u32,
    requirement_rows: &[i64],
    book: &mut [u8],
) -> Result<u32, Located>
    ensures write_promise { WritePromise
        (values settings region_rows.now region_qualities.now frequencies.now units unit_rows.now
        unit_qualities.now readings.now requirements requirement_rows.now)
        book.old result book.new }
    ensures within_room { WithinRoom (length book.old) result }
{
    let room = book.len();
    if !long_enough(
        region_rows,
        region_qualities,
        frequencies,
        units,
        unit_rows,
        unit_qualities,
        readings,
        requirements,
        requirement_rows,
        room,
    ) {
        return Err(locate(0, Refusal::TooShort));
    }
    if !counts_fine(units, requirements) {
        return Err(locate(0, Refusal::WrongCount));
    }
    judge_book(
        settings,
        region_rows,
        region_qualities,
        frequencies,
        units as usize,
        unit_rows,
        unit_qualities,
        readings,
        requirements as usize,
        requirement_rows,
    )?;
    lay_book(
        settings,
        region_rows,
        region_qualities,
        frequencies,
        units as usize,
        unit_rows,
        unit_qualities,
        readings,
        requirements as usize,
        requirement_rows,
        book,
    );
    Ok(book_size(units, requirements) as u32)
}
