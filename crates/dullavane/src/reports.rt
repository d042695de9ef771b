// Rows of the performance report from C: a row's numbers as they are handed in and told, and what is told of a row that was written or read.
ghost use Rattle.std.specs.Prelude.{◌≡◌, ◌≤◌, ◌<◌, length};
ghost use Rattle.dullavane.specs.Reports.{number_narrow, row_narrow, type_in, whose_in, type_number, residual_number, number_told, region_number};
ghost use Rattle.dullavane.specs.Reports.{with_numbers, row_told, read_told, numbers_after};

use super::words::{OVER_16_BITS, said};
use answer::report::region_name;
use book::REGIONS;
use rules::{FigureType, Refusal, RegionName, ReportRow, Reported, locate};

// Is a number within its field: a unit's of 16 bits, or one of five regions?
fn number_narrow(residual: u32, number: u32) -> bool
    ensures { result ≡ number_narrow residual number }
{
    if residual == 0 {
        return number < OVER_16_BITS;
    }
    number < REGIONS as u32
}

// Is each number of a row within its field? Whose row it is, and a type, is 0 or 1.
pub(crate) fn row_narrow(
    residual: u32,
    number: u32,
    raise_type: u32,
    lower_type: u32,
    version: u32,
) -> bool
    ensures { result ≡ row_narrow residual number raise_type lower_type version }
{
    if 2 <= residual {
        return false;
    }
    if 2 <= raise_type {
        return false;
    }
    if 2 <= lower_type {
        return false;
    }
    if OVER_16_BITS <= version {
        return false;
    }
    number_narrow(residual, number)
}

pub(crate) fn type_in(number: u32) -> FigureType
    ensures { result ≡ type_in number }
{
    if number == 0 {
        return FigureType::Calculated;
    }
    FigureType::Default
}

pub(crate) fn whose_in(residual: u32, number: u32) -> Reported
    requires { number < 65_536 }
    ensures { result ≡ whose_in residual number }
{
    if residual == 0 {
        return Reported::Unit(number as u16);
    }
    Reported::Residual(region_name(number as usize))
}

fn type_number(typed: FigureType) -> i64
    ensures { result ≡ type_number typed }
{
    match typed {
        FigureType::Calculated => 0,
        FigureType::Default => 1,
    }
}

fn region_number(name: RegionName) -> i64
    ensures { result ≡ region_number name }
{
    match name {
        RegionName::Qld1 => 0,
        RegionName::Nsw1 => 1,
        RegionName::Vic1 => 2,
        RegionName::Sa1 => 3,
        RegionName::Tas1 => 4,
    }
}

fn residual_number(whose: Reported) -> i64
    ensures { result ≡ residual_number whose }
{
    match whose {
        Reported::Unit(_) => 0,
        Reported::Residual(_) => 1,
    }
}

fn number_told(whose: Reported) -> i64
    ensures { result ≡ number_told whose }
{
    match whose {
        Reported::Unit(number) => number as i64,
        Reported::Residual(name) => region_number(name),
    }
}

// Numbers past the eight stay.
fn put_numbers(row: ReportRow, numbers: &mut [i64])
    requires { 8 ≤ length numbers.old }
    ensures { numbers.new ≡ with_numbers row numbers.old }
{
    let whose = row.whose;
    let raise = row.raise;
    let lower = row.lower;
    let raise_type = raise.typed;
    let lower_type = lower.typed;
    let raise_read = raise.performance;
    let lower_read = lower.performance;
    numbers[0] = row.interval as i64;
    numbers[1] = residual_number(whose);
    numbers[2] = number_told(whose);
    numbers[3] = raise_read;
    numbers[4] = type_number(raise_type);
    numbers[5] = lower_read;
    numbers[6] = type_number(lower_type);
    numbers[7] = row.version as i64;
}

// The row's length in the upper half, above 0; or the refusal, which has no place.
pub(crate) fn tell_row_written(written: Result<u32, Refusal>) -> u64
    ensures { result ≡ row_told written }
{
    match written {
        Ok(length) => length as u64 * 0x1_0000_0000,
        Err(refusal) => said(locate(0, refusal)),
    }
}

// 0, with the row's numbers in the list; or the refusal, 18 with its column as t.
pub(crate) fn tell_row_read(read: Result<ReportRow, Refusal>, numbers: &mut [i64]) -> u64
    requires { 8 ≤ length numbers.old }
    ensures { (result ≡ read_told read) × (numbers.new ≡ numbers_after read numbers.old) }
{
    match read {
        Ok(row) => {
            put_numbers(row, numbers);
            0
        }
        Err(wrong) => said(locate(0, wrong)),
    }
}
