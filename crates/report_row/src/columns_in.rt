// The columns of a row read back: each says something, and is right if the writer makes it of that. `None` is a column that the writer never makes.
ghost use Rattle.std.specs.Prelude.{◌≡◌, true, cond, ℕ, ◌≤◌, eqb, pos, neg_ℤ, get_or};
ghost use Rattle.rules.specs.Calendar.{interval_to};
ghost use Rattle.rules.specs.ReportRow.{whose_text};
ghost use Rattle.rules.specs.ReportRead.{moment_in, billionths_most, read_as, interval_read, whose_read, performance_read, type_read, version_read};
ghost use Rattle.report_row.specs.Dates.{date_of, Dated};
ghost use Rattle.report_row.specs.Reading.{moment_most, Holds, region_of, column_reply};

use super::LAST_INTERVAL;
use super::calendar::{Date, days_to};
use super::columns::{
    DAY_INTERVALS, HOUR_INTERVALS, INTERVAL_MINUTES, put_interval, put_performance, put_version,
    put_whose,
};
use super::said::{byte_at, number_said, same_bytes};
use rules::{FigureType, RegionName, Reported};

// The digits of 31/12/9999 23:55:00: no end that is written says more.
const MOMENT_MOST: u64 = 31_129_999_235_500;

// The most that a performance of 64 bits makes.
const BILLIONTHS_MOST: u64 = 1_229_782_938_247_303_441;

// The largest unit number, and the largest version.
const NUMBER_MOST: u64 = 65_535;

// The date of a moment by its fourteen digits.
fn date_in(moment: u64) -> Date
    requires { moment ≤ moment_most }
    ensures { date_of result ≡ (moment_in moment).date }
{
    Date {
        year: (moment / 1_000_000 % 10_000) as u16,
        month: (moment / 10_000_000_000 % 100) as u8,
        day: (moment / 1_000_000_000_000) as u8,
    }
}

// Whether it is a date as people count it; a month may have fewer days.
fn is_dated(date: Date) -> bool
    requires { (date.year ≤ 9_999) × (date.day ≤ 31) }
    ensures { Holds result (Dated (date_of date)) }
{
    if date.year < 2_000 {
        return false;
    }
    if date.month < 1 {
        return false;
    }
    if 12 < date.month {
        return false;
    }
    1 <= date.day
}

// The interval that ends on that date, at the moment's hour and minute.
fn interval_on(date: Date, moment: u64) -> u32
    requires { Dated (date_of date) × (date_of date ≡ (moment_in moment).date) }
    ensures { result ≡ interval_to (moment_in moment) }
{
    let hour = (moment / 10_000 % 100) as u32;
    let minute = (moment / 100 % 100) as u32;
    DAY_INTERVALS * days_to(date) + (HOUR_INTERVALS * hour + minute / INTERVAL_MINUTES)
}

// Date and time of an interval's end. Every one that is written has such a date, so without one the column is wrong.
pub(crate) fn interval_in(column: &[u8]) -> Option<u32>
    ensures { (k : ℕ) → column_reply k result ≡ interval_read k column.now }
{
    let moment = number_said(MOMENT_MOST, column);
    if MOMENT_MOST < moment {
        return None;
    }
    let date = date_in(moment);
    if !is_dated(date) {
        return None;
    }
    let interval = interval_on(date, moment);
    if LAST_INTERVAL < interval {
        return None;
    }
    let mut line = [0u8; 19];
    let to = put_interval(interval, 19, &mut line);
    if same_bytes(&line[to..], column) {
        return Some(interval);
    }
    None
}

// By the first letter of the region's name; where it is none of these, the column is compared with Tasmania's, and differs.
fn region_said(letter: u8) -> RegionName
    ensures { result ≡ region_of letter }
{
    match letter {
        b'Q' => RegionName::Qld1,
        b'N' => RegionName::Nsw1,
        b'V' => RegionName::Vic1,
        b'S' => RegionName::Sa1,
        _ => RegionName::Tas1,
    }
}

fn whose_if_written(whose: Reported, column: &[u8]) -> Option<Reported>
    ensures { (k : ℕ) → column_reply k result ≡ read_as whose_text k column.now true whose }
{
    let mut line = [0u8; 20];
    let to = put_whose(whose, 20, &mut line);
    if same_bytes(&line[to..], column) {
        return Some(whose);
    }
    None
}

// A residual begins with its word, and the region's name is behind it; all else is a unit's number.
pub(crate) fn whose_in(column: &[u8]) -> Option<Reported>
    ensures { (k : ℕ) → column_reply k result ≡ whose_read k column.now }
{
    if byte_at(0, column) == b'R' {
        let name = region_said(byte_at(9, column));
        return whose_if_written(Reported::Residual(name), column);
    }
    let number = number_said(NUMBER_MOST, column);
    if NUMBER_MOST < number {
        return None;
    }
    whose_if_written(Reported::Unit(number as u16), column)
}

// Below zero where the column begins with a minus.
fn with_sign(size: u64, column: &[u8]) -> i64
    requires { size ≤ billionths_most }
    ensures { result ≡ cond (eqb (get_or column.now 0 0) 45) (neg_ℤ (pos size)) (pos size) }
{
    if byte_at(0, column) == b'-' {
        return -(size as i64);
    }
    size as i64
}

// In billionths of a MWHz.
pub(crate) fn performance_in(column: &[u8]) -> Option<i64>
    ensures { (k : ℕ) → column_reply k result ≡ performance_read k column.now }
{
    let size = number_said(BILLIONTHS_MOST, column);
    if BILLIONTHS_MOST < size {
        return None;
    }
    let number = with_sign(size, column);
    let mut line = [0u8; 31];
    let to = put_performance(number, 31, &mut line);
    if same_bytes(&line[to..], column) {
        return Some(number);
    }
    None
}

pub(crate) fn type_in(column: &[u8]) -> Option<FigureType>
    ensures { (k : ℕ) → column_reply k result ≡ type_read k column.now }
{
    if same_bytes(b"Calculated", column) {
        return Some(FigureType::Calculated);
    }
    if same_bytes(b"Default", column) {
        return Some(FigureType::Default);
    }
    None
}

// The last column, with its line feed.
pub(crate) fn version_in(column: &[u8]) -> Option<u16>
    ensures { (k : ℕ) → column_reply k result ≡ version_read k column.now }
{
    let number = number_said(NUMBER_MOST, column);
    if NUMBER_MOST < number {
        return None;
    }
    let version = number as u16;
    let mut line = [0u8; 21];
    let to = put_version(version, 21, &mut line);
    if same_bytes(&line[to..], column) {
        return Some(version);
    }
    None
}
