// The columns of a row, each put before what stands from `at` on; the answer is where it starts.
ghost use Rattle.std.specs.Prelude.{◌≡◌, ◌+◌, ◌≤◌};
ghost use Rattle.rules.specs.Calendar.{last_interval};
ghost use Rattle.rules.specs.ReportRow.{interval_text, region_text, whose_text, billionths, decimals, performance_text, type_text, version_text};
ghost use Rattle.listing.specs.Pieces.{Room, Put};
ghost use Rattle.report_row.specs.Columns.{date_text, time_text};

use super::calendar::date_after;
use super::pieces::{put_byte, put_padded};
use listing::pieces::{put_number, put_word, size};
use rules::{BILLION, FigureType, RegionName, Reported};

pub(crate) const DAY_INTERVALS: u32 = 288;

pub(crate) const HOUR_INTERVALS: u32 = 12;

pub(crate) const INTERVAL_MINUTES: u32 = 5;

// HH:MM:SS of an interval's end, from the intervals of its day.
fn put_time(slot: u32, at: usize, line: &mut [u8]) -> usize
    requires { Room 8 at line.old }
    ensures { Put (time_text slot) at line.old result line.new }
{
    let mut to = put_word(b":00", at, line);
    to = put_padded(2, INTERVAL_MINUTES * (slot % HOUR_INTERVALS), to, line);
    to = put_byte(b':', to, line);
    put_padded(2, slot / HOUR_INTERVALS, to, line)
}

// DD/MM/YYYY of a day, by the days from 01/01/2000 on.
fn put_date(days: u32, at: usize, line: &mut [u8]) -> usize
    requires { Room 10 at line.old × (days ≤ 2_921_939) }
    ensures { Put (date_text days) at line.old result line.new }
{
    let date = date_after(days);
    let mut to = put_padded(4, date.year as u32, at, line);
    to = put_byte(b'/', to, line);
    to = put_padded(2, date.month as u32, to, line);
    to = put_byte(b'/', to, line);
    put_padded(2, date.day as u32, to, line)
}

pub(crate) fn put_interval(interval: u32, at: usize, line: &mut [u8]) -> usize
    requires { Room 19 at line.old × (interval ≤ last_interval) }
    ensures { Put (interval_text interval) at line.old result line.new }
{
    let mut to = put_time(interval % DAY_INTERVALS, at, line);
    to = put_byte(b' ', to, line);
    put_date(interval / DAY_INTERVALS, to, line)
}

fn put_region(name: RegionName, at: usize, line: &mut [u8]) -> usize
    requires { Room 4 at line.old }
    ensures { Put (region_text name) at line.old result line.new }
{
    match name {
        RegionName::Qld1 => put_word(b"QLD1", at, line),
        RegionName::Nsw1 => put_word(b"NSW1", at, line),
        RegionName::Vic1 => put_word(b"VIC1", at, line),
        RegionName::Sa1 => put_word(b"SA1", at, line),
        RegionName::Tas1 => put_word(b"TAS1", at, line),
    }
}

pub(crate) fn put_whose(whose: Reported, at: usize, line: &mut [u8]) -> usize
    requires { Room 20 at line.old }
    ensures put { Put (whose_text whose) at line.old result line.new }
    ensures at_bound { at ≤ result + 13 }
{
    match whose {
        Reported::Unit(number) => put_number(number as u64, at, line),
        Reported::Residual(name) => {
            let to = put_region(name, at, line);
            put_word(b"Residual ", to, line)
        }
    }
}

// MWHz with nine decimals, of a size in billionths.
fn put_decimals(size: u64, at: usize, line: &mut [u8]) -> usize
    requires { Room 30 at line.old }
    ensures { Put (decimals size) at line.old result line.new }
{
    let mut to = put_padded(9, (size % BILLION) as u32, at, line);
    to = put_byte(b'.', to, line);
    put_number(size / BILLION, to, line)
}

// Of a number in billionths: a minus where it is below zero.
pub(crate) fn put_performance(number: i64, at: usize, line: &mut [u8]) -> usize
    requires { Room 31 at line.old }
    ensures { Put (performance_text number) at line.old result line.new }
{
    let to = put_decimals(size(number), at, line);
    if 0 <= number {
        return to;
    }
    put_byte(b'-', to, line)
}

pub(crate) fn put_type(typed: FigureType, at: usize, line: &mut [u8]) -> usize
    requires { Room 10 at line.old }
    ensures { Put (type_text typed) at line.old result line.new }
{
    match typed {
        FigureType::Calculated => put_word(b"Calculated", at, line),
        FigureType::Default => put_word(b"Default", at, line),
    }
}

pub(crate) fn put_version(version: u16, at: usize, line: &mut [u8]) -> usize
    requires { Room 21 at line.old }
    ensures put { Put (version_text version) at line.old result line.new }
    ensures at_bound { at ≤ result + 6 }
{
    let to = put_byte(b'\n', at, line);
    put_number(version as u64, to, line)
}

// A performance in billionths of a MWHz: the nearest of 2/15 of its size, with its sign. Twice the remainder meets no half, since 15 is odd.
pub(crate) fn in_billionths(performance: i64) -> i64
    ensures { result ≡ billionths performance }
{
    let whole = size(performance);
    let near = (2 * (whole / 15) + (2 * (whole % 15) + 7) / 15) as i64;
    if performance < 0 {
        return -near;
    }
    near
}
