// The call that writes a row.
ghost use Rattle.std.specs.Prelude.{◌≡◌, ◌+◌, ◌≤◌, length};
ghost use Rattle.rules.specs.Calendar.{last_interval};
ghost use Rattle.rules.specs.ReportRow.{report_row};
ghost use Rattle.listing.specs.Pieces.{Room, Put};
ghost use Rattle.report_row.specs.Columns.{figure_text};
ghost use Rattle.report_row.specs.Promises.{WritePromise};

use super::columns::{
    in_billionths, put_interval, put_performance, put_type, put_version, put_whose,
};
use super::pieces::put_byte;
use super::{LAST_INTERVAL, ROW_MOST};
use listing::pieces::put_word;
use rules::{Figure, Refusal, ReportRow};

// A performance and its type, each with a comma behind it.
fn put_figure(figure: Figure, at: usize, line: &mut [u8]) -> usize
    requires { Room 43 at line.old }
    ensures put { Put (figure_text figure) at line.old result line.new }
    ensures at_bound { at ≤ result + 33 }
{
    let typed = figure.typed;
    let mut to = put_byte(b',', at, line);
    to = put_type(typed, to, line);
    to = put_byte(b',', to, line);
    put_performance(in_billionths(figure.performance), to, line)
}

// The whole row, at the end of a line that is as long as the longest.
fn put_row(row: ReportRow, line: &mut [u8]) -> usize
    requires { (length line.old ≡ 106) × (row.interval ≤ last_interval) }
    ensures { Put (report_row row) 106 line.old result line.new }
{
    let whose = row.whose;
    let raise = row.raise;
    let lower = row.lower;
    let mut to = put_version(row.version, ROW_MOST, line);
    to = put_figure(lower, to, line);
    to = put_figure(raise, to, line);
    to = put_byte(b',', to, line);
    to = put_whose(whose, to, line);
    to = put_byte(b',', to, line);
    put_interval(row.interval, to, line)
}

// Writes a row into the lent text and says the row's length; bytes behind it stay. Refuses 15 for a year past 9999, then 12 for a text that is shorter than the row.
pub fn write_row(row: ReportRow, text: &mut [u8]) -> Result<u32, Refusal>
    ensures { WritePromise row text.old result text.new }
{
    if LAST_INTERVAL < row.interval {
        return Err(Refusal::YearPast);
    }
    let mut line = [0u8; ROW_MOST];
    let start = put_row(row, &mut line);
    let length = ROW_MOST - start;
    if text.len() < length {
        return Err(Refusal::TooShort);
    }
    put_word(&line[start..], length, text);
    Ok(length as u32)
}
