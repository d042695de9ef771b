// The call that reads a row.
ghost use Rattle.std.specs.Prelude.{◌≡◌, ◌<◌, ◌≤◌, length, drop};
ghost use Rattle.report_row.specs.Promises.{read_answer, ReadPromise};
ghost use Rattle.report_row.specs.Reading.{ColumnAt, FigureAt, version_on, lower_on, raise_on};

use super::columns_in::{interval_in, performance_in, type_in, version_in, whose_in};
use rules::{Figure, Refusal, ReportRow, Reported};

// Where a column ends, and where the next one starts.
#[derive(Clone, Copy)]
struct Column {
    end: usize,
    next: usize,
}

// The column that starts at `from`: it ends before its comma, or with the row, and then the next one is empty.
fn column_at(from: usize, row: &[u8]) -> Column
    requires { from ≤ length row.now }
    ensures { ColumnAt row.now from result.end result.next }
{
    for end in from..row.len() {
        if row[end] == b',' {
            return Column { end, next: end + 1 };
        }
    }
    Column {
        end: row.len(),
        next: row.len(),
    }
}

// Columns k and k + 1, and where the column behind them starts: raise and lower are read alike.
fn figure_in(k: u8, from: usize, row: &[u8]) -> Result<(Figure, usize), Refusal>
    requires { (k < 255) × (from ≤ length row.now) }
    ensures { FigureAt k row.now from result }
{
    let number = column_at(from, row);
    let number_end = number.end;
    let performance = performance_in(&row[from..number_end]).ok_or(Refusal::WrongRow(k))?;
    let typed_from = number.next;
    let word = column_at(typed_from, row);
    let word_end = word.end;
    let typed = type_in(&row[typed_from..word_end]).ok_or(Refusal::WrongRow(k + 1))?;
    Ok((Figure { performance, typed }, word.next))
}

// The row, when only its last column is left.
fn version_read(
    interval: u32,
    whose: Reported,
    raise: Figure,
    lower: Figure,
    column: &[u8],
) -> Result<ReportRow, Refusal>
    ensures { result ≡ read_answer (version_on interval whose raise lower column.now) }
{
    let version = version_in(column).ok_or(Refusal::WrongRow(7))?;
    Ok(ReportRow {
        interval,
        whose,
        raise,
        lower,
        version,
    })
}

// The row, from the lower performance on.
fn lower_read(
    interval: u32,
    whose: Reported,
    raise: Figure,
    from: usize,
    row: &[u8],
) -> Result<ReportRow, Refusal>
    requires { from ≤ length row.now }
    ensures { result ≡ read_answer (lower_on interval whose raise (drop from row.now)) }
{
    let (lower, next) = figure_in(5, from, row)?;
    version_read(interval, whose, raise, lower, &row[next..])
}

// The row, from the raise performance on.
fn raise_read(interval: u32, whose: Reported, from: usize, row: &[u8]) -> Result<ReportRow, Refusal>
    requires { from ≤ length row.now }
    ensures { result ≡ read_answer (raise_on interval whose (drop from row.now)) }
{
    let (raise, next) = figure_in(3, from, row)?;
    lower_read(interval, whose, raise, next, row)
}

// Reads a row back, its performances in billionths of a MWHz. Refuses 18 with its first wrong column, from 1, for a row that the writer never makes.
pub fn read_row(row: &[u8]) -> Result<ReportRow, Refusal>
    ensures { ReadPromise row.now result }
{
    let date = column_at(0, row);
    let date_end = date.end;
    let interval = interval_in(&row[..date_end]).ok_or(Refusal::WrongRow(1))?;
    let name_from = date.next;
    let name = column_at(name_from, row);
    let name_end = name.end;
    let whose = whose_in(&row[name_from..name_end]).ok_or(Refusal::WrongRow(2))?;
    raise_read(interval, whose, name.next, row)
}
