// A row that was read, or its refusal, as a line of words.
ghost use Rattle.std.specs.Prelude.{◌≡◌};
ghost use Rattle.rules.specs.Text.{integer};
ghost use Rattle.rules.specs.ReportRow.{region_text, type_text};
ghost use Rattle.printing.specs.Lines.{line, with_byte, with_word};
ghost use Rattle.report_rows.specs.Rows.{with_whose, with_figure, with_row, with_refusal};

use listing::pieces::size;
use printing::{TEXT, print, put_below, put_number, put_word};
use rules::{
    Figure, FigureType, Refusal, RegionName, ReportRow, Reported, refusal_number, refusal_point,
};

fn put_integer(number: i64, at: usize, text: &mut [u8; TEXT]) -> usize
    ensures { line result text.new ≡ with_word (integer number) (line at text.old) }
{
    if number < 0 {
        return put_below(size(number), at, text);
    }
    put_number(size(number), at, text)
}

fn put_region(region: RegionName, at: usize, text: &mut [u8; TEXT]) -> usize
    ensures { line result text.new ≡ with_word (region_text region) (line at text.old) }
{
    match region {
        RegionName::Qld1 => put_word(b"QLD1", at, text),
        RegionName::Nsw1 => put_word(b"NSW1", at, text),
        RegionName::Vic1 => put_word(b"VIC1", at, text),
        RegionName::Sa1 => put_word(b"SA1", at, text),
        RegionName::Tas1 => put_word(b"TAS1", at, text),
    }
}

fn put_type(typed: FigureType, at: usize, text: &mut [u8; TEXT]) -> usize
    ensures { line result text.new ≡ with_word (type_text typed) (line at text.old) }
{
    match typed {
        FigureType::Calculated => put_word(b"Calculated", at, text),
        FigureType::Default => put_word(b"Default", at, text),
    }
}

fn put_unit(number: u16, at: usize, text: &mut [u8; TEXT]) -> usize
    ensures { line result text.new ≡ with_whose (Reported.Unit number) (line at text.old) }
{
    let to = put_word(b"unit", at, text);
    put_number(number as u64, to, text)
}

fn put_residual(region: RegionName, at: usize, text: &mut [u8; TEXT]) -> usize
    ensures { line result text.new ≡ with_whose (Reported.Residual region) (line at text.old) }
{
    let to = put_word(b"residual", at, text);
    put_region(region, to, text)
}

fn put_whose(whose: Reported, at: usize, text: &mut [u8; TEXT]) -> usize
    ensures { line result text.new ≡ with_whose whose (line at text.old) }
{
    match whose {
        Reported::Unit(number) => put_unit(number, at, text),
        Reported::Residual(region) => put_residual(region, at, text),
    }
}

// Billionths, and their type.
fn put_figure(figure: Figure, at: usize, text: &mut [u8; TEXT]) -> usize
    ensures { line result text.new ≡ with_figure figure (line at text.old) }
{
    let typed = figure.typed;
    let to = put_integer(figure.performance, at, text);
    put_type(typed, to, text)
}

fn put_row(row: ReportRow, text: &mut [u8; TEXT]) -> usize
    ensures { line result text.new ≡ with_row row (line 0 text.old) }
{
    let whose = row.whose;
    let raise = row.raise;
    let lower = row.lower;
    let mut at = put_number(row.interval as u64, 0, text);
    at = put_whose(whose, at, text);
    at = put_figure(raise, at, text);
    at = put_figure(lower, at, text);
    put_number(row.version as u64, at, text)
}

// Number, the row's place among the rows, and its first wrong column.
fn put_refusal(row: u64, refusal: Refusal, text: &mut [u8; TEXT]) -> usize
    ensures { line result text.new ≡ with_refusal row refusal (line 0 text.old) }
{
    let mut at = put_word(b"refused", 0, text);
    at = put_number(refusal_number(refusal) as u64, at, text);
    at = put_number(row, at, text);
    put_number(refusal_point(refusal) as u64, at, text)
}

// Each writes its line; whether it was written.
pub(crate) fn print_row(row: ReportRow, text: &mut [u8; TEXT]) -> bool
    ensures { text.new ≡ (with_byte 10 (with_row row (line 0 text.old))).bytes }
{
    let at = put_row(row, text);
    print(at, text)
}

pub(crate) fn print_refusal(row: u64, refusal: Refusal, text: &mut [u8; TEXT]) -> bool
    ensures { text.new ≡ (with_byte 10 (with_refusal row refusal (line 0 text.old))).bytes }
{
    let at = put_refusal(row, refusal, text);
    print(at, text)
}
