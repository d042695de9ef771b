// dullavane: the calls as the firmware makes them from C. Only numbers and lists cross over; the tally stands in eight lent words. A call answers 0, or the
// refusal, the calls that take a book with its place and t, and then nothing lent has changed but by the records that a run added before it.
#![tactic(auto)]

ghost use Rattle.interval.specs.Lent.{Lent, lent_frequency, lent_unit, lent_answer, lent_member};
ghost use Rattle.answer.specs.Promises.{columns};
ghost use Rattle.dullavane.specs.Answers.{AnswerCalled};
ghost use Rattle.dullavane.specs.Asked.{MemberCalled};
ghost use Rattle.dullavane.specs.Verdicts.{SheetCalled};
ghost use Rattle.dullavane.specs.Trends.{TrendCalled};
ghost use Rattle.answer.specs.Report.{lent_report};
ghost use Rattle.dullavane.specs.Reports.{row_narrow, row_in, RowCalled, ReportCalled, ReadCalled};
ghost use Rattle.dullavane.specs.Writing.{WriteCalled, handed_in};
ghost use Rattle.dullavane.specs.Weekly.{WeekCalled, WeeksCalled, WeekAddCalled, WeekReadCalled};
ghost use Rattle.dullavane.specs.Runs.{UnitsCalled};
ghost use Rattle.dullavane.specs.Promises.{ContentsCalled, SettingsCalled, FrequencyCalled, UnitCalled, RequirementCalled};

use answer::report::report;
use answer::roster::member;
use asked::{asked, direction_of, narrow_asked, tell_answer, tell_row};
use frequencies::frequency::frequency;
use interval::contents::contents;
use interval::requirement::requirement;
use interval::settings::settings;
use report_row::read::read_row;
use report_row::write::write_row;
use reports::{row_narrow, tell_row_read, tell_row_written, type_in, whose_in};
use rules::{Figure, Refusal, ReportRow, locate, refusal_number};
use runs::{FIRST_PLACE, tell_run, unheld_told};
use sheets::sheet;
use strip::trend;
use trends::{tell_trend, trend_fits};
use units::run::run;
use units::unit::unit;
use verdicts::{VERDICT_WORDS, tell_verdict};
use weekly::{DEFAULT_NUMBERS, as_group, tell_default, tell_week, week_held, week_in, week_unheld};
use weeks::list::week;
use weeks::roster::{roster, whose_of};
use weeks::running::{add, read};
use words::{OVER_16_BITS, TALLY_WORDS, held, put_words, said, tell};
use writer::SettingsRow;
use writer::write::write;
use writing::tell_written;

pub mod asked;
mod reports;
mod runs;
mod trends;
mod verdicts;
mod weekly;
mod words;
mod writing;

// How many words tell who stands in a row.
const MEMBER_WORDS: usize = 3;

// How many numbers a row of the report is read back into.
const ROW_NUMBERS: usize = 8;

// How many words an answer's figures take.
const REPLY_WORDS: usize = 8;

// Starts a tally. Refuses 12 for fewer than eight words, then 1, 2, 3 and 5.
pub fn dullavane_contents(part: &[u8], tally: &mut [u32]) -> u64
    ensures { ContentsCalled part.now tally.old result tally.new }
{
    if tally.len() < TALLY_WORDS {
        return said(locate(0, Refusal::TooShort));
    }
    let opened = contents(part);
    match opened {
        Ok(fresh) => {
            put_words(fresh, tally);
            0
        }
        Err(refusal) => said(locate(0, refusal)),
    }
}

// Takes the settings. Refuses 12 for the tally's words, 11, then 1 and 6.
pub fn dullavane_settings(tally: &mut [u32], part: &[u8]) -> u64
    ensures { SettingsCalled tally.old part.now result tally.new }
{
    match held(tally) {
        Ok(before) => tell(settings(before, part), tally),
        Err(refusal) => refusal_number(refusal) as u64,
    }
}

// Takes the frequency record of the next region. Refuses 12 for the tally's words, 11, 12, then 1 and 71 to 74.
pub fn dullavane_frequency(
    tally: &mut [u32],
    part: &[u8],
    measures: &mut [i32],
    sums: &mut [i64],
    figures: &mut [i64],
) -> u64
    ensures { (rest : Lent) → FrequencyCalled tally.old part.now
        (lent_frequency rest measures.old sums.old figures.old) result tally.new
        (lent_frequency rest measures.new sums.new figures.new) }
{
    match held(tally) {
        Ok(before) => {
            let step = frequency(before, part, measures, sums, figures);
            tell(step, tally)
        }
        Err(refusal) => refusal_number(refusal) as u64,
    }
}

// Takes a unit. Refuses 12 for the tally's words, 11, 12, 11 for lent numbers, then 1, 81 to 84 and 9.
pub fn dullavane_unit(
    tally: &mut [u32],
    part: &[u8],
    measures: &[i32],
    sums: &mut [i64],
    figures: &[i64],
    numbers: &mut [u16],
    homes: &mut [u8],
    rows: &mut [i64],
    groups: &mut [u16],
    deviations: &mut [i64],
) -> u64
    ensures { UnitCalled tally.old part.now
        (lent_unit measures.now sums.old figures.now numbers.old homes.old rows.old
        groups.old deviations.old) result
        tally.new
        (lent_unit measures.now sums.new figures.now numbers.new homes.new rows.new
        groups.new deviations.new) }
{
    match held(tally) {
        Ok(before) => {
            let step = unit(
                before, part, measures, sums, figures, numbers, homes, rows, groups, deviations,
            );
            tell(step, tally)
        }
        Err(refusal) => refusal_number(refusal) as u64,
    }
}

// Takes a run of units up to the first refused one, which is named by its place in the run; the records before it stay added. Refuses 1 for a run that is not
// whole, before anything else, then record by record what the unit call refuses. An empty run changes nothing.
pub fn dullavane_units(
    tally: &mut [u32],
    records: &[u8],
    measures: &[i32],
    sums: &mut [i64],
    figures: &[i64],
    numbers: &mut [u16],
    homes: &mut [u8],
    rows: &mut [i64],
    groups: &mut [u16],
    deviations: &mut [i64],
) -> u64
    ensures { UnitsCalled tally.old records.now
        (lent_unit measures.now sums.old figures.now numbers.old homes.old rows.old
        groups.old deviations.old) result
        tally.new
        (lent_unit measures.now sums.new figures.now numbers.new homes.new rows.new
        groups.new deviations.new) }
{
    match held(tally) {
        Ok(before) => {
            let step = run(
                before, records, measures, sums, figures, numbers, homes, rows, groups, deviations,
            );
            tell_run(step, tally)
        }
        Err(refusal) => unheld_told(records, refusal_number(refusal) as u64 + FIRST_PLACE),
    }
}

// Takes a requirement. Refuses 12 for the tally's words, 11, then 1 and 10, then, with the last one, 4.
pub fn dullavane_requirement(tally: &mut [u32], part: &[u8]) -> u64
    ensures { RequirementCalled tally.old part.now result tally.new }
{
    match held(tally) {
        Ok(before) => tell(requirement(before, part), tally),
        Err(refusal) => refusal_number(refusal) as u64,
    }
}

// Answers a requirement: its members' numbers in the columns, its figures in eight words. Refuses 12 for the tally's words, 11 before the last unit,
// 12, 11 for lent numbers, then 1 and 10.
pub fn dullavane_answer(
    tally: &[u32],
    part: &[u8],
    measures: &[i32],
    sums: &[i64],
    figures: &[i64],
    homes: &[u8],
    rows: &[i64],
    performances: &mut [i64],
    factors: &mut [i64],
    payments: &mut [i64],
    used: &mut [i64],
    unused: &mut [i64],
    reply: &mut [u64],
) -> u32
    ensures { (rest : Lent) → AnswerCalled tally.now part.now
        (lent_answer rest measures.now sums.now figures.now homes.now rows.now)
        (columns performances.old factors.old payments.old used.old unused.old)
        reply.old result
        (columns performances.new factors.new payments.new used.new unused.new)
        reply.new }
{
    match asked(tally, true, REPLY_WORDS <= reply.len()) {
        Ok(before) => {
            let answered = answer::call::answer(
                before,
                part,
                measures,
                sums,
                figures,
                homes,
                rows,
                performances,
                factors,
                payments,
                used,
                unused,
            );
            tell_answer(answered, reply)
        }
        Err(refusal) => refusal_number(refusal),
    }
}

// Who stands in a row, for a requirement of this direction and region set: three words. Refuses 12 for the tally's words, 11 out of turn or
// for a number over its width, 12 for the three words, then as `member` does: 11 for row and set, 12 for lists, 11 for lent numbers.
pub fn dullavane_member(
    tally: &[u32],
    row: u32,
    direction: u32,
    set: u32,
    figures: &[i64],
    numbers: &[u16],
    homes: &[u8],
    words: &mut [u32],
) -> u32
    ensures { (rest : Lent) → MemberCalled tally.now row direction set
        (lent_member rest figures.now numbers.now homes.now) words.old result words.new }
{
    let narrow = narrow_asked(row, direction, set);
    match asked(tally, narrow, MEMBER_WORDS <= words.len()) {
        Ok(before) => {
            let toward = direction_of(direction);
            let found = member(
                before, row as u16, toward, set as u8, figures, numbers, homes,
            );
            tell_row(found, words)
        }
        Err(refusal) => refusal_number(refusal),
    }
}

// Count and default of a member's week, in two numbers. Refuses 12, 5 for who the member is, 17, then 14.
pub fn dullavane_week(whose: u16, performances: &[i64], live: &[u8], reply: &mut [i64]) -> u32
    ensures { WeekCalled whose performances.now live.now reply.old result reply.new }
{
    if reply.len() < DEFAULT_NUMBERS {
        return refusal_number(Refusal::TooShort);
    }
    tell_default(week(whose_of(whose), performances, live), reply)
}

// The same for a whole roster, the members' weeks one after another. Refuses 12, then for all members 5, 17 and 14.
pub fn dullavane_weeks(
    intervals: u32,
    whose: &[u16],
    performances: &[i64],
    live: &[u8],
    counts: &mut [u16],
    defaults: &mut [i64],
) -> u32
    ensures { WeeksCalled intervals whose.now performances.now live.now
        counts.old defaults.old result counts.new defaults.new }
{
    let written = roster(intervals, whose, performances, live, counts, defaults);
    match written {
        Ok(()) => 0,
        Err(refusal) => refusal_number(refusal),
    }
}

// Adds an interval to a running week, live unless the flag is 0. Refuses 12 for the week's words, 11, 5, then 17.
pub fn dullavane_week_add(whose: u16, live: u8, performance: i64, week: &mut [u64]) -> u32
    ensures { WeekAddCalled whose live performance week.old result week.new }
{
    let refusal = week_unheld(week);
    if refusal != 0 {
        return refusal;
    }
    let added = add(as_group(whose), live != 0, performance, week_in(week));
    tell_week(added, week)
}

// Reads count and default off a running week. Refuses 12 for either list, 11, 5, then 14.
pub fn dullavane_week_read(whose: u16, week: &[u64], reply: &mut [i64]) -> u32
    ensures { WeekReadCalled whose week.now reply.old result reply.new }
{
    if reply.len() < DEFAULT_NUMBERS {
        return refusal_number(Refusal::TooShort);
    }
    match week_held(week) {
        Ok(running) => tell_default(read(whose_of(whose), running), reply),
        Err(refusal) => refusal_number(refusal),
    }
}

// Is a factor sheet possible? What is wrong and the member, from 1, in two words. Refuses 12 for fewer than two words, then 5 for more than 513 factors, 12
// where factors and performances differ in number, and 5 where a side's absolute total passes the limit of W.
pub fn dullavane_sheet(performances: &[i64], factors: &[i64], verdict: &mut [u64]) -> u32
    ensures { SheetCalled performances.now factors.now verdict.old result verdict.new }
{
    if verdict.len() < VERDICT_WORDS {
        return refusal_number(Refusal::TooShort);
    }
    tell_verdict(sheet(performances, factors), verdict)
}

// Writes a book from its values: settings by value, a row of numbers a record and the long fields in lists of their own type. Its length, or the refusal with
// place
// and t. Refuses 12 by the counts as given, 5, then what the reader would refuse, in the order of the book.
pub fn dullavane_write(
    smoothing: i64,
    limit: i64,
    percent: i64,
    interval: i64,
    region_rows: &[i64],
    region_qualities: &[u8],
    frequencies: &[u32],
    units: u32,
    unit_rows: &[i64],
    unit_qualities: &[u8],
    readings: &[i32],
    requirements: u32,
    requirement_rows: &[i64],
    book: &mut [u8],
) -> u64
    ensures { WriteCalled
        (handed_in smoothing limit percent interval region_rows.now region_qualities.now frequencies.now units
        unit_rows.now unit_qualities.now readings.now requirements requirement_rows.now)
        book.old result book.new }
{
    let settings = SettingsRow {
        smoothing,
        limit,
        percent,
        interval,
    };
    tell_written(write(
        settings,
        region_rows,
        region_qualities,
        frequencies,
        units,
        unit_rows,
        unit_qualities,
        readings,
        requirements,
        requirement_rows,
        book,
    ))
}

// Draws the trend strip of the unit whose record `part` starts with: 75 points in MW, lowest, highest and last, and how many points are drawn, 75 or 0 for a
// bad unit. The refusal with its t; place 0. Refuses 12 for each of the three lists, then 1, 81, 82, 83 and 84.
pub fn dullavane_trend(part: &[u8], points: &mut [f32], strip: &mut [f32], drawn: &mut [u32]) -> u64
    ensures { TrendCalled part.now points.old strip.old drawn.old result
        points.new strip.new drawn.new }
{
    if !trend_fits(strip.len(), drawn.len()) {
        return refusal_number(Refusal::TooShort) as u64;
    }
    tell_trend(trend(part, points), strip, drawn)
}

// Writes a row of the performance report from its numbers: its length, or the refusal. Refuses 11 for a number over its field, 15, then 12 for the text.
pub fn dullavane_report_row(
    interval: u32,
    residual: u32,
    number: u32,
    raise: i64,
    raise_type: u32,
    lower: i64,
    lower_type: u32,
    version: u32,
    text: &mut [u8],
) -> u64
    ensures { RowCalled (row_narrow residual number raise_type lower_type version)
        (row_in interval residual number raise raise_type lower lower_type version) text.old result text.new }
{
    if !row_narrow(residual, number, raise_type, lower_type, version) {
        return refusal_number(Refusal::WrongState) as u64;
    }
    let row = ReportRow {
        interval: interval,
        whose: whose_in(residual, number),
        raise: Figure {
            performance: raise,
            typed: type_in(raise_type),
        },
        lower: Figure {
            performance: lower,
            typed: type_in(lower_type),
        },
        version: version as u16,
    };
    tell_row_written(write_row(row, text))
}

// Writes a row of a taken book's report, 0 the first: the members in roster order, then the five regions' residuals. Refuses 12 for the tally's words, 11 out
// of turn or for a version over 16 bits, then as `report` does: 12 for lists, 11 for lent numbers and a row past the last; then 15, and 12 for the text.
pub fn dullavane_report(
    tally: &[u32],
    row: u32,
    version: u32,
    figures: &[i64],
    numbers: &[u16],
    homes: &[u8],
    rows: &[i64],
    text: &mut [u8],
) -> u64
    ensures { (rest : Lent) → ReportCalled tally.now row version
        (lent_report rest figures.now numbers.now homes.now rows.now) text.old result text.new }
{
    match asked(tally, version < OVER_16_BITS, true) {
        Ok(before) => {
            let found = report(before, row, version as u16, figures, numbers, homes, rows);
            match found {
                Ok(shown) => tell_row_written(write_row(shown, text)),
                Err(why) => said(locate(0, why)),
            }
        }
        Err(refusal) => refusal_number(refusal) as u64,
    }
}

// Reads a row of the report back into eight numbers. Refuses 12 for fewer, then 18 with the first wrong column as t.
pub fn dullavane_report_read(row: &[u8], numbers: &mut [i64]) -> u64
    ensures { ReadCalled row.now numbers.old result numbers.new }
{
    if ROW_NUMBERS <= numbers.len() {
        return tell_row_read(read_row(row), numbers);
    }
    refusal_number(Refusal::TooShort) as u64
}
