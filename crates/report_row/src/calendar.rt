// Dates from 01/01/2000 on, by days and back, without a walk over years.
ghost use Rattle.std.specs.Prelude.{◌≡◌, ◌≤◌, ◌<◌};
ghost use Rattle.integers.specs.Sums.{sumℕ};
ghost use Rattle.rules.specs.Calendar.{leap, month_days, year_days, year_of, date_after, days_to};
ghost use Rattle.report_row.specs.Dates.{date_of, Dated, last_day, month_in};

const FIRST_YEAR: u32 = 2_000;

// A date as people count it: month and day from 1.
#[derive(Clone, Copy)]
pub(crate) struct Date {
    pub(crate) year: u16,
    pub(crate) month: u8,
    pub(crate) day: u8,
}

fn is_leap(year: u32) -> bool
    ensures { result ≡ leap year }
{
    if year % 4 != 0 {
        return false;
    }
    if year % 100 != 0 {
        return true;
    }
    year % 400 == 0
}

// The days of so many years from 2000 on: 365 each, and one for each leap year among them, the first of which is 2000.
fn year_start(years: u32) -> u32
    requires { years ≤ 7_999 }
    ensures { result ≡ sumℕ years year_days }
{
    365 * years + (years + 3) / 4 + (years + 399) / 400 - (years + 99) / 100
}

// The year in which a day falls, from 2000. By the mean year of 146097 / 400 days it is the true one, or one too late.
fn year_of(days: u32) -> u32
    requires { days ≤ last_day }
    ensures { result ≡ (year_of days).piece }
{
    let years = (400 * days + 396) / 146_097;
    if days < year_start(years) {
        return years - 1;
    }
    years
}

// The days of so many months from January on: as though February had 30, less those that it lacks.
fn month_start(in_leap: bool, months: u32) -> u32
    requires { months ≤ 12 }
    ensures { result ≡ sumℕ months (month_days in_leap) }
{
    let days = (367 * months + 5) / 12;
    if months < 2 {
        return days;
    }
    if in_leap {
        return days - 1;
    }
    days - 2
}

// The month in which a day of a year falls, from 0. By months of 32 days it is the true one, or one too early.
fn month_of(in_leap: bool, day: u32) -> u32
    requires { day < sumℕ 12 (month_days in_leap) }
    ensures { result ≡ (month_in in_leap day).piece }
{
    let months = day / 32;
    if day < month_start(in_leap, months + 1) {
        return months;
    }
    months + 1
}

// The date so many days after 01/01/2000.
pub(crate) fn date_after(days: u32) -> Date
    requires { days ≤ last_day }
    ensures { date_of result ≡ date_after days }
{
    let years = year_of(days);
    let year = FIRST_YEAR + years;
    let in_leap = is_leap(year);
    let in_year = days - year_start(years);
    let months = month_of(in_leap, in_year);
    let in_month = in_year - month_start(in_leap, months);
    Date {
        year: year as u16,
        month: (months + 1) as u8,
        day: (in_month + 1) as u8,
    }
}

// And back: the days from 01/01/2000 to a date.
pub(crate) fn days_to(date: Date) -> u32
    requires { Dated (date_of date) }
    ensures { result ≡ days_to (date_of date) }
{
    let year = date.year as u32;
    let before = month_start(is_leap(year), date.month as u32 - 1);
    year_start(year - FIRST_YEAR) + (before + (date.day as u32 - 1))
}
