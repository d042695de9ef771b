// rules: what the interval calculator works out, as definitions. They stand in specs/, in the order in which a book is read and
// worked through. Here are the few types that definitions and code share, and the number of a refusal.
#![tactic(auto)]

ghost use Rattle.std.specs.Prelude.{◌≡◌};
ghost use Rattle.rules.specs.Refusals.{number, point, located};

pub const MOST_UNITS: u16 = 512;

// A factor's whole, in billionths.
pub const BILLION: u64 = 1_000_000_000;

// Raise is wanted where frequency is low, lower where it is high. Every rule is one definition, by the direction.
#[derive(Clone, Copy)]
pub enum Direction {
    Raise,
    Lower,
}

#[derive(Clone, Copy)]
pub enum Kind {
    Generation,
    Load,
}

// Why a default stands in.
#[derive(Clone, Copy)]
pub enum Reason {
    UnreliableRegion,
    BadUnit,
    NoGoodUnit,
}

#[derive(Clone, Copy)]
pub enum Standing {
    Live,
    Default(Reason),
}

// Whose week of record a default is worked out from: a unit's, that of a group of so many units, or one region's residual's.
#[derive(Clone, Copy)]
pub enum Whose {
    Unit,
    Group(u16),
    Residual,
}

// How many intervals of a week were live, and the default that they give.
#[derive(Clone, Copy)]
pub struct WeekDefault {
    pub count: u16,
    pub default: i64,
}

// A week of record while it runs: the intervals seen, how many of them were live, and the total of what the live ones fell short by, in two
// digits, `high` of what a residual can reach in one interval, and `low`.
#[derive(Clone, Copy)]
pub struct RunningWeek {
    pub seen: u16,
    pub live: u16,
    pub high: u16,
    pub low: u64,
}

// A side of the performances: those above zero, or those below.
#[derive(Clone, Copy)]
pub enum Side {
    Positive,
    Negative,
}

// What is wrong with a sheet of factors: nothing, its first wrong member, from 1, or the side whose sum is off.
#[derive(Clone, Copy)]
pub enum Verdict {
    Possible,
    WrongMember(u16),
    WrongSide(Side),
}

// What the box says no with, in the order of the numbers 1 to 6, 9 to 12, 14 to 18, 71 to 74 and 81 to 84. None has the number 7, 8 or 13, and none
// will (02, R-1 and R-10). A refused point or reading says which, t = 1 to 75, and a report's row its first wrong column, 1 to 7.
#[derive(Clone, Copy)]
pub enum Refusal {
    EndsEarly,
    WrongMark,
    WrongTable,
    BytesFollow,
    WrongCount,
    SettingsField,
    UnitNotRising,
    RequirementField,
    WrongState,
    TooShort,
    AverageTooLow,
    YearPast,
    WrongGroup,
    WrongWeek,
    WrongRow(u8),
    FrequencyHeader,
    FrequencyDefault,
    FrequencyQuality,
    FrequencyPoint(u8),
    UnitHeader,
    UnitDefault,
    UnitQuality,
    UnitReading(u8),
}

// A refusal, and the place in its body of the record that it is about, from 1; 0 where there is none.
#[derive(Clone, Copy)]
pub struct Located {
    pub refusal: Refusal,
    pub place: u16,
}

// The small record of a trend strip, in MW: its lowest, its highest and its last point.
#[derive(Clone, Copy)]
pub struct Strip {
    pub lowest: f32,
    pub highest: f32,
    pub last: f32,
}

// A unit's trend: its strip was drawn; or the unit is bad, nothing was drawn, and the record holds zeros; or a refusal.
#[derive(Clone, Copy)]
pub enum Trend {
    Drawn(Strip),
    Bad(Strip),
    Refused(Refusal),
}

// The five regions, by the names that they print as.
#[derive(Clone, Copy)]
pub enum RegionName {
    Qld1,
    Nsw1,
    Vic1,
    Sa1,
    Tas1,
}

// Whose a row of the performance report is: a member's, by its unit number (a group's by its primary's), or a region's residual's.
#[derive(Clone, Copy)]
pub enum Reported {
    Unit(u16),
    Residual(RegionName),
}

// The type of a report's performance: it was calculated, or a default stands in.
#[derive(Clone, Copy)]
pub enum FigureType {
    Calculated,
    Default,
}

// A performance with its type.
#[derive(Clone, Copy)]
pub struct Figure {
    pub performance: i64,
    pub typed: FigureType,
}

// A row of the performance report. Raise and lower are performances where a row is written, and billionths of a MWHz where one was read.
#[derive(Clone, Copy)]
pub struct ReportRow {
    pub interval: u32,
    pub whose: Reported,
    pub raise: Figure,
    pub lower: Figure,
    pub version: u16,
}

// What a display shows: of which book, of which requirement, and which of its pages, 0 the first.
#[derive(Clone, Copy)]
pub struct Page {
    pub book: u32,
    pub requirement: u32,
    pub page: u32,
}

// The panel's keys; `Show` is none of them, and draws again.
#[derive(Clone, Copy)]
pub enum Key {
    Show,
    Next,
    Previous,
    Home,
}

// The number that the box shows.
pub fn refusal_number(refusal: Refusal) -> u32
    ensures { result ≡ number refusal }
{
    match refusal {
        Refusal::EndsEarly => 1,
        Refusal::WrongMark => 2,
        Refusal::WrongTable => 3,
        Refusal::BytesFollow => 4,
        Refusal::WrongCount => 5,
        Refusal::SettingsField => 6,
        Refusal::UnitNotRising => 9,
        Refusal::RequirementField => 10,
        Refusal::WrongState => 11,
        Refusal::TooShort => 12,
        Refusal::AverageTooLow => 14,
        Refusal::YearPast => 15,
        Refusal::WrongGroup => 16,
        Refusal::WrongWeek => 17,
        Refusal::WrongRow(_) => 18,
        Refusal::FrequencyHeader => 71,
        Refusal::FrequencyDefault => 72,
        Refusal::FrequencyQuality => 73,
        Refusal::FrequencyPoint(_) => 74,
        Refusal::UnitHeader => 81,
        Refusal::UnitDefault => 82,
        Refusal::UnitQuality => 83,
        Refusal::UnitReading(_) => 84,
    }
}

// t of a refused point or reading, the column of a refused row, and 0 where there is none.
pub fn refusal_point(refusal: Refusal) -> u8
    ensures { result ≡ point refusal }
{
    match refusal {
        Refusal::WrongRow(column) => column,
        Refusal::FrequencyPoint(t) => t,
        Refusal::UnitReading(t) => t,
        _ => 0,
    }
}

// A refusal with the place of its record; 11 has none.
pub fn locate(place: u16, refusal: Refusal) -> Located
    ensures { result ≡ located place refusal }
{
    match refusal {
        Refusal::WrongState => Located {
            refusal: refusal,
            place: 0,
        },
        _ => Located {
            refusal: refusal,
            place: place,
        },
    }
}
