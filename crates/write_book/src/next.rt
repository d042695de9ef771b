// What has to stand next in a text: `settings` and 4 numbers; five times `region` and its 9, then 75 points; for each unit `unit` and its 12, then 75 readings;
// for each requirement `requirement` and its 7.
ghost use Rattle.std.specs.Prelude.{◌≤◌};

use super::words::Found;
use book::{POINTS, REGIONS};
use writer::{REGION_ROW, REQUIREMENT_ROW, UNIT_ROW};

// One more than a book can have: the units and requirements past that are read, and neither counted nor kept.
pub(crate) const UNITS: u32 = 513;

pub(crate) const REQUIREMENTS: u32 = 33;

#[derive(Clone, Copy)]
pub(crate) enum Next {
    Settings,
    Setting,
    Region,
    RegionNumber,
    Point,
    UnitOrRequirement,
    UnitNumber,
    UnitReading,
    Requirement,
    RequirementNumber,
}

// What comes next, in which column or at which point, and how many regions, units and requirements are whole.
#[derive(Clone, Copy)]
pub(crate) struct Place {
    pub(crate) next: Next,
    pub(crate) column: usize,
    pub(crate) regions: usize,
    pub(crate) units: u32,
    pub(crate) requirements: u32,
}

// What is to be kept of a word: a number, and its place in its list.
#[derive(Clone, Copy)]
pub(crate) enum Note {
    Nothing,
    Setting(usize, i64),
    RegionNumber(usize, i64),
    Point(usize, i64),
    UnitNumber(usize, i64),
    UnitReading(usize, i64),
    RequirementNumber(usize, i64),
}

pub(crate) fn start() -> Place {
    Place {
        next: Next::Settings,
        column: 0,
        regions: 0,
        units: 0,
        requirements: 0,
    }
}

// May the text end here?
pub(crate) fn may_end(place: Place) -> bool {
    let next = place.next;
    match next {
        Next::UnitOrRequirement | Next::Requirement => true,
        _ => false,
    }
}

// No more than so many.
pub(crate) fn within(count: usize, most: usize) -> usize
    ensures { result ≤ most }
{
    if most < count {
        return most;
    }
    count
}

// One more, up to the most that are counted.
fn one_more(count: u32, most: u32) -> u32 {
    if count < most {
        return count + 1;
    }
    most
}

fn before(place: Place, next: Next) -> Place {
    Place {
        next,
        column: 0,
        regions: place.regions,
        units: place.units,
        requirements: place.requirements,
    }
}

fn behind_region(place: Place) -> Place {
    let regions = within(place.regions, REGIONS) + 1;
    let next = if regions < REGIONS {
        Next::Region
    } else {
        Next::UnitOrRequirement
    };
    Place {
        next,
        column: 0,
        regions,
        units: place.units,
        requirements: place.requirements,
    }
}

fn behind_unit(place: Place) -> Place {
    Place {
        next: Next::UnitOrRequirement,
        column: 0,
        regions: place.regions,
        units: one_more(place.units, UNITS),
        requirements: place.requirements,
    }
}

fn behind_requirement(place: Place) -> Place {
    Place {
        next: Next::Requirement,
        column: 0,
        regions: place.regions,
        units: place.units,
        requirements: one_more(place.requirements, REQUIREMENTS),
    }
}

// Behind the last number of a row or of a list.
fn behind(place: Place) -> Place {
    let next = place.next;
    match next {
        Next::Setting => before(place, Next::Region),
        Next::RegionNumber => before(place, Next::Point),
        Next::Point => behind_region(place),
        Next::UnitNumber => before(place, Next::UnitReading),
        Next::UnitReading => behind_unit(place),
        Next::RequirementNumber => behind_requirement(place),
        _ => place,
    }
}

fn columns(next: Next) -> usize {
    match next {
        Next::Setting => 4,
        Next::RegionNumber => REGION_ROW,
        Next::UnitNumber => UNIT_ROW,
        Next::RequirementNumber => REQUIREMENT_ROW,
        _ => POINTS,
    }
}

// The place behind a number.
fn moved(place: Place) -> Place {
    let next = place.next;
    let column = within(place.column, POINTS) + 1;
    if columns(next) <= column {
        return behind(place);
    }
    Place {
        next,
        column,
        regions: place.regions,
        units: place.units,
        requirements: place.requirements,
    }
}

// Where a number goes.
fn noted(place: Place, number: i64) -> Note {
    let column = within(place.column, POINTS);
    let region = within(place.regions, REGIONS);
    let unit = within(place.units as usize, UNITS as usize);
    let requirement = within(place.requirements as usize, REQUIREMENTS as usize);
    let next = place.next;
    match next {
        Next::Setting => Note::Setting(column, number),
        Next::RegionNumber => Note::RegionNumber(REGION_ROW * region + column, number),
        Next::Point => Note::Point(POINTS * region + column, number),
        Next::UnitNumber => Note::UnitNumber(UNIT_ROW * unit + column, number),
        Next::UnitReading => Note::UnitReading(POINTS * unit + column, number),
        Next::RequirementNumber => {
            Note::RequirementNumber(REQUIREMENT_ROW * requirement + column, number)
        }
        _ => Note::Nothing,
    }
}

fn begun(place: Place, next: Next) -> Option<(Place, Note)> {
    Some((before(place, next), Note::Nothing))
}

// A name stands before each row.
fn take_name(place: Place, found: Found) -> Option<(Place, Note)> {
    let next = place.next;
    match found {
        Found::Settings => match next {
            Next::Settings => begun(place, Next::Setting),
            _ => None,
        },
        Found::Region => match next {
            Next::Region => begun(place, Next::RegionNumber),
            _ => None,
        },
        Found::Unit => match next {
            Next::UnitOrRequirement => begun(place, Next::UnitNumber),
            _ => None,
        },
        Found::Requirement => match next {
            Next::UnitOrRequirement | Next::Requirement => begun(place, Next::RequirementNumber),
            _ => None,
        },
        _ => None,
    }
}

fn take_number(place: Place, number: i64) -> Option<(Place, Note)> {
    let next = place.next;
    match next {
        Next::Settings | Next::Region | Next::UnitOrRequirement | Next::Requirement => None,
        _ => Some((moved(place), noted(place, number))),
    }
}

// A bad point or reading holds 0, and its quality bit is 0: both stand so already.
fn take_bad(place: Place) -> Option<(Place, Note)> {
    let next = place.next;
    match next {
        Next::Point | Next::UnitReading => Some((moved(place), Note::Nothing)),
        _ => None,
    }
}

// What comes behind the word, and what is to be kept of it; nothing where it may not stand there.
pub(crate) fn take_word(place: Place, found: Found) -> Option<(Place, Note)> {
    match found {
        Found::Number(number) => take_number(place, number),
        Found::Bad => take_bad(place),
        _ => take_name(place, found),
    }
}
