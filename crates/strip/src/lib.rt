// strip: the trend strip of one unit for a display (02, R-2): 75 points in MW in a lent list, and a small record of lowest, highest and last by value. It
// takes the unit's record alone, so that it can be drawn before, after or without adding the unit.
#![tactic(auto)]

ghost use Rattle.strip.specs.Promise.{TrendPromise};

use book::POINTS;
use book::unit::read_unit;
use drawing::drawn;
use rules::{Refusal, Trend};

pub mod deviation;
mod drawing;

// Draws the strip of the unit whose record `part` starts with. A bad unit is no refusal: its points stay, and its record holds zeros. Refuses 12, then 1 and
// 81 to 84; a record alone has no neighbours, so neither 9 nor 16.
pub fn trend(part: &[u8], points: &mut [f32]) -> Trend
    ensures { TrendPromise part.now points.old result points.new }
{
    if points.len() < POINTS {
        return Trend::Refused(Refusal::TooShort);
    }
    let read = read_unit(part, 0);
    match read {
        Ok(fields) => drawn(fields, part, points),
        Err(refusal) => Trend::Refused(refusal),
    }
}
