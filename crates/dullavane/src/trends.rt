// What is told of a trend strip: its small record in three lent floats, and how many points are drawn.
ghost use Rattle.std.specs.Prelude.{◌≡◌, ◌&&◌, ◌≤◌, leb, length};
ghost use Rattle.dullavane.specs.Trends.{with_strip, with_drawn, trend_told, strip_after, drawn_after};

use super::words::said;
use book::POINTS;
use rules::{Strip, Trend, locate};

const STRIP_NUMBERS: usize = 3;

const DRAWN_NUMBERS: usize = 1;

// Are lists of these lengths long enough for the record, and for the count?
pub(crate) fn trend_fits(strip: usize, drawn: usize) -> bool
    ensures { result ≡ (leb 3 strip && leb 1 drawn) }
{
    if strip < STRIP_NUMBERS {
        return false;
    }
    DRAWN_NUMBERS <= drawn
}

// Numbers past the three stay.
fn put_strip(found: Strip, strip: &mut [f32])
    requires { 3 ≤ length strip.old }
    ensures { strip.new ≡ with_strip found strip.old }
{
    strip[0] = found.lowest;
    strip[1] = found.highest;
    strip[2] = found.last;
}

// Numbers past the first stay.
fn put_drawn(points: u32, drawn: &mut [u32])
    requires { 1 ≤ length drawn.old }
    ensures { drawn.new ≡ with_drawn points drawn.old }
{
    drawn[0] = points;
}

// 0, with the record and the count in the lists; or the refusal, which has no place.
pub(crate) fn tell_trend(trend: Trend, strip: &mut [f32], drawn: &mut [u32]) -> u64
    requires { (3 ≤ length strip.old) × (1 ≤ length drawn.old) }
    ensures { (result ≡ trend_told trend) × (strip.new ≡ strip_after trend strip.old) × (drawn.new ≡ drawn_after trend drawn.old) }
{
    match trend {
        Trend::Drawn(found) => {
            put_strip(found, strip);
            put_drawn(POINTS as u32, drawn);
            0
        }
        Trend::Bad(found) => {
            put_strip(found, strip);
            put_drawn(0, drawn);
            0
        }
        Trend::Refused(refusal) => said(locate(0, refusal)),
    }
}
