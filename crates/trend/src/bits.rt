// A unit's strip as the box hands it over: what became of the unit, the small record and, where they were drawn, the 75 points, every float as its bits.
use super::text::put_unit;
use book::POINTS;
use little::u16_at;
use printing::{TEXT, print, print_refused, put_word};
use rules::{Strip, Trend, locate};
use strip::trend;

// The bits of a float. A NaN has more than one pattern, so it is told as one of them; no strip holds one.
fn bits_of(x: f32) -> u32 {
    if x != x {
        return 0x7FC0_0000;
    }
    f32::to_bits(x)
}

// Eight hexadecimal digits, the last one first.
fn put_float(x: f32, at: usize, text: &mut [u8; TEXT]) -> usize {
    let all = b"0123456789ABCDEF";
    let mut digits = [0u8; 8];
    let mut rest = bits_of(x);
    for digit in digits.iter_mut().rev() {
        *digit = all[(rest % 16) as usize];
        rest /= 16;
    }
    put_word(&digits, at, text)
}

fn strip_line(part: &[u8], became: &[u8], strip: Strip, text: &mut [u8; TEXT]) -> bool {
    let mut at = put_unit(u16_at(part, 0), text);
    at = put_word(became, at, text);
    at = put_float(strip.lowest, at, text);
    at = put_float(strip.highest, at, text);
    at = put_float(strip.last, at, text);
    print(at, text)
}

fn points_line(points: &[f32; POINTS], text: &mut [u8; TEXT]) -> bool {
    let mut at: usize = 0;
    for &point in points {
        at = put_float(point, at, text);
    }
    print(at, text)
}

fn drawn_lines(part: &[u8], strip: Strip, points: &[f32; POINTS], text: &mut [u8; TEXT]) -> bool {
    if !strip_line(part, b"drawn", strip, text) {
        return false;
    }
    points_line(points, text)
}

// Of a book that was taken no unit is refused; if one were, that would be passed on.
pub(crate) fn unit_bits(part: &[u8], text: &mut [u8; TEXT]) -> bool {
    let mut points = [0f32; POINTS];
    let drawn = trend(part, &mut points);
    match drawn {
        Trend::Drawn(strip) => drawn_lines(part, strip, &points, text),
        Trend::Bad(strip) => strip_line(part, b"bad", strip, text),
        Trend::Refused(refusal) => print_refused(locate(0, refusal)),
    }
}
