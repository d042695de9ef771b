// vectors: the calls on figures that source document 000 (the guide) publishes. It takes two records from standard input: a frequency record with Table 15's
// region frequency deviation on top of 50,000,000 µHz (its first point has no FM yet: it is bad, and holds 0), and a unit that stays at the start of Table 5's
// trajectory, 28.89 MW to 31.11. It prints what is compared: a number of each line is what the calls leave, beside the published one; and the points that are
// dropped from performance, as the table's own columns have them (docs/DECISIONS.md, 93). The record is taken
// for each of the five regions; the unit is alone in the first, so that the sums of this region are its deviations.
#![tactic(auto)]

ghost use Rattle.std.specs.Prelude.{◌≤◌};
ghost use Rattle.integers.specs.Bounds.{Within};

use interval::lent::measure_held;
use interval::{FIGURES_LENGTH, ROW_EACH, SERIES_LENGTH, SUMS_LENGTH, Tally};
use rules::Located;

// Standard input.
const STDIN_FILENO: i32 = 0;

// Standard output.
const STDOUT_FILENO: i32 = 1;

// Table 15, frequency measure, in µHz: the five published decimals of a Hz.
const PUBLISHED: [i64; 75] = [
    0, -1_110, -10_090, -16_290, -17_280, -16_830, -17_370, -18_450, -21_070, -23_890, -26_080,
    -27_900, -26_980, -22_760, -18_590, -13_570, -12_940, -13_340, -9_770, -3_430, 1_940, 3_180,
    2_420, 3_430, 3_780, 3_890, 1_300, -990, -1_550, 300, 3_510, 5_230, 4_230, 1_460, -2_480,
    -4_650, -730, 1_490, -3_150, -6_230, -3_400, -30, 2_860, 4_840, 8_430, 13_390, 14_640, 13_220,
    14_860, 15_780, 12_050, 9_870, 10_570, 11_610, 11_530, 9_470, 5_030, 470, -2_910, -3_820,
    -3_420, -2_550, -4_810, -9_020, -13_520, -14_460, -11_470, -4_470, 850, 4_000, 5_550, 10_320,
    13_860, 13_000, 9_450,
];

// The guide's alpha is 2/9; a is its nearest in 10,000ths.
const SMOOTHING: u16 = 2_222;

// Half of the last published decimal is 5 µHz; as much again is left for a, which is short of 2/9 by 0.0000222, and for FM carried in whole µHz.
const TOLERANCE: u64 = 10;

// A number that is no larger than 10,000,000 either way.
fn bounded(x: i64) -> i64
    ensures { Within 10_000_000 result }
{
    if x < -10_000_000 {
        return -10_000_000;
    }
    if 10_000_000 < x {
        return 10_000_000;
    }
    x
}

fn apart(a: i64, b: i64) -> u64 {
    let x = bounded(a);
    let y = bounded(b);
    if x < y {
        return (y - x) as u64;
    }
    (x - y) as u64
}

// How far FM, as a lent measure says it, is from the published one.
fn off_published(measure: i32, published: i64) -> u64 {
    apart(measure_held(measure) as i64, published)
}

fn larger(a: u64, b: u64) -> u64 {
    if a < b { b } else { a }
}

fn one_if(test: bool) -> u64
    ensures { result ≤ 1 }
{
    if test { 1 } else { 0 }
}

// At how many points of the first region are two lists no further apart than the tolerance?
fn near_points(measures: &[i32; SERIES_LENGTH], published: &[i64; 75]) -> u64 {
    let mut near: u64 = 0;
    for t in 0..75 {
        near += one_if(off_published(measures[t], published[t]) <= TOLERANCE);
    }
    near
}

fn largest_difference(measures: &[i32; SERIES_LENGTH], published: &[i64; 75]) -> u64 {
    let mut largest: u64 = 0;
    for t in 0..75 {
        largest = larger(largest, off_published(measures[t], published[t]));
    }
    largest
}

fn say(text: &[u8]) {
    io::write_all(STDOUT_FILENO, text);
}

fn say_number(n: u64) {
    io::print_decimal(STDOUT_FILENO, n);
}

fn say_reliable(figure: i64) {
    if figure == 1 {
        say(b" yes\n");
    } else {
        say(b" no\n");
    }
}

// So many records are taken, of a book with one unit.
fn tally_after(records: u16) -> Tally {
    Tally {
        units: 1,
        requirements: 1,
        records: records,
        least: 0,
        smoothing: SMOOTHING,
        limit: 10,
        percent: 100,
        interval: 1,
    }
}

fn is_taken(taking: Result<(), Located>) -> bool {
    if let Ok(()) = taking { true } else { false }
}

// The record of a region starts with the region's number.
fn take_region(
    region: u8,
    part: &mut [u8; 368],
    measures: &mut [i32; SERIES_LENGTH],
    sums: &mut [i64; SUMS_LENGTH],
    figures: &mut [i64; FIGURES_LENGTH],
) -> bool {
    part[0] = region;
    let tally = tally_after(region as u16 + 1);
    let step = frequencies::frequency::frequency(tally, part, measures, sums, figures);
    let taking = step.taking;
    is_taken(taking)
}

fn take_regions(
    part: &mut [u8; 368],
    measures: &mut [i32; SERIES_LENGTH],
    sums: &mut [i64; SUMS_LENGTH],
    figures: &mut [i64; FIGURES_LENGTH],
) -> bool {
    for region in 0..5u8 {
        if !take_region(region, part, measures, sums, figures) {
            return false;
        }
    }
    true
}

// A point, counted from 1, that is dropped from performance.
fn say_if_dropped(measure: i32, t: usize) {
    if measure == measure_held(measure) {
        return;
    }
    say(b" ");
    say_number(std::num::wrapping_add_u64(t as u64, 1));
}

fn say_dropped(measures: &[i32; SERIES_LENGTH]) {
    say(b"table 15: dropped from performance: points");
    for t in 0..75 {
        say_if_dropped(measures[t], t);
    }
    say(b"\n");
}

fn say_table_15(measures: &[i32; SERIES_LENGTH], figures: &[i64; FIGURES_LENGTH]) {
    let published = PUBLISHED;
    say(b"table 15: of 75 measures within 10 uHz of the published: ");
    say_number(near_points(measures, &published));
    say(b"; largest difference in uHz: ");
    say_number(largest_difference(measures, &published));
    say(b"\n");
    say_dropped(measures);
    say(b"reliable for raise:");
    say_reliable(figures[2]);
    say(b"reliable for lower:");
    say_reliable(figures[3]);
}

// A unit that stays at the start is off the line by the start less the trajectory: ten times its deviation is 75 times that in thousandths of a MW.
fn minute(deviation: i64, thousandths: i64) {
    say(b" apart ");
    say_number(apart(
        10 * bounded(deviation),
        75 * (28_890 - bounded(thousandths)),
    ));
    say(b"\n");
}

// A deviation stands in one of its point's two sums, and in the other 0.
fn either(above: i64, below: i64) -> i64 {
    bounded(above) + bounded(below)
}

fn say_minutes(sums: &[i64; SUMS_LENGTH]) {
    say(b"table 4: 29.334 MW");
    minute(either(sums[14], sums[89]), 29_334);
    say(b"table 4: 29.778 MW");
    minute(either(sums[29], sums[104]), 29_778);
    say(b"table 4: 30.222 MW");
    minute(either(sums[44], sums[119]), 30_222);
    say(b"table 4: 30.666 MW");
    minute(either(sums[59], sums[134]), 30_666);
    say(b"table 5: 31.110 MW");
    minute(either(sums[74], sums[149]), 31_110);
}

fn take_unit(
    part: &[u8; 372],
    measures: &[i32; SERIES_LENGTH],
    sums: &mut [i64; SUMS_LENGTH],
    figures: &[i64; FIGURES_LENGTH],
) -> bool {
    let mut numbers = [0u16; 1];
    let mut homes = [0u8; 1];
    let mut rows = [0i64; ROW_EACH];
    let mut groups = [0u16; 1];
    let mut deviations = [0i64; 75];
    let step = units::unit::unit(
        tally_after(6),
        part,
        measures,
        sums,
        figures,
        &mut numbers,
        &mut homes,
        &mut rows,
        &mut groups,
        &mut deviations,
    );
    let taking = step.taking;
    is_taken(taking)
}

fn main() {
    let mut region = [0u8; 368];
    let mut unit = [0u8; 372];
    io::read_full(STDIN_FILENO, &mut region);
    io::read_full(STDIN_FILENO, &mut unit);
    let mut measures = [0i32; SERIES_LENGTH];
    let mut sums = [0i64; SUMS_LENGTH];
    let mut figures = [0i64; FIGURES_LENGTH];
    if !take_regions(&mut region, &mut measures, &mut sums, &mut figures) {
        say(b"table 15: refused\n");
        return;
    }
    say_table_15(&measures, &figures);
    if !take_unit(&unit, &measures, &mut sums, &figures) {
        say(b"table 4: refused\n");
        return;
    }
    say_minutes(&sums);
}
