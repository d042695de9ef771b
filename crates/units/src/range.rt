// Whether lent numbers are at most so much either way. No number ends the loop early, and the test of one is sums and a shift, so that two are tested
// at once where the machine compares no 64-bit numbers by twos. Measures, which have 32 bits, it compares by fours.
ghost use Rattle.std.specs.Prelude.{◌≡◌, ◌+◌, ◌^◌, ◌<◌, ◌≤◌, length, ◌==◌};
ghost use Rattle.std.specs.Int.{w64};
ghost use Rattle.std.proofs.Common.{of_z};
ghost use Rattle.rules.specs.Fields.{sized};
ghost use Rattle.interval.specs.Lent.{measure_held, each_sized, each_measured};

use book::frequency::MEASURE_LIMIT;

const MOST_BITS: u64 = 0xffff_ffff_ffff_ffff;

// The limit of FM with the mark of a dropped point.
const MARKED_LIMIT: i32 = 15_000_001;

const SIGN_BIT: u64 = 0x8000_0000_0000_0000;

// The 64 bits of a number, as the machine has them: this compiles to nothing.
fn bits(x: i64) -> u64
    ensures { result ≡ of_z w64 x }
{
    if x < 0 {
        return MOST_BITS - (-(x + 1)) as u64;
    }
    x as u64
}

// 0 where a number is at most so much either way, else 1: neither limit + x nor limit - x has the sign bit.
fn outside(limit: u64, x: i64) -> u64
    requires { limit < 2 ^ 40 }
    ensures { (result == 0) ≡ sized limit x }
{
    let number = bits(x);
    let above = std::num::wrapping_add_u64(limit, number);
    let below = std::num::wrapping_sub_u64(limit, number);
    (above | below) / SIGN_BIT
}

// Is each of so many numbers from a place on at most so much either way?
pub(crate) fn each_within(limit: u64, start: usize, many: u32, numbers: &[i64]) -> bool
    requires { (limit < 2 ^ 40) × (start + many ≤ length numbers.now) }
    ensures { result ≡ each_sized limit start many numbers.now }
{
    let mut any: u64 = 0;
    for t in 0..many {
        any |= outside(limit, numbers[start + t as usize]);
    }
    any == 0
}

// 0 where the FM of a lent measure is within its limit, else 1: the FM of dropped points stands right above that of kept ones, so two tests tell.
fn past_limit(measure: i32) -> u32
    ensures { (result ≤ 1) × ((result == 0) ≡ sized 5_000_000 (measure_held measure)) }
{
    let most = MEASURE_LIMIT as i32;
    if measure < -most {
        return 1;
    }
    if MARKED_LIMIT < measure {
        return 1;
    }
    0
}

// Is the FM of each of a region's 75 measures within its limit?
pub(crate) fn each_measure_within(start: usize, measures: &[i32]) -> bool
    requires { start + 75 ≤ length measures.now }
    ensures { result ≡ each_measured start measures.now }
{
    let mut many: u32 = 0;
    for t in 0..75u32 {
        many += past_limit(measures[start + t as usize]);
    }
    many == 0
}
