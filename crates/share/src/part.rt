// The whole part of T·weight/W and its remainder, with no division for each weight. Once for a share T is taken apart, T = whole·W + rest,
// and rest·2^64/W is worked out, rounded down. Its product with a weight, less the lower 64 bits, is the quotient of rest·weight or one
// less; what then remains is below 2·W, so that it is exact in words of 64 bits, and is put right by at most one.
ghost use Rattle.std.specs.Prelude.{◌≡◌, ◌+◌, ◌*◌, ◌/◌, ◌%◌, ◌^◌, ◌<◌, ◌≤◌};
ghost use Rattle.integers.specs.Division.{Divided};
ghost use Rattle.rules.specs.Quantities.{total_limit, weight_limit};
ghost use Rattle.share.specs.Rates.{Rated, total_of};

use std::num::{wrapping_add_u64, wrapping_sub_u64};

const HALF: u64 = 0x1_0000_0000;

#[derive(Clone, Copy)]
pub(crate) struct Part {
    pub(crate) whole: u64,
    pub(crate) rest: u64,
}

// What a share prepares: T/W and T mod W, the ratio rest·2^64/W, and W.
#[derive(Clone, Copy)]
pub(crate) struct Rate {
    pub(crate) whole: u64,
    pub(crate) rest: u64,
    pub(crate) ratio: u64,
    pub(crate) sum: u64,
}

// rest·2^64/W, a bit at a time.
fn ratio_of(rest: u64, sum: u64) -> u64
    requires { (rest < sum) × (sum ≤ weight_limit) }
    ensures { (result * sum ≤ rest * 2 ^ 64) × (rest * 2 ^ 64 < result * sum + sum) }
{
    let mut found: u64 = 0;
    let mut over = rest;
    for i in 0..64u64 {
        let p = bit_more(found, over, sum);
        found = p.whole;
        over = p.rest;
    }
    found
}

// One bit more: twice the rest, less W where it goes.
fn bit_more(found: u64, over: u64, sum: u64) -> Part
    requires { (found < 2 ^ 63) × (over < sum) × (sum ≤ weight_limit) }
    ensures { (result.whole * sum + result.rest ≡ 2 * (found * sum + over)) × (result.rest < sum) × (result.whole ≤ 2 * found + 1) }
{
    let twice = 2 * over;
    if twice < sum {
        return Part {
            whole: 2 * found,
            rest: twice,
        };
    }
    Part {
        whole: 2 * found + 1,
        rest: twice - sum,
    }
}

pub(crate) fn rate_of(total: u64, sum: u64) -> Rate
    requires { (total ≤ total_limit) × (0 < sum) × (sum ≤ weight_limit) }
    ensures { Rated result × (total_of result ≡ total) × (result.sum ≡ sum) }
{
    let rest = total % sum;
    Rate {
        whole: total / sum,
        rest,
        ratio: ratio_of(rest, sum),
        sum,
    }
}

// The upper 64 bits of a product, by halves of 32 bits.
fn upper(x: u64, y: u64) -> u64
    ensures { result ≡ x * y / 2 ^ 64 }
{
    let low = x % HALF * (y % HALF);
    let middle = x / HALF * (y % HALF) + low / HALF;
    let next = x % HALF * (y / HALF) + middle % HALF;
    x / HALF * (y / HALF) + middle / HALF + next / HALF
}

// The lower 64 bits of a product.
fn lower(x: u64, y: u64) -> u64
    requires { (x < 2 ^ 63) × (y < 2 ^ 63) }
    ensures { result ≡ x * y % 2 ^ 64 }
{
    let low = x % HALF * (y % HALF);
    let middle = x / HALF * (y % HALF) + x % HALF * (y / HALF);
    wrapping_add_u64(low, middle % HALF * HALF)
}

// The whole part of T·weight/W, and the remainder.
pub(crate) fn part_of(rate: Rate, weight: u64) -> Part
    requires { Rated rate × (weight ≤ rate.sum) }
    ensures { Divided (total_of rate * weight) rate.sum result.whole result.rest }
{
    let q = upper(rate.ratio, weight);
    let over = wrapping_sub_u64(lower(rate.rest, weight), lower(q, rate.sum));
    let whole = rate.whole * weight + q;
    if over < rate.sum {
        return Part { whole, rest: over };
    }
    Part {
        whole: whole + 1,
        rest: over - rate.sum,
    }
}

// The whole part alone, where the remainder is known to be at most so much. The ratio rounded up gives the quotient, unless the remainder is nearly W.
pub(crate) fn whole_of(rate: Rate, weight: u64, most: u64) -> u64
    requires { Rated rate × (0 < weight) × (weight ≤ rate.sum) × (total_of rate * weight % rate.sum ≤ most) }
    ensures { result ≡ total_of rate * weight / rate.sum }
{
    if rate.sum - weight < most {
        return part_of(rate, weight).whole;
    }
    rate.whole * weight + upper(rate.ratio + 1, weight)
}
