// Amounts that others worked out, held against the exact shares T·weight/W of a total over both sides of the performances: an amount is less than one unit
// from its exact share where it is the whole part, with its side's sign, or one more where a remainder is left. That sign needs no test of its own.
ghost use Rattle.std.specs.Prelude.{◌≡◌, ◌<◌, ◌≤◌, length};
ghost use Rattle.integers.specs.Pairs.{gain, loss};
ghost use Rattle.rules.specs.Quantities.{total_limit, weight_limit};
ghost use Rattle.rules.specs.Sheet.{near, right, side_total};
ghost use Rattle.rules.specs.declared.Side.TheVariants.{Positive, Negative};
ghost use Rattle.share.specs.Weighing.{signed, limited};
ghost use Rattle.share.specs.Rates.{Rated, total_of};
ghost use Rattle.share.specs.Exact.{sums, SideRated, Sided, looked, JudgedPromise};

use crate::TOTAL_LIMIT;
use crate::part::{Rate, part_of, rate_of};
use crate::weights::{Source, WEIGHT_LIMIT, helpful_part, sum_of, unhelpful_part, with_sign};
use rules::{Refusal, Side};

// The absolute total of a side, or one more than the limit of W where it is over it: tested before the sum can wrap.
pub fn side_sum(side: Side, numbers: &[i64]) -> u64
    ensures { result ≡ limited (side_total side numbers.now) }
{
    let none = [0u64; 1];
    match side {
        Side::Positive => sum_of(Source::Helpful, &none, numbers),
        Side::Negative => sum_of(Source::Unhelpful, &none, numbers),
    }
}

// A side's prepared ratio. One without a member, whose W is 0, is asked for no share.
fn side_rate(total: u64, sum: u64) -> Rate
    requires { (total ≤ total_limit) × (sum ≤ weight_limit) }
    ensures { SideRated total sum result }
{
    if sum == 0 {
        return rate_of(total, 1);
    }
    rate_of(total, sum)
}

// Is an amount less than one unit from the exact share of a weight?
fn is_near(source: Source, rate: Rate, weight: u64, amount: i64) -> bool
    requires { Rated rate × (weight ≤ rate.sum) }
    ensures { result ≡ near (total_of rate) rate.sum (signed source weight) amount }
{
    let part = part_of(rate, weight);
    if amount == with_sign(source, part.whole) {
        return true;
    }
    if part.rest == 0 {
        return false;
    }
    amount == with_sign(source, part.whole + 1)
}

// Is a member right? One whose performance is 0 has the amount 0.
fn is_right(up: Rate, down: Rate, performance: i64, amount: i64) -> bool
    requires { Rated up × Rated down × (total_of down ≡ total_of up) × (gain performance ≤ up.sum) × (loss performance ≤ down.sum) }
    ensures { result ≡ right (total_of up) (sums up down) performance amount }
{
    if 0 < performance {
        return is_near(Source::Helpful, up, helpful_part(performance), amount);
    }
    if performance < 0 {
        return is_near(Source::Unhelpful, down, unhelpful_part(performance), amount);
    }
    amount == 0
}

// The first wrong member, from 1, or none where all are right.
fn look(up: Rate, down: Rate, performances: &[i64], amounts: &[i64]) -> Option<usize>
    requires { Sided up down performances.now × (length amounts.now ≡ length performances.now) }
    ensures { result ≡ looked (total_of up) performances.now amounts.now }
{
    for (i, &performance) in performances.iter().enumerate() {
        if !is_right(up, down, performance, amounts[i]) {
            return Some(i + 1);
        }
    }
    None
}

// The first member, from 1, whose amount is no share of the total: not less than one unit from its exact share, or above 0 or below where the performance
// is 0. None where all are right. Refuses 12 where the lists differ in length, then 5 where the total or a side's absolute total is over its limit.
pub fn first_wrong(
    total: u64,
    performances: &[i64],
    amounts: &[i64],
) -> Result<Option<usize>, Refusal>
    ensures { JudgedPromise total performances.now amounts.now result }
{
    if performances.len() != amounts.len() {
        return Err(Refusal::TooShort);
    }
    if TOTAL_LIMIT < total {
        return Err(Refusal::WrongCount);
    }
    let up = side_sum(Side::Positive, performances);
    if WEIGHT_LIMIT < up {
        return Err(Refusal::WrongCount);
    }
    let down = side_sum(Side::Negative, performances);
    if WEIGHT_LIMIT < down {
        return Err(Refusal::WrongCount);
    }
    Ok(look(
        side_rate(total, up),
        side_rate(total, down),
        performances,
        amounts,
    ))
}
