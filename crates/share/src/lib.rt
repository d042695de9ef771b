// share: a total over weights, to the unit, by largest remainder (document 01, The share; document 02, R-9), in words of 64 bits. The weights are lent, or
// they are one side of the lent performances; nothing else is lent but the column that the amounts go to. `exact` holds amounts that others worked out
// against the exact shares (document 02, R-12).
#![tactic(auto)]

mod cut;
pub mod exact;
mod left_overs;
mod marks;
mod part;
mod ties;
mod weights;

ghost use Rattle.std.specs.Prelude.{◌≡◌, map, length, Ok};
ghost use Rattle.integers.specs.Pairs.{loss};
ghost use Rattle.share.specs.Weighing.{weighed, signed};
ghost use Rattle.share.specs.Column.{Clear};
ghost use Rattle.share.specs.Signs.{SidePlaced, SignsOut};
ghost use Rattle.share.specs.Promises.{tested, credit, debit, SharedOut};

use left_overs::{clear, place};
use rules::Refusal;
use weights::{Source, WEIGHT_LIMIT, members, sum_of};

const TOTAL_LIMIT: u64 = 1_000_000_000_000;

// W, or none where no member has weight: room is tested first, then T and W. What is left over needs no test: it is always fewer than the members with
// weight. Nothing is written.
fn test_share(
    source: Source,
    total: u64,
    weights: &[u64],
    performances: &[i64],
    room: usize,
) -> Result<Option<u64>, Refusal>
    ensures { result ≡ tested total (weighed source weights.now performances.now) room }
{
    if room < members(source, weights, performances) {
        return Err(Refusal::TooShort);
    }
    if TOTAL_LIMIT < total {
        return Err(Refusal::WrongCount);
    }
    let sum = sum_of(source, weights, performances);
    if WEIGHT_LIMIT < sum {
        return Err(Refusal::WrongCount);
    }
    if sum == 0 {
        return Ok(None);
    }
    Ok(Some(sum))
}

fn share_from(
    source: Source,
    total: u64,
    weights: &[u64],
    performances: &[i64],
    amounts: &mut [i64],
) -> Result<u64, Refusal>
    ensures { SharedOut (signed source) total (weighed source weights.now performances.now) amounts.old result
        amounts.new }
{
    let room = amounts.len();
    let n = members(source, weights, performances);
    let test = test_share(source, total, weights, performances, room)?;
    clear(amounts, n);
    match test {
        Some(sum) => {
            place(source, total, weights, performances, sum, amounts);
            Ok(0)
        }
        None => Ok(total),
    }
}

// The total over the weights: each member's amount is written, and how much is unplaced is told; or refused is TooShort (12) where the amounts have less
// room than there are weights, then WrongCount (5) where the total or the sum of the weights is over its limit. A refusal writes nothing.
pub fn share(total: u64, weights: &[u64], amounts: &mut [i64]) -> Result<u64, Refusal>
    ensures { SharedOut credit total weights.now amounts.old result amounts.new }
{
    let none = [0i64; 1];
    share_from(Source::Lent, total, weights, &none, amounts)
}

// The same over the negative performances, as sizes, the amounts with a minus sign.
pub fn share_unhelpful(
    total: u64,
    performances: &[i64],
    amounts: &mut [i64],
) -> Result<u64, Refusal>
    ensures { SharedOut debit total (map loss performances.now) amounts.old result amounts.new }
{
    let none = [0u64; 1];
    share_from(Source::Unhelpful, total, &none, performances, amounts)
}

// A side that was tested, placed beside what stands in the column: how much of the total is unplaced.
fn place_side(
    source: Source,
    total: u64,
    weights: &[u64],
    performances: &[i64],
    test: Option<u64>,
    amounts: &mut [i64],
) -> u64
    requires { (Ok test ≡ tested total (weighed source weights.now performances.now) (length amounts.old)) × Clear amounts.old
        (length (weighed source weights.now performances.now)) }
    ensures { SidePlaced source total (weighed source weights.now performances.now) amounts.old result amounts.new }
{
    match test {
        Some(sum) => {
            place(source, total, weights, performances, sum, amounts);
            0
        }
        None => total,
    }
}

// The total over the positive performances, and with a minus sign over the negative ones, in one column. Both sides are tested before
// anything is written, the positive one first. Told is how much is unplaced of the positive side and of the negative.
pub fn share_signs(
    total: u64,
    performances: &[i64],
    amounts: &mut [i64],
) -> Result<(u64, u64), Refusal>
    ensures { SignsOut total performances.now amounts.old result amounts.new }
{
    let none = [0u64; 1];
    let room = amounts.len();
    let helpful = test_share(Source::Helpful, total, &none, performances, room)?;
    let unhelpful = test_share(Source::Unhelpful, total, &none, performances, room)?;
    clear(amounts, performances.len());
    let up = place_side(
        Source::Helpful,
        total,
        &none,
        performances,
        helpful,
        amounts,
    );
    let down = place_side(
        Source::Unhelpful,
        total,
        &none,
        performances,
        unhelpful,
        amounts,
    );
    Ok((up, down))
}
