// The weights that a total is shared over: those lent, or one side of the lent performances. Every loop of the share reads them here,
// so that a side needs no column of weights of its own.
ghost use Rattle.std.specs.Prelude.{◌≡◌, ◌^◌, ◌<◌, length};
ghost use Rattle.integers.specs.Pairs.{gain, loss};
ghost use Rattle.rules.specs.Share.{weight_at};
ghost use Rattle.share.specs.Weighing.{weighed, signed, sum_of, limited};

pub(crate) const WEIGHT_LIMIT: u64 = 6_010_000_000_000_000_000;

#[derive(Clone, Copy)]
pub(crate) enum Source {
    Lent,
    Helpful,
    Unhelpful,
}

// A performance above zero, or 0.
pub(crate) fn helpful_part(performance: i64) -> u64
    ensures { result ≡ gain performance }
{
    if 0 < performance {
        performance as u64
    } else {
        0
    }
}

// The size of a performance below zero, or 0. The least i64 has no negative of its own.
pub(crate) fn unhelpful_part(performance: i64) -> u64
    ensures { result ≡ loss performance }
{
    if performance < 0 {
        (-(performance + 1)) as u64 + 1
    } else {
        0
    }
}

pub(crate) fn members(source: Source, weights: &[u64], performances: &[i64]) -> usize
    ensures { result ≡ length (weighed source weights.now performances.now) }
{
    match source {
        Source::Lent => weights.len(),
        Source::Helpful => performances.len(),
        Source::Unhelpful => performances.len(),
    }
}

pub(crate) fn weight(source: Source, weights: &[u64], performances: &[i64], i: usize) -> u64
    requires { i < length (weighed source weights.now performances.now) }
    ensures { result ≡ weight_at (weighed source weights.now performances.now) i }
{
    match source {
        Source::Lent => weights[i],
        Source::Helpful => helpful_part(performances[i]),
        Source::Unhelpful => unhelpful_part(performances[i]),
    }
}

// An amount with its side's sign.
pub(crate) fn with_sign(source: Source, amount: u64) -> i64
    requires { amount < 2 ^ 63 }
    ensures { result ≡ signed source amount }
{
    match source {
        Source::Lent => amount as i64,
        Source::Helpful => amount as i64,
        Source::Unhelpful => -(amount as i64),
    }
}

// W, or one more than its limit where W is over it: tested before the sum can wrap.
pub(crate) fn sum_of(source: Source, weights: &[u64], performances: &[i64]) -> u64
    ensures { result ≡ limited (sum_of (weighed source weights.now performances.now)) }
{
    let n = members(source, weights, performances);
    let mut sum: u64 = 0;
    for i in 0..n {
        let w = weight(source, weights, performances, i);
        if WEIGHT_LIMIT - sum < w {
            return WEIGHT_LIMIT + 1;
        }
        sum += w;
    }
    sum
}
