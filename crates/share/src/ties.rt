// Remainder and weight as one number, the key: of two keys the larger has the larger remainder, or an equal one and the larger weight. T and W are multiples
// of their greatest common divisor, and so is every remainder; weights whose remainders are equal differ by W over the divisor at least. So between
// two remainders there is room for a number below the divisor, and what is above a power of two no larger than W over it tells such weights apart there.
ghost use Rattle.std.specs.Prelude.{◌≡◌, ◌<◌, ◌≤◌};
ghost use Rattle.integers.specs.Multiples.{Common};
ghost use Rattle.rules.specs.Quantities.{weight_limit};
ghost use Rattle.share.specs.Keys.{Tied, lead_of};

// The greatest common divisor less 1, and how many bits of a weight tell none apart.
#[derive(Clone, Copy)]
pub(crate) struct Ties {
    pub(crate) most: u64,
    pub(crate) shift: u32,
}

// The greatest common divisor, by what is left of one divided by the other.
fn common(a: u64, b: u64) -> u64
    requires { 0 < a }
    ensures { Common a b result }
{
    let mut larger = a;
    let mut smaller = b;
    while smaller != 0 {
        let rest = larger % smaller;
        larger = smaller;
        smaller = rest;
    }
    larger
}

pub(crate) fn ties_of(total: u64, sum: u64) -> Ties
    requires { (0 < sum) × (sum ≤ weight_limit) }
    ensures { Tied total sum result }
{
    let divisor = common(sum, total);
    let apart = sum / divisor;
    Ties {
        most: divisor - 1,
        shift: 63 - u64::leading_zeros(apart),
    }
}

// How far a weight puts its member before others with its remainder. At most one member has more than the divisor leaves room for.
pub(crate) fn lead(ties: Ties, weight: u64) -> u64
    requires { ties.shift < 64 }
    ensures { result ≡ lead_of ties weight }
{
    let steps = weight >> ties.shift;
    if ties.most < steps { ties.most } else { steps }
}
