// Tests and numbers that count.
ghost use Rattle.std.specs.Prelude.{◌≡◌};
ghost use Rattle.integers.specs.Sums.{one, when};

pub(crate) fn counted(test: bool) -> u32
    ensures { result ≡ one test }
{
    if test { 1 } else { 0 }
}

// A number that counts, or 0.
pub(crate) fn if_counted(counts: bool, x: i64) -> i64
    ensures { result ≡ when counts x }
{
    if counts { x } else { 0 }
}
