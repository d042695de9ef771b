// The sizes of a number: above zero, below it, and either way.
ghost use Rattle.std.specs.Prelude.{◌≡◌, nat_abs};
ghost use Rattle.integers.specs.Pairs.{gain, loss};

// What stands above zero.
pub fn above(x: i64) -> u64
    ensures { result ≡ gain x }
{
    if x < 0 {
        return 0;
    }
    x as u64
}

// The size of what stands below zero. The least i64 has no negative of its own.
pub fn below(x: i64) -> u64
    ensures { result ≡ loss x }
{
    if x < 0 {
        return (-(x + 1)) as u64 + 1;
    }
    0
}

pub fn size(x: i64) -> u64
    ensures { result ≡ nat_abs x }
{
    if x < 0 {
        return below(x);
    }
    above(x)
}
