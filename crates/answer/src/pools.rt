// The pools of a requirement, in cents (document 01, Cents). Each is rounded once, from the whole product: that is within 64 bits.
ghost use Rattle.std.specs.Prelude.{◌≡◌, ◌≤◌, ◌<◌, min};
ghost use Rattle.integers.specs.Nearest.{nearestℕ};
ghost use Rattle.rules.specs.Cents.{priced};
ghost use Rattle.answer.specs.Pools.{pool_cents, used_cents};

// RCR is in 75ths of a cMW and the price for an hour, of twelve intervals: 75 times 100 times 12.
const PRICED_BY: u64 = 90_000;

// The nearest of a / d, halves up.
fn nearest_cent(a: u64, d: u64) -> u64
    requires { (a ≤ 2_000_000_000_000_000_000) × (0 < d) × (d ≤ 2_000_000) }
    ensures { result ≡ nearestℕ a d }
{
    let whole = a / d;
    if 2 * (a % d) < d {
        return whole;
    }
    whole + 1
}

fn lesser(a: u32, b: u32) -> u32
    ensures { result ≡ min a b }
{
    if a < b {
        return a;
    }
    b
}

// The nearest of price·RCR/90,000.
pub(crate) fn priced(price: u32, rcr: u64) -> u64
    requires { (price ≤ 10_000_000) × (rcr ≤ 7_680_000_000) }
    ensures { result ≡ priced price rcr }
{
    nearest_cent(price as u64 * rcr, PRICED_BY)
}

// The pool: 0 where no member is helpful (`up`), or none is unhelpful (`down`).
pub(crate) fn pool(price: u32, rcr: u64, up: bool, down: bool) -> u64
    requires { (price ≤ 10_000_000) × (rcr ≤ 7_680_000_000) }
    ensures { result ≡ pool_cents price rcr up down }
{
    if !up {
        return 0;
    }
    if !down {
        return 0;
    }
    priced(price, rcr)
}

// The used pool: the nearest of cost·used/enabled, used capped at enabled; 0 where enabled is 0 or a region is unreliable.
pub(crate) fn used_pool(cost: u64, enabled: u32, used: u32, reliable: bool) -> u64
    requires { (cost ≤ 1_000_000_000_000) × (enabled ≤ 2_000_000) }
    ensures { result ≡ used_cents cost enabled used reliable }
{
    if !reliable {
        return 0;
    }
    if enabled == 0 {
        return 0;
    }
    let capped = lesser(used, enabled);
    nearest_cent(cost * capped as u64, enabled as u64)
}
