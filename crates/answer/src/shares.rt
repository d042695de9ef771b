// The members' numbers, and the shares that go by them. Every number has been tested, so a share refuses none of them; its refusal would be
// passed on.
ghost use Rattle.std.specs.Prelude.{◌≤◌, ◌<◌, length, take};
ghost use Rattle.integers.specs.Pairs.{gain, loss};
ghost use Rattle.answer.specs.Asked.{lent_members};
ghost use Rattle.answer.specs.Values.{MembersThere};
ghost use Rattle.answer.specs.Shares.{Shareable, Charged, SignsShared, MembersCharged, PoolPaid, MembersPaid};

use super::pools::pool;
use super::values::put_members;
use super::{Field, Member};
use rules::{BILLION, Direction, Refusal};

// A pool over the first n numbers below zero, as charges.
fn charge(pool: u64, n: usize, values: &[i64], amounts: &mut [i64]) -> Result<u64, Refusal>
    requires { (n ≤ length values.now) × Shareable pool loss (take n values.now) (length amounts.old) }
    ensures { Charged pool (take n values.now) amounts.old result amounts.new }
{
    share::share_unhelpful(pool, &values[..n], amounts)
}

// A total over both signs of the first n numbers.
fn share_both(
    total: u64,
    n: usize,
    values: &[i64],
    amounts: &mut [i64],
) -> Result<(u64, u64), Refusal>
    requires { (n ≤ length values.now) × Shareable total gain (take n values.now) (length amounts.old)
        × Shareable total loss (take n values.now) (length amounts.old) }
    ensures { SignsShared total (take n values.now) amounts.old result amounts.new }
{
    share::share_signs(total, &values[..n], amounts)
}

// A pool over the members' numbers of a field, which are left in `values`.
pub(crate) fn charge_members(
    field: Field,
    pool: u64,
    units: usize,
    direction: Direction,
    set: u8,
    residual: Member,
    figures: &[i64],
    homes: &[u8],
    rows: &[i64],
    values: &mut [i64],
    amounts: &mut [i64],
) -> Result<u64, Refusal>
    requires { (pool ≤ 1_000_000_000_000) × (units < length amounts.old)
        × MembersThere units direction set (lent_members figures.now homes.now rows.now) residual (length values.old) }
    ensures { MembersCharged field pool units direction set
        (lent_members figures.now homes.now rows.now)
        values.old amounts.old result values.new amounts.new }
{
    let n = put_members(
        field, direction, set, units, residual, figures, homes, rows, values,
    );
    charge(pool, n, values, amounts)
}

// What is paid: the pool, and how many share in it.
#[derive(Clone, Copy)]
pub(crate) struct Paid {
    pub(crate) members: u16,
    pub(crate) pool: u64,
}

// The pool over both signs of the first n numbers.
fn pay_pool(
    pool: u64,
    n: usize,
    performances: &[i64],
    payments: &mut [i64],
) -> Result<Paid, Refusal>
    requires { (n ≤ 513) × (n ≤ length performances.now) × Shareable pool gain (take n performances.now) (length payments.old)
        × Shareable pool loss (take n performances.now) (length payments.old) }
    ensures { PoolPaid n pool (take n performances.now) payments.old result payments.new }
{
    share_both(pool, n, performances, payments)?;
    Ok(Paid {
        members: n as u16,
        pool: pool,
    })
}

// Payment performances, factors and payments. What the factors leave unplaced tells whether each sign has a member.
pub(crate) fn pay(
    price: u32,
    rcr: u64,
    units: usize,
    direction: Direction,
    set: u8,
    residual: Member,
    figures: &[i64],
    homes: &[u8],
    rows: &[i64],
    performances: &mut [i64],
    factors: &mut [i64],
    payments: &mut [i64],
) -> Result<Paid, Refusal>
    requires { (price ≤ 10_000_000) × (rcr ≤ 7_680_000_000) × (units < length factors.old) × (units < length payments.old)
        × MembersThere units direction set (lent_members figures.now homes.now rows.now) residual (length performances.old) }
    ensures { MembersPaid price rcr units direction set
        (lent_members figures.now homes.now rows.now)
        performances.old factors.old payments.old result
        performances.new factors.new payments.new }
{
    let n = put_members(
        Field::Payment,
        direction,
        set,
        units,
        residual,
        figures,
        homes,
        rows,
        performances,
    );
    let (up, down) = share_both(BILLION, n, performances, factors)?;
    let pool = pool(price, rcr, up == 0, down == 0);
    pay_pool(pool, n, performances, payments)
}
