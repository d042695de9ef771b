// A requirement's cost, charged to its members: the used part, and what is left of it.
ghost use Rattle.std.specs.Prelude.{length};
ghost use Rattle.answer.specs.Asked.{lent_members};
ghost use Rattle.answer.specs.Charges.{CostTested, CostCharged};

use super::pools::used_pool;
use super::shares::charge_members;
use super::{Field, Member};
use book::RequirementFields;
use rules::Refusal;

// A pool, and what its share replied.
#[derive(Clone, Copy)]
pub(crate) struct Pooled {
    pub(crate) pool: u64,
    pub(crate) reply: Result<u64, Refusal>,
}

// What is charged of a requirement's cost.
#[derive(Clone, Copy)]
pub(crate) struct Charges {
    pub(crate) used: Pooled,
    pub(crate) unused: Pooled,
}

// The members' numbers stand in `values` while a pool is shared over them.
pub(crate) fn charge_cost(
    fields: RequirementFields,
    reliable: bool,
    units: usize,
    residual: Member,
    figures: &[i64],
    homes: &[u8],
    rows: &[i64],
    values: &mut [i64],
    used: &mut [i64],
    unused: &mut [i64],
) -> Charges
    requires { CostTested fields units (lent_members figures.now homes.now rows.now) residual
        (length values.old) (length used.old) (length unused.old) }
    ensures { CostCharged fields reliable units
        (lent_members figures.now homes.now rows.now)
        values.old used.old unused.old result values.new used.new unused.new }
{
    let direction = fields.direction;
    let set = fields.set;
    let used_cents = used_pool(fields.cost, fields.enabled, fields.used, reliable);
    let unused_cents = fields.cost - used_cents;
    let unused_reply = charge_members(
        Field::Unused,
        unused_cents,
        units,
        direction,
        set,
        residual,
        figures,
        homes,
        rows,
        values,
        unused,
    );
    let used_reply = charge_members(
        Field::Used,
        used_cents,
        units,
        direction,
        set,
        residual,
        figures,
        homes,
        rows,
        values,
        used,
    );
    Charges {
        used: Pooled {
            pool: used_cents,
            reply: used_reply,
        },
        unused: Pooled {
            pool: unused_cents,
            reply: unused_reply,
        },
    }
}
