// A requirement's answer, once every test has been passed.
ghost use Rattle.std.specs.Prelude.{◌≡◌};
ghost use Rattle.interval.specs.Lent.{Lent, lent_answer};
ghost use Rattle.answer.specs.Asked.{lent};
ghost use Rattle.answer.specs.Promises.{columns};
ghost use Rattle.answer.specs.Worked.{gathered_answer, Passed, WorkedOut};

use super::charges::{Charges, charge_cost};
use super::rcr::{Found, rcr};
use super::residual::residual_member;
use super::shares::{Paid, pay};
use super::{Answer, Charge, Member};
use book::RequirementFields;
use interval::Tally;
use rules::Refusal;

// The figures, from what the parts have found, or the first refusal that a share replied.
fn gathered(
    fields: RequirementFields,
    found: Found,
    residual: Member,
    charges: Charges,
    paying: Result<Paid, Refusal>,
) -> Result<Answer, Refusal>
    ensures { result ≡ gathered_answer fields found residual charges paying }
{
    let direction = fields.direction;
    let standing = residual.standing;
    let used = charges.used;
    let unused = charges.unused;
    let used_left = used.reply?;
    let unused_left = unused.reply?;
    let paid = paying?;
    Ok(Answer {
        number: fields.number,
        direction: direction,
        set: fields.set,
        members: paid.members,
        residual: standing,
        rcr: found.rcr,
        pool: paid.pool,
        used: Charge {
            pool: used.pool,
            unplaced: used_left,
        },
        unused: Charge {
            pool: unused.pool,
            unplaced: unused_left,
        },
    })
}

// The cost is charged first, so that the column of performances ends with those of payment.
pub(crate) fn work_out(
    tally: Tally,
    fields: RequirementFields,
    measures: &[i32],
    sums: &[i64],
    figures: &[i64],
    homes: &[u8],
    rows: &[i64],
    performances: &mut [i64],
    factors: &mut [i64],
    payments: &mut [i64],
    used: &mut [i64],
    unused: &mut [i64],
) -> Result<Answer, Refusal>
    requires { Passed tally fields (lent measures.now sums.now figures.now homes.now rows.now)
        (columns performances.old factors.old payments.old used.old unused.old) }
    ensures { (rest : Lent) → WorkedOut tally fields
        (lent_answer rest measures.now sums.now figures.now homes.now rows.now)
        (columns performances.old factors.old payments.old used.old unused.old) result
        (columns performances.new factors.new payments.new used.new unused.new) }
{
    let direction = fields.direction;
    let set = fields.set;
    let units = tally.units as usize;
    let found = rcr(
        units,
        tally.percent,
        direction,
        set,
        measures,
        sums,
        figures,
        homes,
    );
    let residual = residual_member(direction, set, units, figures, homes, rows);
    let charges = charge_cost(
        fields,
        found.reliable,
        units,
        residual,
        figures,
        homes,
        rows,
        performances,
        used,
        unused,
    );
    let paying = pay(
        fields.price,
        found.rcr,
        units,
        direction,
        set,
        residual,
        figures,
        homes,
        rows,
        performances,
        factors,
        payments,
    );
    gathered(fields, found, residual, charges, paying)
}
