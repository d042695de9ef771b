// The call that answers a requirement, by its record in the book.
ghost use Rattle.interval.specs.Lent.{Lent, lent_answer};
ghost use Rattle.answer.specs.Promises.{columns, AnswerPromise};

use super::Answer;
use super::lent::columns_long;
use super::tested::tested_requirement;
use super::worked::work_out;
use interval::Tally;
use rules::Refusal;

// Answers the requirement whose record `part` starts with: its figures, and a row for each member in the five columns, the residual last.
// Refuses 11 before the last unit or for a tally out of range, then 12, then 11 for lent numbers, then 1 and 10 for the record.
pub fn answer(
    tally: Tally,
    part: &[u8],
    measures: &[i32],
    sums: &[i64],
    figures: &[i64],
    homes: &[u8],
    rows: &[i64],
    performances: &mut [i64],
    factors: &mut [i64],
    payments: &mut [i64],
    used: &mut [i64],
    unused: &mut [i64],
) -> Result<Answer, Refusal>
    ensures { (rest : Lent) → AnswerPromise tally part.now
        (lent_answer rest measures.now sums.now figures.now homes.now rows.now)
        (columns performances.old factors.old payments.old used.old unused.old) result
        (columns performances.new factors.new payments.new used.new unused.new) }
{
    let long = columns_long(
        tally.units,
        performances.len(),
        factors.len(),
        payments.len(),
        used.len(),
        unused.len(),
    );
    let fields = tested_requirement(tally, part, measures, sums, figures, homes, rows, long)?;
    work_out(
        tally,
        fields,
        measures,
        sums,
        figures,
        homes,
        rows,
        performances,
        factors,
        payments,
        used,
        unused,
    )
}
