// What is tested before an answer is worked out, in the order of the refusals; past the tests the requirement's record decides.
ghost use Rattle.std.specs.Prelude.{◌≡◌};
ghost use Rattle.book.specs.Requirement.{requirement_answer};
ghost use Rattle.answer.specs.Asked.{lent};
ghost use Rattle.answer.specs.Tested.{tested_requirement};

use super::lent::{lent_in_range, lists_long};
use book::RequirementFields;
use interval::Tally;
use interval::turns::answer_turn;
use rules::Refusal;

// The requirement whose record `part` starts with. Of the five columns, which are only written, `columns` tells whether they are long enough.
pub(crate) fn tested_requirement(
    tally: Tally,
    part: &[u8],
    measures: &[i32],
    sums: &[i64],
    figures: &[i64],
    homes: &[u8],
    rows: &[i64],
    columns: bool,
) -> Result<RequirementFields, Refusal>
    ensures { result ≡ requirement_answer (tested_requirement tally part.now
        (lent measures.now sums.now figures.now homes.now rows.now) columns) }
{
    if !answer_turn(tally) {
        return Err(Refusal::WrongState);
    }
    if !lists_long(tally.units, measures, sums, figures, homes, rows) {
        return Err(Refusal::TooShort);
    }
    if !columns {
        return Err(Refusal::TooShort);
    }
    if !lent_in_range(tally, measures, sums, figures, homes, rows) {
        return Err(Refusal::WrongState);
    }
    book::requirement::read_requirement(part, 0, false)
}
