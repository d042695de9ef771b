// dullavane_listing: the listing of a taken book piece by piece, as the firmware asks for it from C, in a static library of its own beside that of
// `dullavane`. Only numbers and lists cross over; the cursor stands in sixteen lent words. The call answers 0, or the refusal's number, and then nothing lent
// has changed.
#![tactic(auto)]

ghost use Rattle.interval.specs.Lent.{Lent};
ghost use Rattle.answer.specs.Promises.{columns};
ghost use Rattle.lister.specs.Steps.{lent_listing};
ghost use Rattle.dullavane_listing.specs.Called.{ListingCalled};

use dullavane::asked::{asked_refusal, tally_held};
use lister::list::list;
use words::{cursor_in, cursor_refusal, tell_listed};

mod words;

// Writes as many whole lines of the listing as have room, from the cursor on. Refuses 12 and 11 for the tally's words, 11 before the last unit, 12 for fewer
// than sixteen words of a cursor, 11 for one of them over its width, then as `list` does. Where nothing is left, word 0 is 0 and the others stay.
pub fn dullavane_listing(
    cursor: &mut [u64],
    tally: &[u32],
    bytes: &[u8],
    measures: &[i32],
    sums: &[i64],
    figures: &[i64],
    numbers: &[u16],
    homes: &[u8],
    rows: &[i64],
    performances: &mut [i64],
    factors: &mut [i64],
    payments: &mut [i64],
    used: &mut [i64],
    unused: &mut [i64],
    text: &mut [u8],
) -> u32
    ensures { (rest : Lent) → ListingCalled tally.now cursor.old bytes.now
        (lent_listing rest measures.now sums.now figures.now numbers.now homes.now rows.now)
        (columns performances.old factors.old payments.old used.old unused.old)
        text.old result cursor.new
        (columns performances.new factors.new payments.new used.new unused.new)
        text.new }
{
    let refusal = asked_refusal(tally, true, true);
    if refusal != 0 {
        return refusal;
    }
    let unheld = cursor_refusal(cursor);
    if unheld != 0 {
        return unheld;
    }
    let listed = list(
        cursor_in(cursor),
        tally_held(tally),
        bytes,
        measures,
        sums,
        figures,
        numbers,
        homes,
        rows,
        performances,
        factors,
        payments,
        used,
        unused,
        text,
    );
    tell_listed(listed, cursor)
}
