// dullavane_listing_c: the listing's call for C, in a static library of its own: it hands on to the library's function of the same name, with the same promise.
#![tactic(auto)]

ghost use Rattle.interval.specs.Lent.{Lent};
ghost use Rattle.answer.specs.Promises.{columns};
ghost use Rattle.lister.specs.Steps.{lent_listing};
ghost use Rattle.dullavane_listing.specs.Called.{ListingCalled};

// Writes as many whole lines of the listing as have room, from the cursor on. Refuses 12 and 11 for the tally's words, 11 before the last unit, 12 for fewer
// than sixteen words of a cursor, 11 for one of them over its width, then as `list` does. Where nothing is left, word 0 is 0 and the others stay.
#[unsafe(no_mangle)]
pub extern "C" fn dullavane_listing(
    cursor: &mut [u64],
    tally: &[u32],
    bytes: &[u8],
    measures: &[i32],
    sums: &[i64],
    figures: &[i64],
    numbers: &[u16],
    homes: &[u8],
    rows: &[i64],
    performances: &mut [i64],
    factors: &mut [i64],
    payments: &mut [i64],
    used: &mut [i64],
    unused: &mut [i64],
    text: &mut [u8],
) -> u32
    ensures { (rest : Lent) → ListingCalled tally.now cursor.old bytes.now
        (lent_listing rest measures.now sums.now figures.now numbers.now homes.now rows.now)
        (columns performances.old factors.old payments.old used.old unused.old)
        text.old result cursor.new
        (columns performances.new factors.new payments.new used.new unused.new)
        text.new }
{
    dullavane_listing::dullavane_listing(
        cursor,
        tally,
        bytes,
        measures,
        sums,
        figures,
        numbers,
        homes,
        rows,
        performances,
        factors,
        payments,
        used,
        unused,
        text,
    )
}
