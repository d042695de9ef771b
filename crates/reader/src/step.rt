// What is being read of a book, as a value: where the next bytes go, and what follows once so many have come. Any reading gets an answer: one that no book
// leads to is refused by the call whose turn it would be.
ghost use Rattle.std.specs.Prelude.{◌≡◌, ◌*◌, ◌-◌, ◌≤◌, min};
ghost use Rattle.rules.specs.Contents.{requirement_size};
ghost use Rattle.interval.specs.Tally.{units_end};
ghost use Rattle.interval.specs.Lent.{lent_unit};
ghost use Rattle.reader.specs.Reading.{
  asked,
  is_end,
  with_got,
  span_of,
  WantedPromise,
  ContentsCame,
  RecordCame,
  CamePromise,
};

use super::turn::{size, take};
use super::{Came, Reading, Span, Wanted};
use book::{CONTENTS, REQUIREMENT};
use interval::Tally;
use interval::contents::contents;
use interval::turns::BEFORE_UNITS;
use rules::{Refusal, locate};

// No more than there are.
fn within(place: usize, most: usize) -> usize
    ensures { result ≡ min place most }
{
    if most < place {
        return most;
    }
    place
}

// The requirements are kept, one after the other; every other record stands in the place of the one before.
fn start_of(tally: Tally) -> usize
    ensures value { result ≡ requirement_size * (tally.records - units_end tally) }
    ensures upper_bound { result ≤ 1572840 }
{
    let before = BEFORE_UNITS as usize + tally.units as usize;
    let records = tally.records as usize;
    if records < before {
        return 0;
    }
    REQUIREMENT * (records - before)
}

// So many records are in a book by its table of contents.
fn is_end(records: usize, tally: Tally) -> bool
    ensures { result ≡ is_end records tally }
{
    records == BEFORE_UNITS as usize + tally.units as usize + tally.requirements as usize
}

// With the last record a byte more is asked for where the book stands alone, so that its call sees whether bytes follow.
fn asked(tally: Tally, alone: bool) -> usize
    ensures value { result ≡ asked tally alone }
    ensures upper_bound { result ≤ 373 }
{
    let bytes = size(tally);
    if !alone {
        return bytes;
    }
    if is_end(tally.records as usize + 1, tally) {
        return bytes + 1;
    }
    bytes
}

fn span(reading: Reading, alone: bool) -> Span
    ensures value { result ≡ span_of reading alone }
    ensures end_bound { result.end ≤ 1573213 }
{
    match reading {
        Reading::Contents(got) => Span {
            start: 0,
            end: CONTENTS,
            got: got,
        },
        Reading::Record(tally, got) => {
            let start = start_of(tally);
            Span {
                start: start,
                end: start + asked(tally, alone),
                got: got,
            }
        }
    }
}

// Where the next bytes go, in a place of so many bytes. What has no room there is not asked for.
pub fn wanted(reading: Reading, alone: bool, room: usize) -> Wanted
    ensures { WantedPromise reading alone room result }
{
    let span = span(reading, alone);
    let to = within(span.end, room);
    let start = within(span.start, to);
    if to - start < span.got {
        return Wanted { from: to, to: to };
    }
    Wanted {
        from: start + span.got,
        to: to,
    }
}

fn with_got(reading: Reading, got: usize) -> Reading
    ensures { result ≡ with_got got reading }
{
    match reading {
        Reading::Contents(_) => Reading::Contents(got),
        Reading::Record(tally, _) => Reading::Record(tally, got),
    }
}

// The table of contents, or as much of it as there is.
fn open(part: &[u8]) -> Came
    ensures { ContentsCame part.now result }
{
    let opened = contents(part);
    match opened {
        Ok(tally) => Came::Wants(Reading::Record(tally, 0)),
        Err(refusal) => Came::Refused(locate(0, refusal)),
    }
}

// The record whose turn it is, or as much of it as there is.
fn take_record(
    tally: Tally,
    part: &[u8],
    measures: &mut [i32],
    sums: &mut [i64],
    figures: &mut [i64],
    numbers: &mut [u16],
    homes: &mut [u8],
    rows: &mut [i64],
    groups: &mut [u16],
    deviations: &mut [i64],
) -> Came
    ensures { RecordCame tally part.now
        (lent_unit measures.old sums.old figures.old numbers.old homes.old rows.old
        groups.old deviations.old) result
        (lent_unit measures.new sums.new figures.new numbers.new homes.new rows.new
        groups.new deviations.new) }
{
    let step = take(
        tally, part, measures, sums, figures, numbers, homes, rows, groups, deviations,
    );
    let taking = step.taking;
    if let Err(said) = taking {
        return Came::Refused(said);
    }
    let next = step.tally;
    if is_end(next.records as usize, next) {
        return Came::Taken(next);
    }
    Came::Wants(Reading::Record(next, 0))
}

// So many bytes have come where `wanted` said; 0 says that the input has ended. Refuses 11 where more came than were wanted, and else what the call refuses
// that the record goes to, whole or as far as it came.
pub fn came(
    reading: Reading,
    alone: bool,
    count: usize,
    bytes: &[u8],
    measures: &mut [i32],
    sums: &mut [i64],
    figures: &mut [i64],
    numbers: &mut [u16],
    homes: &mut [u8],
    rows: &mut [i64],
    groups: &mut [u16],
    deviations: &mut [i64],
) -> Came
    ensures { CamePromise reading alone count bytes.now
        (lent_unit measures.old sums.old figures.old numbers.old homes.old rows.old
        groups.old deviations.old) result
        (lent_unit measures.new sums.new figures.new numbers.new homes.new rows.new
        groups.new deviations.new) }
{
    let span = span(reading, alone);
    let place = wanted(reading, alone, bytes.len());
    let to = place.to;
    if to - place.from < count {
        return Came::Refused(locate(0, Refusal::WrongState));
    }
    let until = place.from + count;
    let start = within(span.start, until);
    if 0 < count {
        if until < to {
            return Came::Wants(with_got(reading, until - start));
        }
    }
    let part = &bytes[start..until];
    match reading {
        Reading::Contents(_) => open(part),
        Reading::Record(tally, _) => take_record(
            tally, part, measures, sums, figures, numbers, homes, rows, groups, deviations,
        ),
    }
}
