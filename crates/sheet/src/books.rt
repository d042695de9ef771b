// The performances of a requirement from its book, and the name of a wrong member.
ghost use Rattle.std.specs.Prelude.{◌≤◌};

use super::lines::PLACES;
use super::{lines, output};
use answer::call::answer;
use answer::roster::member;
use answer::{Answer, Row};
use book::{POINTS, REQUIREMENT};
use intake::arguments::{argument, open_book};
use intake::whole::{Next, take_book};
use intake::{MEMBERS, RECORDS, UNITS};
use interval::{FIGURES_LENGTH, ROWS_LENGTH, SERIES_LENGTH, SUMS_LENGTH, Tally};
use little::u16_at;
use numerals::{Word, longer, no_word};
use rules::{Refusal, Verdict, locate};
use std::fs::File;
use std::io::Stdin;

// Where the last requirement starts that a book has room for.
const LAST: usize = 744;

// Who a member is.
#[derive(Clone, Copy)]
enum Name {
    Unit(u16),
    Residual,
}

// Where the requirement with this number starts among the bytes of a book's requirements; behind the last where there is none.
fn start_of(wanted: u64, requirements: u16, bytes: &[u8; RECORDS]) -> usize {
    let mut left = requirements;
    let mut start: usize = 0;
    while start <= LAST {
        if left == 0 {
            return RECORDS;
        }
        if u16_at(bytes, start) as u64 == wanted {
            return start;
        }
        start += REQUIREMENT;
        left -= 1;
    }
    RECORDS
}

// 1 for a row that is a member.
fn passed(row: Row) -> u16
    ensures { result ≤ 1 }
{
    if let Row::Unit(_, _) = row {
        return 1;
    }
    0
}

fn name_in(row: Row) -> Name {
    let Row::Unit(number, _) = row else {
        return Name::Residual;
    };
    Name::Unit(number)
}

// The name of a requirement's member, from 1: past its units and groups it is the residual. Of a book that was taken no row is refused; if one were, that would
// be passed on.
fn name_of(
    place: u16,
    given: Answer,
    tally: Tally,
    figures: &[i64; FIGURES_LENGTH],
    numbers: &[u16; UNITS],
    homes: &[u8; UNITS],
) -> Result<Name, Refusal> {
    let direction = given.direction;
    let mut members: u16 = 0;
    for row in 0..tally.units {
        let who = member(tally, row, direction, given.set, figures, numbers, homes);
        if let Row::Refused(refusal) = who {
            return Err(refusal);
        }
        members += passed(who);
        if members == place {
            return Ok(name_in(who));
        }
    }
    Ok(Name::Residual)
}

// The verdict, a wrong member with its name.
fn tell_named(
    verdict: Verdict,
    given: Answer,
    tally: Tally,
    figures: &[i64; FIGURES_LENGTH],
    numbers: &[u16; UNITS],
    homes: &[u8; UNITS],
) {
    let Verdict::WrongMember(place) = verdict else {
        output::tell_verdict(verdict);
        return;
    };
    match name_of(place, given, tally, figures, numbers, homes) {
        Ok(Name::Unit(number)) => output::wrong_unit(place, number),
        Ok(Name::Residual) => output::wrong_residual(place),
        Err(refusal) => output::refused(locate(0, refusal)),
    }
}

// The factors from standard input, beside the answer's performances.
fn judge_factors(
    input: &mut Stdin,
    given: Answer,
    performances: &[i64],
    tally: Tally,
    figures: &[i64; FIGURES_LENGTH],
    numbers: &[u16; UNITS],
    homes: &[u8; UNITS],
) {
    let mut buffer = io::buffer();
    let mut from = lines::fresh();
    let mut factors = [0i64; PLACES];
    let Some(count) = lines::count_in(input, 1, &mut from, &mut buffer, &mut factors) else {
        return;
    };
    match lines::judge(performances, given.members as usize, &factors, count) {
        Ok(verdict) => tell_named(verdict, given, tally, figures, numbers, homes),
        Err(refusal) => output::refused(locate(0, refusal)),
    }
}

// The answer to the requirement that starts there.
fn judge_part(
    input: &mut Stdin,
    start: usize,
    tally: Tally,
    bytes: &[u8; RECORDS],
    measures: &[i32; SERIES_LENGTH],
    sums: &[i64; SUMS_LENGTH],
    figures: &[i64; FIGURES_LENGTH],
    numbers: &[u16; UNITS],
    homes: &[u8; UNITS],
    rows: &[i64; ROWS_LENGTH],
)
    requires { start ≤ 744 }
{
    let whole = &bytes[..];
    let end = start + REQUIREMENT;
    let mut performances = [0i64; MEMBERS];
    let mut factors = [0i64; MEMBERS];
    let mut payments = [0i64; MEMBERS];
    let mut used = [0i64; MEMBERS];
    let mut unused = [0i64; MEMBERS];
    let answered = answer(
        tally,
        &whole[start..end],
        measures,
        sums,
        figures,
        homes,
        rows,
        &mut performances,
        &mut factors,
        &mut payments,
        &mut used,
        &mut unused,
    );
    match answered {
        Ok(given) => { judge_factors(input, given, &performances, tally, figures, numbers, homes) }
        Err(refusal) => output::refused(locate(0, refusal)),
    }
}

// Why a book was not taken.
fn untaken(next: Next) {
    match next {
        Next::Taken(_) => {}
        Next::Ended => output::refused(locate(0, Refusal::EndsEarly)),
        Next::Refused(said) => output::refused(said),
        Next::Failed => output::unread(),
    }
}

// The requirement with this number of an open book.
fn judge_file(input: &mut Stdin, file: &mut File, wanted: u64) {
    let mut bytes = [0u8; RECORDS];
    let mut measures = [0i32; SERIES_LENGTH];
    let mut sums = [0i64; SUMS_LENGTH];
    let mut figures = [0i64; FIGURES_LENGTH];
    let mut numbers = [0u16; UNITS];
    let mut homes = [0u8; UNITS];
    let mut rows = [0i64; ROWS_LENGTH];
    let mut groups = [0u16; UNITS];
    let mut deviations = [0i64; POINTS];
    let next = take_book(
        file,
        true,
        &mut bytes,
        &mut measures,
        &mut sums,
        &mut figures,
        &mut numbers,
        &mut homes,
        &mut rows,
        &mut groups,
        &mut deviations,
    );
    let Next::Taken(tally) = next else {
        untaken(next);
        return;
    };
    let start = start_of(wanted, tally.requirements, &bytes);
    if LAST < start {
        output::no_requirement(wanted);
        return;
    }
    judge_part(
        input, start, tally, &bytes, &measures, &sums, &figures, &numbers, &homes, &rows,
    );
}

// A word that stands alone in a text.
fn word_in(text: &[u8]) -> Word {
    let mut word = no_word();
    for i in 0..text.len() {
        word = longer(word, text[i]);
    }
    word
}

// Can a word be a requirement's number?
fn is_plain(word: Word) -> bool {
    if word.minus {
        return false;
    }
    if !word.digits {
        return false;
    }
    word.fine
}

// The book and the number that the arguments name.
pub(crate) fn judge_book(rt: &HostRuntime, input: &mut Stdin) {
    let mut name = io::buffer();
    let mut digits = [0u8; 32];
    let length = argument(rt, 1, &mut name);
    let places = argument(rt, 2, &mut digits);
    let word = word_in(&digits[..places]);
    if !is_plain(word) {
        output::usage();
        return;
    }
    match open_book(rt, &name[..length]) {
        Ok(opened) => {
            let mut file = opened;
            judge_file(input, &mut file, word.size);
        }
        Err(error) => output::unopened(rt, &name[..length], &error),
    }
}
