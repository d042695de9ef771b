// A book on show: its requirements, and the keys that go through their pages. A requirement's answer is worked out when it comes on show.
ghost use Rattle.std.specs.Prelude.{◌≤◌};
ghost use Rattle.watch.specs.Commands.{Within};

use super::commands::{Turn, turn_of};
use super::keys::next_command;
use super::screen::show;
use super::{Left, Place};
use answer::Answer;
use answer::call::answer;
use book::REQUIREMENT;
use intake::{MEMBERS, RECORDS, UNITS};
use interval::{FIGURES_LENGTH, ROWS_LENGTH, SERIES_LENGTH, SUMS_LENGTH, Tally};
use pages::PAGE;
use pages::page::refusal_page;
use panel::Shown;
use panel::press::press;
use rules::{Key, Page, refusal_number};
use std::io::Stdin;

// The last requirement's place, from 0.
fn last_of(requirements: u16) -> u16
    requires { requirements ≤ 32 }
    ensures { result ≤ 31 }
{
    if requirements == 0 {
        return 0;
    }
    requirements - 1
}

fn shown_of(given: Answer) -> Shown {
    let residual = given.residual;
    Shown {
        members: given.members,
        rcr: given.rcr,
        pool: given.pool,
        residual: residual,
    }
}

fn ended(page: Page, last: u16) -> Left
    ensures { Within last result.turn }
{
    Left {
        page: page,
        turn: Turn::End,
    }
}

// The page that was shown, where its screen could be written.
fn after_screen(page: Page, written: bool) -> Option<Page> {
    if !written {
        return None;
    }
    Some(page)
}

// A refusal's page.
fn show_phrase(number: u32, live: bool) -> bool {
    let mut text = [b' '; PAGE];
    // A page has room for every phrase.
    let _ = refusal_page(number, &mut text);
    show(live, &text)
}

// The screen after a key. No press on a book that was taken is refused; if one were, its phrase would be shown.
fn show_press(
    page: Page,
    key: Key,
    place: Place,
    tally: Tally,
    part: &[u8],
    shown: Shown,
    figures: &[i64; FIGURES_LENGTH],
    numbers: &[u16; UNITS],
    homes: &[u8; UNITS],
    payments: &[i64; MEMBERS],
    used: &[i64; MEMBERS],
    unused: &[i64; MEMBERS],
) -> Option<Page> {
    let mut text = [b' '; PAGE];
    let pressed = press(
        page, key, place.book, tally, part, shown, figures, numbers, homes, payments, used, unused,
        &mut text,
    );
    match pressed {
        Ok(next) => after_screen(next, show(place.live, &text)),
        Err(refusal) => after_screen(page, show_phrase(refusal_number(refusal), place.live)),
    }
}

// A phrase on show, until a key leaves it. Of a refused book there is no requirement but the first to go to.
pub(crate) fn watch_phrase(
    input: &mut Stdin,
    number: u32,
    place: Place,
    page: Page,
    requirement: u16,
    last: u16,
) -> Left
    requires { requirement ≤ last }
    ensures { Within last result.turn }
{
    for _ in 0..u64::MAX {
        if !show_phrase(number, place.live) {
            return ended(page, last);
        }
        let turn = turn_of(next_command(input), requirement, last, place.more);
        let Turn::Press(_) = turn else {
            return Left {
                page: page,
                turn: turn,
            };
        };
    }
    ended(page, last)
}

// A requirement on show, until a key leaves it. No input has as many keys as are counted here: it says that the loop ends.
fn watch_keys(
    input: &mut Stdin,
    place: Place,
    page: Page,
    requirement: u16,
    last: u16,
    tally: Tally,
    part: &[u8],
    shown: Shown,
    figures: &[i64; FIGURES_LENGTH],
    numbers: &[u16; UNITS],
    homes: &[u8; UNITS],
    payments: &[i64; MEMBERS],
    used: &[i64; MEMBERS],
    unused: &[i64; MEMBERS],
) -> Left
    requires { requirement ≤ last }
    ensures { Within last result.turn }
{
    let mut current = page;
    let mut key = Key::Show;
    for _ in 0..u64::MAX {
        let screen = show_press(
            current, key, place, tally, part, shown, figures, numbers, homes, payments, used,
            unused,
        );
        let Some(next) = screen else {
            return ended(current, last);
        };
        current = next;
        let turn = turn_of(next_command(input), requirement, last, place.more);
        let Turn::Press(pressed) = turn else {
            return Left {
                page: current,
                turn: turn,
            };
        };
        key = pressed;
    }
    ended(current, last)
}

// The requirement at this place, with its answer.
fn watch_requirement(
    input: &mut Stdin,
    place: Place,
    page: Page,
    requirement: u16,
    last: u16,
    tally: Tally,
    bytes: &[u8; RECORDS],
    measures: &[i32; SERIES_LENGTH],
    sums: &[i64; SUMS_LENGTH],
    figures: &[i64; FIGURES_LENGTH],
    numbers: &[u16; UNITS],
    homes: &[u8; UNITS],
    rows: &[i64; ROWS_LENGTH],
) -> Left
    requires { (requirement ≤ last) × (last ≤ 31) }
    ensures { Within last result.turn }
{
    let whole = &bytes[..];
    let start = REQUIREMENT * requirement as usize;
    let end = start + REQUIREMENT;
    let part = &whole[start..end];
    let mut performances = [0i64; MEMBERS];
    let mut factors = [0i64; MEMBERS];
    let mut payments = [0i64; MEMBERS];
    let mut used = [0i64; MEMBERS];
    let mut unused = [0i64; MEMBERS];
    let answered = answer(
        tally,
        part,
        measures,
        sums,
        figures,
        homes,
        rows,
        &mut performances,
        &mut factors,
        &mut payments,
        &mut used,
        &mut unused,
    );
    match answered {
        Ok(given) => watch_keys(
            input,
            place,
            page,
            requirement,
            last,
            tally,
            part,
            shown_of(given),
            figures,
            numbers,
            homes,
            &payments,
            &used,
            &unused,
        ),
        Err(refusal) => watch_phrase(
            input,
            refusal_number(refusal),
            place,
            page,
            requirement,
            last,
        ),
    }
}

// A taken book, from its first requirement on. It announces no more requirements than its bytes have room for.
pub(crate) fn watch_requirements(
    input: &mut Stdin,
    place: Place,
    page: Page,
    tally: Tally,
    bytes: &[u8; RECORDS],
    measures: &[i32; SERIES_LENGTH],
    sums: &[i64; SUMS_LENGTH],
    figures: &[i64; FIGURES_LENGTH],
    numbers: &[u16; UNITS],
    homes: &[u8; UNITS],
    rows: &[i64; ROWS_LENGTH],
) -> Left
    requires { tally.requirements ≤ 32 }
{
    let last = last_of(tally.requirements);
    let mut current = page;
    let mut requirement: u16 = 0;
    for _ in 0..u64::MAX {
        let left = watch_requirement(
            input,
            place,
            current,
            requirement,
            last,
            tally,
            bytes,
            measures,
            sums,
            figures,
            numbers,
            homes,
            rows,
        );
        let turn = left.turn;
        let Turn::Requirement(next) = turn else {
            return left;
        };
        let kept = left.page;
        current = kept;
        requirement = next;
    }
    ended(current, last)
}
