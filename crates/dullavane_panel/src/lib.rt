// dullavane_panel: the panel's calls as the firmware makes them from C (document 02, R-13), in a static library of their own beside that of `dullavane`. Only
// numbers and lists cross over; the page record stands in three lent words. A call answers 0, or the refusal's number, and then nothing lent has changed.
#![tactic(auto)]

ghost use Rattle.interval.specs.Lent.{Lent, lent_member};
ghost use Rattle.rules.specs.Panel.{first_page, member_page, refusal_page};
ghost use Rattle.std.specs.Prelude.{true};
ghost use Rattle.pages.specs.Promises.{line_of};
ghost use Rattle.panel.specs.Press.{cents};
ghost use Rattle.dullavane.specs.Asked.{direction_of};
ghost use Rattle.dullavane_panel.specs.Called.{PageCalled, StepCalled, PressCalled};
ghost use Rattle.dullavane_panel.specs.Words.{first_narrow, member_narrow, who_in, standing_in};

use dullavane::asked::{asked_refusal, direction_of, tally_held};
use pages::page::{first_page, member_page, refusal_page};
use panel::keys::pressed;
use panel::press::press;
use rules::{Refusal, refusal_number};
use words::{
    KEYS, PAGE_WORDS, first_narrow, key_in, member_narrow, page_in, put_page, shown_in,
    standing_in, tell_drawn, tell_pressed, who_in, words_enough,
};

mod words;

// A requirement's first page, from its numbers.
pub fn dullavane_panel_first(
    number: u32,
    direction: u32,
    rcr: i64,
    pool: i64,
    cost: i64,
    text: &mut [u8],
) -> u32
    ensures { PageCalled (first_narrow number direction) (first_page number (direction_of direction) rcr pool cost) text.old result
        text.new }
{
    if !first_narrow(number, direction) {
        return refusal_number(Refusal::WrongState);
    }
    tell_drawn(first_page(
        number as u16,
        direction_of(direction),
        rcr,
        pool,
        cost,
        text,
    ))
}

// A member's page, from its numbers.
pub fn dullavane_panel_member(
    residual: u32,
    number: u32,
    standing: u32,
    payment: i64,
    used: i64,
    unused: i64,
    text: &mut [u8],
) -> u32
    ensures { PageCalled (member_narrow residual number standing)
        (member_page (line_of (who_in residual number) (standing_in standing) payment used unused)) text.old result text.new }
{
    if !member_narrow(residual, number, standing) {
        return refusal_number(Refusal::WrongState);
    }
    tell_drawn(member_page(
        who_in(residual, number),
        standing_in(standing),
        payment,
        used,
        unused,
        text,
    ))
}

// A refusal's phrase.
pub fn dullavane_panel_phrase(refusal: u32, text: &mut [u8]) -> u32
    ensures { PageCalled true (refusal_page refusal) text.old result text.new }
{
    tell_drawn(refusal_page(refusal, text))
}

// A key, over the page's three words alone.
pub fn dullavane_panel_step(
    page: &mut [u32],
    key: u32,
    book: u32,
    requirement: u32,
    members: u32,
) -> u32
    ensures { StepCalled key book requirement members page.old result page.new }
{
    if page.len() < PAGE_WORDS {
        return refusal_number(Refusal::TooShort);
    }
    if KEYS <= key {
        return refusal_number(Refusal::WrongState);
    }
    put_page(
        pressed(page_in(page), key_in(key), book, requirement, members),
        page,
    );
    0
}

// A key press over a taken book: it moves the page and draws it.
pub fn dullavane_panel_press(
    page: &mut [u32],
    key: u32,
    book: u32,
    tally: &[u32],
    part: &[u8],
    figures: &[i64],
    numbers: &[u16],
    homes: &[u8],
    payments: &[i64],
    used: &[i64],
    unused: &[i64],
    reply: &[u64],
    text: &mut [u8],
) -> u32
    ensures { (rest : Lent) → PressCalled key book tally.now part.now
        (lent_member rest figures.now numbers.now homes.now)
        (cents payments.now used.now unused.now) reply.now page.old text.old result
        page.new text.new }
{
    let refusal = asked_refusal(tally, key < KEYS, words_enough(page.len(), reply.len()));
    if refusal != 0 {
        return refusal;
    }
    let then = press(
        page_in(page),
        key_in(key),
        book,
        tally_held(tally),
        part,
        shown_in(reply),
        figures,
        numbers,
        homes,
        payments,
        used,
        unused,
        text,
    );
    tell_pressed(then, page)
}
