// A key press: it moves the page and draws it, in one call.
ghost use Rattle.std.specs.Prelude.{◌≡◌, ◌+◌, ◌≤◌, length};
ghost use Rattle.interval.specs.Lent.{Lent, lent_member};
ghost use Rattle.pages.specs.Promises.{Draws};
ghost use Rattle.answer.specs.Asked.{no_lists};
ghost use Rattle.answer.specs.Worked.{required};
ghost use Rattle.panel.specs.Press.{cents, shown_page, PressPromise};
ghost use Rattle.panel.specs.Past.{Ready};
ghost use Rattle.panel.specs.Turned.{drawn_alike, told_as, TurnPromise};

use super::Shown;
use super::keys::pressed;
use super::members::rows_in;
use super::tested::{lengths_enough, lent_in_range};
use super::who::member_at;
use book::RequirementFields;
use book::requirement::read_requirement;
use interval::Tally;
use interval::turns::answer_turn;
use pages::page::{first_page, member_page};
use rules::{Key, Page, Refusal};

// From there on every figure is drawn as hashes.
const ALL_HASHES: u64 = 10_000_000_000_000_000;

// A figure that is never below zero, as a signed one: those that are drawn as hashes are drawn alike.
fn unsigned(n: u64) -> i64
    ensures { result ≡ drawn_alike n }
{
    if ALL_HASHES <= n {
        return ALL_HASHES as i64;
    }
    n as i64
}

// The page as it is drawn, for the record.
fn told(page: Page, drawn: Result<(), Refusal>) -> Result<Page, Refusal>
    ensures { result ≡ told_as page drawn }
{
    drawn?;
    Ok(page)
}

// Draws a page of the requirement: 0 is the first, any other that of the member before it.
fn draw(
    page: u32,
    tally: Tally,
    fields: RequirementFields,
    shown: Shown,
    figures: &[i64],
    numbers: &[u16],
    homes: &[u8],
    payments: &[i64],
    used: &[i64],
    unused: &[i64],
    text: &mut [u8],
) -> Result<(), Refusal>
    requires { Ready tally fields.set (lent_member no_lists figures.now numbers.now homes.now)
        (cents payments.now used.now unused.now) (length text.old) × (page ≤ tally.units + 1) }
    ensures { (rest : Lent) → Draws 80 (shown_page tally.units
        (lent_member rest figures.now numbers.now homes.now) (required fields) shown
        (cents payments.now used.now unused.now) page) text.old result text.new }
{
    if page == 0 {
        let direction = fields.direction;
        return first_page(
            fields.number,
            direction,
            unsigned(shown.rcr),
            unsigned(shown.pool),
            unsigned(fields.cost),
            text,
        );
    }
    let k = page - 1;
    let named = member_at(k, tally, fields, shown, figures, numbers, homes);
    let who = named.who;
    let standing = named.standing;
    let at = k as usize;
    member_page(who, standing, payments[at], used[at], unused[at], text)
}

// Moves the page and draws it. Refuses 11 for a reply that tells another number of members than the requirement has.
fn turn_to(
    page: Page,
    key: Key,
    book: u32,
    tally: Tally,
    fields: RequirementFields,
    shown: Shown,
    figures: &[i64],
    numbers: &[u16],
    homes: &[u8],
    payments: &[i64],
    used: &[i64],
    unused: &[i64],
    text: &mut [u8],
) -> Result<Page, Refusal>
    requires { Ready tally fields.set (lent_member no_lists figures.now numbers.now homes.now)
        (cents payments.now used.now unused.now) (length text.old) }
    ensures { (rest : Lent) → TurnPromise page key book tally.units (required fields) shown
        (lent_member rest figures.now numbers.now homes.now)
        (cents payments.now used.now unused.now) text.old result text.new }
{
    let members = rows_in(fields.set, tally.units as usize, homes) + 1;
    if shown.members != members {
        return Err(Refusal::WrongState);
    }
    let then = pressed(page, key, book, fields.number as u32, members as u32);
    let drawn = draw(
        then.page, tally, fields, shown, figures, numbers, homes, payments, used, unused, text,
    );
    told(then, drawn)
}

// A key press over a taken book, for the requirement whose record `part` starts with. Refuses 11 for a tally out of range or before the last unit, then 12 for
// a short list or text, then 11 for a lent number out of range, then 1 and 10 for the record, then 11 for a reply that tells another number of members than
// the requirement has. On a refusal nothing is written, and the page is as it was.
pub fn press(
    page: Page,
    key: Key,
    book: u32,
    tally: Tally,
    part: &[u8],
    shown: Shown,
    figures: &[i64],
    numbers: &[u16],
    homes: &[u8],
    payments: &[i64],
    used: &[i64],
    unused: &[i64],
    text: &mut [u8],
) -> Result<Page, Refusal>
    ensures { (rest : Lent) → PressPromise page key book tally part.now shown
        (lent_member rest figures.now numbers.now homes.now)
        (cents payments.now used.now unused.now) text.old result text.new }
{
    if !answer_turn(tally) {
        return Err(Refusal::WrongState);
    }
    let units = tally.units as usize;
    if !lengths_enough(
        units,
        figures.len(),
        numbers.len(),
        homes.len(),
        payments.len(),
        used.len(),
        unused.len(),
        text.len(),
    ) {
        return Err(Refusal::TooShort);
    }
    if !lent_in_range(tally.interval, units, figures, homes) {
        return Err(Refusal::WrongState);
    }
    let fields = read_requirement(part, 0, false)?;
    turn_to(
        page, key, book, tally, fields, shown, figures, numbers, homes, payments, used, unused,
        text,
    )
}
