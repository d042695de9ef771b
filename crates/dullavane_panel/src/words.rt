// Numbers and words as C hands them over, and what they say.
ghost use Rattle.std.specs.Prelude.{◌≡◌, ◌≤◌, length, true};
ghost use Rattle.dullavane_panel.specs.Words.{first_narrow, member_narrow, who_in, standing_in, key_of, page_of, with_page, enough};
ghost use Rattle.dullavane_panel.specs.Words.{members_of, shown_of, drawn_number, pressed_number, page_after};

use pages::Who;
use panel::Shown;
use rules::{Key, Page, Reason, Refusal, Standing, refusal_number};

const OVER_16_BITS: u32 = 65_536;

// Keys by their numbers: 0 show, 1 next, 2 previous, 3 home.
pub(crate) const KEYS: u32 = 4;

// Standings by their numbers: 0 live, 1 to 3 default, by the reason.
const STANDINGS: u32 = 4;

// Words of a page record, and of an answer's reply.
pub(crate) const PAGE_WORDS: usize = 3;

const REPLY_WORDS: usize = 8;

// Is each number of a requirement's first page within its field?
pub(crate) fn first_narrow(number: u32, direction: u32) -> bool
    ensures { result ≡ first_narrow number direction }
{
    if OVER_16_BITS <= number {
        return false;
    }
    direction < 2
}

// And of a member's page? The residual's has no unit number, and none is looked at.
pub(crate) fn member_narrow(residual: u32, number: u32, standing: u32) -> bool
    ensures { result ≡ member_narrow residual number standing }
{
    if STANDINGS <= standing {
        return false;
    }
    if residual == 0 {
        return number < OVER_16_BITS;
    }
    residual < 2
}

pub(crate) fn who_in(residual: u32, number: u32) -> Who
    requires { member_narrow residual number 0 ≡ true }
    ensures { result ≡ who_in residual number }
{
    if residual == 0 {
        return Who::Unit(number as u16);
    }
    Who::Residual
}

pub(crate) fn standing_in(standing: u32) -> Standing
    ensures { result ≡ standing_in standing }
{
    match standing {
        0 => Standing::Live,
        1 => Standing::Default(Reason::UnreliableRegion),
        2 => Standing::Default(Reason::BadUnit),
        _ => Standing::Default(Reason::NoGoodUnit),
    }
}

pub(crate) fn key_in(key: u32) -> Key
    ensures { result ≡ key_of key }
{
    match key {
        1 => Key::Next,
        2 => Key::Previous,
        3 => Key::Home,
        _ => Key::Show,
    }
}

pub(crate) fn page_in(words: &[u32]) -> Page
    requires { 3 ≤ length words.now }
    ensures { result ≡ page_of words.now }
{
    Page {
        book: words[0],
        requirement: words[1],
        page: words[2],
    }
}

// Words past the three stay.
pub(crate) fn put_page(page: Page, words: &mut [u32])
    requires { 3 ≤ length words.old }
    ensures { words.new ≡ with_page page words.old }
{
    words[0] = page.book;
    words[1] = page.requirement;
    words[2] = page.page;
}

// Words enough for a page record and for an answer's reply, by their numbers.
pub(crate) fn words_enough(page: usize, reply: usize) -> bool
    ensures { result ≡ enough page reply }
{
    if page < PAGE_WORDS {
        return false;
    }
    REPLY_WORDS <= reply
}

// What the words of an answer's reply say. Words that no answer leaves say no members, which no requirement has, so that the press refuses them.
pub(crate) fn shown_in(reply: &[u64]) -> Shown
    requires { 8 ≤ length reply.now }
    ensures { result ≡ shown_of reply.now }
{
    Shown {
        members: members_in(reply[0], reply[7]),
        rcr: reply[1],
        pool: reply[2],
        residual: standing_in((reply[7] % 4) as u32),
    }
}

fn members_in(members: u64, standing: u64) -> u16
    ensures { result ≡ members_of members standing }
{
    if OVER_16_BITS as u64 <= members {
        return 0;
    }
    if STANDINGS as u64 <= standing {
        return 0;
    }
    members as u16
}

pub(crate) fn tell_drawn(drawn: Result<(), Refusal>) -> u32
    ensures { result ≡ drawn_number drawn }
{
    match drawn {
        Ok(()) => 0,
        Err(refusal) => refusal_number(refusal),
    }
}

// The number of a press, with the page in its words where it was drawn.
pub(crate) fn tell_pressed(then: Result<Page, Refusal>, words: &mut [u32]) -> u32
    requires { 3 ≤ length words.old }
    ensures { (result ≡ pressed_number then) × (words.new ≡ page_after then words.old) }
{
    match then {
        Ok(page) => {
            put_page(page, words);
            0
        }
        Err(why) => refusal_number(why),
    }
}
