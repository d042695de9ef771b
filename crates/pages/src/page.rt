// The pages, from plain numbers: each refuses 12 for a text under 80 bytes, with nothing written; bytes past the 80th stay.
ghost use Rattle.std.specs.Prelude.{◌≡◌};
ghost use Rattle.rules.specs.Panel.{first_page, member_page, refusal_page};
ghost use Rattle.pages.specs.Promises.{Draws, line_of};

use super::lines::{put_labelled, put_member, put_requirement};
use super::phrases::phrase;
use super::pieces::put_repeated;
use super::{LINE, PAGE, Who};
use listing::pieces::put_word;
use rules::{Direction, Refusal, Standing};

// A requirement's first page: its number and direction, RCR, pool and cost.
pub fn first_page(
    number: u16,
    direction: Direction,
    rcr: i64,
    pool: i64,
    cost: i64,
    text: &mut [u8],
) -> Result<(), Refusal>
    ensures { Draws 80 (first_page number direction rcr pool cost) text.old result text.new }
{
    if text.len() < PAGE {
        return Err(Refusal::TooShort);
    }
    let fourth = put_labelled(b"COST", cost, PAGE, text);
    let third = put_labelled(b"POOL", pool, fourth, text);
    put_labelled(b"RCR ", rcr, third, text);
    put_requirement(number, direction, text);
    Ok(())
}

// A member's page: its name and standing, payment, used and unused.
pub fn member_page(
    who: Who,
    standing: Standing,
    payment: i64,
    used: i64,
    unused: i64,
    text: &mut [u8],
) -> Result<(), Refusal>
    ensures { Draws 80 (member_page (line_of who standing payment used unused)) text.old result text.new }
{
    if text.len() < PAGE {
        return Err(Refusal::TooShort);
    }
    let fourth = put_labelled(b"IDLE", unused, PAGE, text);
    let third = put_labelled(b"USED", used, fourth, text);
    put_labelled(b"PAY ", payment, third, text);
    put_member(who, standing, text);
    Ok(())
}

// A refusal's page: its phrase, and spaces.
pub fn refusal_page(number: u32, text: &mut [u8]) -> Result<(), Refusal>
    ensures { Draws 80 (refusal_page number) text.old result text.new }
{
    if text.len() < PAGE {
        return Err(Refusal::TooShort);
    }
    let said = phrase(number);
    let start = put_repeated(b' ', PAGE - LINE, PAGE, text);
    put_word(&said, start, text);
    Ok(())
}
