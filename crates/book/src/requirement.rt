// A requirement record, 24 bytes. After the last one no byte may follow.
ghost use Rattle.std.specs.Prelude.{◌≡◌, not, ◌&&◌, ◌||◌, leb, eqb, length};
ghost use Rattle.rules.specs.Bytes.{number_at};
ghost use Rattle.rules.specs.RequirementRecord.{requirement_in, requirement_fine, set_fine, direction_of};
ghost use Rattle.book.specs.Requirement.{RequirementPromise, requirement_of, amounts_fine};

use super::RequirementFields;
use little::{u8_at, u16_at, u32_at, u64_at};
use rules::{Direction, Refusal};

// A region set has one or more of the bits 0 to 4, and no other.
fn region_set_fine(set: u8) -> bool
    ensures { result ≡ set_fine set }
{
    if set >> 5 != 0 {
        return false;
    }
    set & 0x1f != 0
}

// Price, cost, enabled and used are within their limits.
fn amounts_within(part: &[u8]) -> bool
    ensures { result ≡ amounts_fine (requirement_in part.now) }
{
    if 10_000_000 < u32_at(part, 4) {
        return false;
    }
    if 1_000_000_000_000 < u64_at(part, 8) {
        return false;
    }
    if 2_000_000 < u32_at(part, 16) {
        return false;
    }
    u32_at(part, 20) <= 2_000_000
}

// Every field keeps its rule, and the number is `least` or more.
fn requirement_fields_fine(part: &[u8], least: u32) -> bool
    ensures { result ≡
        (leb least (requirement_in part.now).number && leb (number_at 1 3 part.now) 1
        && requirement_fine (requirement_in part.now)) }
{
    if (u16_at(part, 0) as u32) < least {
        return false;
    }
    if 1 < u8_at(part, 3) {
        return false;
    }
    if !region_set_fine(u8_at(part, 2)) {
        return false;
    }
    amounts_within(part)
}

fn direction(byte: u8) -> Direction
    ensures { result ≡ direction_of byte }
{
    if byte == 1 {
        Direction::Lower
    } else {
        Direction::Raise
    }
}

fn requirement_fields(part: &[u8]) -> RequirementFields
    ensures { result ≡ requirement_of (requirement_in part.now) }
{
    RequirementFields {
        number: u16_at(part, 0),
        set: u8_at(part, 2),
        direction: direction(u8_at(part, 3)),
        price: u32_at(part, 4),
        cost: u64_at(part, 8),
        enabled: u32_at(part, 16),
        used: u32_at(part, 20),
    }
}

fn ends_with_the_book(part: &[u8], last: bool) -> bool
    ensures { result ≡ (not last || eqb (length part.now) 24) }
{
    if last {
        return part.len() == 24;
    }
    true
}

// A requirement whose number is `least` or more: one more than the number before it, 0 for the first. Refuses 1, then 10, then,
// after the last, 4.
pub fn read_requirement(part: &[u8], least: u32, last: bool) -> Result<RequirementFields, Refusal>
    ensures { RequirementPromise least last part.now result }
{
    if part.len() < 24 {
        return Err(Refusal::EndsEarly);
    }
    if !requirement_fields_fine(part, least) {
        return Err(Refusal::RequirementField);
    }
    if !ends_with_the_book(part, last) {
        return Err(Refusal::BytesFollow);
    }
    Ok(requirement_fields(part))
}
