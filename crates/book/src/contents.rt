// The table of contents: 56 bytes at the front of a book.
ghost use Rattle.std.specs.Prelude.{◌≡◌, ◌&&◌, leb, ◌+◌, ◌<◌, length};
ghost use Rattle.book.specs.Contents.{ContentsPromise, contents_answer, entry_answer, entries};

use super::Counts;
use little::{u16_at, u32_at};
use rules::Refusal;

// Bytes 46 43 46 31.
pub const MARK: u32 = 0x3146_4346;

fn count_within(items: u16, least: u16, most: u16) -> bool
    ensures { result ≡ (leb least items && leb items most) }
{
    if items < least {
        return false;
    }
    items <= most
}

// One entry: its kind, then its count (5 before 3 at that field), then offset and length.
fn entry(
    part: &[u8],
    place: usize,
    kind: u16,
    least: u16,
    most: u16,
    start: u32,
    size: u32,
) -> Result<(), Refusal>
    requires { (place < 512) × (size < 512) }
    ensures { result ≡ entry_answer place kind least most start size part.now }
{
    if u16_at(part, place) != kind {
        return Err(Refusal::WrongTable);
    }
    let items = u16_at(part, place + 2);
    if !count_within(items, least, most) {
        return Err(Refusal::WrongCount);
    }
    if u32_at(part, place + 4) != start {
        return Err(Refusal::WrongTable);
    }
    if u32_at(part, place + 8) != items as u32 * size {
        return Err(Refusal::WrongTable);
    }
    Ok(())
}

// The four entries, kinds 1 to 4 in order.
fn read_entries(part: &[u8]) -> Result<Counts, Refusal>
    ensures { result ≡ contents_answer (entries part.now) }
{
    entry(part, 8, 1, 1, 1, 56, 8)?;
    entry(part, 20, 2, 5, 5, 64, 368)?;
    entry(part, 32, 3, 0, 512, 1904, 372)?;
    let n = u16_at(part, 34);
    entry(part, 44, 4, 1, 32, 1904 + n as u32 * 372, 24)?;
    Ok(Counts {
        units: n,
        requirements: u16_at(part, 46),
    })
}

// How many units and requirements the book announces. Refuses 1, 2, 3 and 5, in the order of the fields.
pub fn read_contents(part: &[u8]) -> Result<Counts, Refusal>
    ensures { ContentsPromise part.now result }
{
    if part.len() < 56 {
        return Err(Refusal::EndsEarly);
    }
    if u32_at(part, 0) != MARK {
        return Err(Refusal::WrongMark);
    }
    if u16_at(part, 4) != 4 {
        return Err(Refusal::WrongTable);
    }
    if u16_at(part, 6) != 0 {
        return Err(Refusal::WrongTable);
    }
    read_entries(part)
}
