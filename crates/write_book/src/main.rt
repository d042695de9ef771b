// write_book: a text of any length on standard input, as a book on standard output (document 02, R-4); the text is what `read_book` prints. A word that is not
// what has to stand there is told as `text` and its line, a refusal as `refused` with number, place and t, and then no byte of a book is written. What goes
// wrong with reading or writing is told on standard error.
#![tactic(auto)]

mod keeping;
mod next;
mod output;
mod reading;
mod words;

use keeping::{
    BOOK, FREQUENCIES, READINGS, REGION_NUMBERS, REGION_QUALITIES, REQUIREMENT_NUMBERS, SETTINGS,
    UNIT_NUMBERS, UNIT_QUALITIES, settings_row,
};
use reading::{Fault, read_text};
use writer::write::write;

// The book of what was kept, or the refusal.
fn put_book(
    units: u32,
    requirements: u32,
    settings: &[i64; SETTINGS],
    region_rows: &[i64; REGION_NUMBERS],
    region_qualities: &[u8; REGION_QUALITIES],
    frequencies: &[u32; FREQUENCIES],
    unit_rows: &[i64; UNIT_NUMBERS],
    unit_qualities: &[u8; UNIT_QUALITIES],
    readings: &[i32; READINGS],
    requirement_rows: &[i64; REQUIREMENT_NUMBERS],
    book: &mut [u8; BOOK],
) {
    let written = write(
        settings_row(settings),
        region_rows,
        region_qualities,
        frequencies,
        units,
        unit_rows,
        unit_qualities,
        readings,
        requirements,
        requirement_rows,
        book,
    );
    output::tell(written, book);
}

// The buffers, in bytes: a row of settings 32; regions 360, qualities 50, points 1,500; units 49,248, qualities 5,130, readings 153,900; requirements 1,848;
// the book 193,532; a piece of the text 4,096.
fn main(rt: HostRuntime) {
    let mut input = rt.stdin();
    let mut settings = [0i64; SETTINGS];
    let mut region_rows = [0i64; REGION_NUMBERS];
    let mut region_qualities = [0u8; REGION_QUALITIES];
    let mut frequencies = [0u32; FREQUENCIES];
    let mut unit_rows = [0i64; UNIT_NUMBERS];
    let mut unit_qualities = [0u8; UNIT_QUALITIES];
    let mut readings = [0i32; READINGS];
    let mut requirement_rows = [0i64; REQUIREMENT_NUMBERS];
    let mut book = [0u8; BOOK];
    let told = read_text(
        &mut input,
        &mut settings,
        &mut region_rows,
        &mut region_qualities,
        &mut frequencies,
        &mut unit_rows,
        &mut unit_qualities,
        &mut readings,
        &mut requirement_rows,
    );
    match told {
        Ok((units, requirements)) => put_book(
            units,
            requirements,
            &settings,
            &region_rows,
            &region_qualities,
            &frequencies,
            &unit_rows,
            &unit_qualities,
            &readings,
            &requirement_rows,
            &mut book,
        ),
        Err(Fault::Line(line)) => output::text_fault(line),
        Err(Fault::Unread) => output::reading_failed(),
    }
}
