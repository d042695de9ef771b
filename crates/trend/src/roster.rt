// The units of a book that was taken, in roster order.
use super::bits::unit_bits;
use super::text::unit_line;
use book::{UNIT, UNITS_START};
use intake::held::{HELD, record_at};
use printing::TEXT;

// How a unit is told.
#[derive(Clone, Copy)]
pub(crate) enum Form {
    Text,
    Bits,
}

fn print_unit(form: Form, part: &[u8], text: &mut [u8; TEXT]) -> bool {
    match form {
        Form::Text => unit_line(part, text),
        Form::Bits => unit_bits(part, text),
    }
}

// Whether all of it was written.
pub(crate) fn print_units(form: Form, units: u16, book: &[u8; HELD]) -> bool {
    let mut text = [0u8; TEXT];
    for unit in 0..units as usize {
        if !print_unit(form, record_at(book, UNITS_START + UNIT * unit), &mut text) {
            return false;
        }
    }
    true
}
