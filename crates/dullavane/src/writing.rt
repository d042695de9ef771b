// What is told of a book that is written: its length in the upper half, above 0; or the refusal and where it is.
ghost use Rattle.std.specs.Prelude.{◌≡◌};
ghost use Rattle.dullavane.specs.Writing.{answer_told};

use super::words::said;
use rules::Located;

pub(crate) fn tell_written(written: Result<u32, Located>) -> u64
    ensures { result ≡ answer_told written }
{
    match written {
        Ok(length) => length as u64 * 0x1_0000_0000,
        Err(refused) => said(refused),
    }
}
