// The smallest pieces, each put before what stands from `at` on; the answer is where the drawing now starts.
ghost use Rattle.rules.specs.Panel.{repeated};
ghost use Rattle.listing.specs.Pieces.{Room, Put};

// The same byte so many times. With the library's `fill` of that part `put_labelled` takes 16 bytes of stack more, and a key press is to do with 512.
pub(crate) fn put_repeated(byte: u8, count: usize, at: usize, text: &mut [u8]) -> usize
    requires { Room count at text.old }
    ensures { Put (repeated byte count) at text.old result text.new }
{
    let from = at - count;
    for to in (from..at).rev() {
        text[to] = byte;
    }
    from
}
