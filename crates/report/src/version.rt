// The version that the argument asks for: a whole number of 16 bits by its decimal digits. Leading zeros are let in.
ghost use Rattle.std.specs.Prelude.{◌≡◌};
ghost use Rattle.numerals.specs.Numerals.{blank};
ghost use Rattle.report.specs.Version.{bytes_added, version_of};

use intake::arguments::{argument, argument_count};
use numerals::{Word, longer, no_word};

// The version where none is given.
const FIRST: u16 = 1;

const MOST: u64 = 65_535;

// The longest argument that is looked at: a longer one has no place, so that nothing is there of it, and nothing is no number.
const LONGEST: usize = 20;

fn word_of(bytes: &[u8]) -> Word
    ensures { result ≡ bytes_added blank bytes.now }
{
    let mut word = no_word();
    for &byte in bytes {
        word = longer(word, byte);
    }
    word
}

// The number that a word is. A minus is no digit, not even before 0.
fn version_of(word: Word) -> Option<u16>
    ensures { result ≡ version_of word }
{
    if !word.fine {
        return None;
    }
    if !word.digits {
        return None;
    }
    if word.minus {
        return None;
    }
    if MOST < word.size {
        return None;
    }
    Some(word.size as u16)
}

fn version_in(bytes: &[u8]) -> Option<u16>
    ensures { result ≡ version_of (bytes_added blank bytes.now) }
{
    version_of(word_of(bytes))
}

pub(crate) fn what_is_asked(rt: &HostRuntime) -> Option<u16> {
    let arguments = argument_count(rt);
    if arguments == 1 {
        return Some(FIRST);
    }
    if arguments != 2 {
        return None;
    }
    let mut bytes = [0u8; LONGEST];
    let count = argument(rt, 1, &mut bytes);
    version_in(&bytes[..count])
}
