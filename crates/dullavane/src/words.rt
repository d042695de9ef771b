// The tally in eight lent words, in the order of its fields.
ghost use Rattle.std.specs.Prelude.{◌≡◌, ◌&&◌, ◌≤◌, ltb, length};
ghost use Rattle.dullavane.specs.Words.{held, handed, with_words, said, told, words_after, words_fit, Held};
ghost use Rattle.rules.specs.Refusals.{taken};

use interval::{Step, Tally};
use rules::{Located, Refusal, refusal_number, refusal_point};

pub(crate) const TALLY_WORDS: usize = 8;

pub(crate) const OVER_16_BITS: u32 = 65_536;

pub(crate) const OVER_8_BITS: u32 = 256;

// Is each word within its field's width? Two fields are as wide as a word.
fn narrow(words: &[u32]) -> bool
    requires { 8 ≤ length words.now }
    ensures { result ≡ words_fit words.now }
{
    if OVER_16_BITS <= words[0] {
        return false;
    }
    if OVER_16_BITS <= words[1] {
        return false;
    }
    if OVER_16_BITS <= words[2] {
        return false;
    }
    if OVER_16_BITS <= words[4] {
        return false;
    }
    if OVER_8_BITS <= words[5] {
        return false;
    }
    words[6] < OVER_8_BITS
}

// The tally that words hold, or why they hold none: 12 for fewer than eight words, then 11 for a word over its field's width.
pub(crate) fn held(words: &[u32]) -> Result<Tally, Refusal>
    ensures { result ≡ handed (held words.now) }
{
    if words.len() < TALLY_WORDS {
        return Err(Refusal::TooShort);
    }
    if !narrow(words) {
        return Err(Refusal::WrongState);
    }
    Ok(tally_in(words))
}

// The tally in words that hold one.
fn tally_in(words: &[u32]) -> Tally
    requires { Held words.now }
    ensures { held words.now ≡ taken result }
{
    Tally {
        units: words[0] as u16,
        requirements: words[1] as u16,
        records: words[2] as u16,
        least: words[3],
        smoothing: words[4] as u16,
        limit: words[5] as u8,
        percent: words[6] as u8,
        interval: words[7],
    }
}

// Words past the eight stay.
pub(crate) fn put_words(tally: Tally, words: &mut [u32])
    requires { 8 ≤ length words.old }
    ensures { words.new ≡ with_words tally words.old }
{
    words[0] = tally.units as u32;
    words[1] = tally.requirements as u32;
    words[2] = tally.records as u32;
    words[3] = tally.least;
    words[4] = tally.smoothing as u32;
    words[5] = tally.limit as u32;
    words[6] = tally.percent as u32;
    words[7] = tally.interval;
}

// A refusal and where it is: its number in bits 0 to 31, the place in bits 32 to 47, t in bits 48 to 63.
pub(crate) fn said(refused: Located) -> u64
    ensures { result ≡ said refused }
{
    let refusal = refused.refusal;
    refusal_number(refusal) as u64
        + refused.place as u64 * 0x1_0000_0000
        + refusal_point(refusal) as u64 * 0x1_0000_0000_0000
}

// What a step is told as, with its tally in the words where the record was taken.
pub(crate) fn tell(step: Step, words: &mut [u32]) -> u64
    requires { 8 ≤ length words.old }
    ensures { (result ≡ told step) × (words.new ≡ words_after step words.old) }
{
    let taking = step.taking;
    match taking {
        Ok(()) => {
            let next = step.tally;
            put_words(next, words);
            0
        }
        Err(refused) => said(refused),
    }
}
