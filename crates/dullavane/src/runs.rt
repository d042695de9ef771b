// A run of units over words. They count the records that were added, also where one behind them was refused.
ghost use Rattle.std.specs.Prelude.{◌≡◌, ◌≤◌, length};
ghost use Rattle.dullavane.specs.Words.{told, with_words};
ghost use Rattle.dullavane.specs.Runs.{unheld_told};

use super::words::{put_words, said};
use interval::Step;
use rules::{Refusal, refusal_number};
use units::run::is_whole;

// The first place of a run, in its bits.
pub(crate) const FIRST_PLACE: u64 = 0x1_0000_0000;

// What a run is told as over words that hold no tally, by what its first record is refused with.
pub(crate) fn unheld_told(records: &[u8], first: u64) -> u64
    ensures { result ≡ unheld_told records.now first }
{
    if !is_whole(records) {
        return refusal_number(Refusal::EndsEarly) as u64;
    }
    if records.len() == 0 {
        return 0;
    }
    first
}

// What a run is told as, with its tally in the words.
pub(crate) fn tell_run(step: Step, words: &mut [u32]) -> u64
    requires { 8 ≤ length words.old }
    ensures { (result ≡ told step) × (words.new ≡ with_words step.tally words.old) }
{
    let added = step.tally;
    put_words(added, words);
    let taking = step.taking;
    match taking {
        Ok(()) => 0,
        Err(refused) => said(refused),
    }
}
