// The table of contents starts a tally.
ghost use Rattle.std.specs.Prelude.{◌≡◌};
ghost use Rattle.interval.specs.Promises.{ContentsPromise};

use super::Tally;
use rules::Refusal;

// Announces how many units and requirements are to come. Refuses 1, 2, 3 and 5, and has no tally to hand back.
pub fn contents(part: &[u8]) -> Result<Tally, Refusal>
    ensures { ContentsPromise part.now result }
{
    let counts = book::contents::read_contents(part)?;
    Ok(Tally {
        units: counts.units,
        requirements: counts.requirements,
        records: 0,
        least: 0,
        smoothing: 0,
        limit: 0,
        percent: 0,
        interval: 0,
    })
}
