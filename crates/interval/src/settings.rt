// The settings record, the first after the table of contents.
ghost use Rattle.std.specs.Prelude.{◌≡◌};
ghost use Rattle.interval.specs.Promises.{SettingsPromise};

use super::steps::refuse;
use super::turns::settings_turn;
use super::{Step, Tally};
use rules::Refusal;

// Takes the settings. Refuses 11, then 1 and 6.
pub fn settings(tally: Tally, part: &[u8]) -> Step
    ensures { SettingsPromise tally part.now result }
{
    if !settings_turn(tally) {
        return refuse(tally, Refusal::WrongState);
    }
    let read = book::settings::read_settings(part);
    match read {
        Ok(fields) => Step {
            tally: Tally {
                units: tally.units,
                requirements: tally.requirements,
                records: 1,
                least: 0,
                smoothing: fields.smoothing,
                limit: fields.limit,
                percent: fields.percent,
                interval: fields.interval,
            },
            taking: Ok(()),
        },
        Err(refusal) => refuse(tally, refusal),
    }
}
