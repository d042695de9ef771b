// The settings record, 8 bytes.
ghost use Rattle.std.specs.Prelude.{◌≡◌, ◌&&◌, leb};
ghost use Rattle.book.specs.Settings.{SettingsPromise};

use super::SettingsFields;
use little::{u8_at, u16_at, u32_at};
use rules::Refusal;

// Smoothing a is 1 to 10,000, the bad-frequency limit 0 to 75, the bad-unit percent 0 to 100.
fn settings_fine(smoothing: u16, limit: u8, percent: u8) -> bool
    ensures { result ≡ (leb 1 smoothing && leb smoothing 10000 && leb limit 75 && leb percent 100) }
{
    if smoothing < 1 {
        return false;
    }
    if 10_000 < smoothing {
        return false;
    }
    if 75 < limit {
        return false;
    }
    percent <= 100
}

// The settings. Refuses 1 and 6.
pub fn read_settings(part: &[u8]) -> Result<SettingsFields, Refusal>
    ensures { SettingsPromise part.now result }
{
    if part.len() < 8 {
        return Err(Refusal::EndsEarly);
    }
    let smoothing = u16_at(part, 0);
    let limit = u8_at(part, 2);
    let percent = u8_at(part, 3);
    if !settings_fine(smoothing, limit, percent) {
        return Err(Refusal::SettingsField);
    }
    Ok(SettingsFields {
        smoothing: smoothing,
        limit: limit,
        percent: percent,
        interval: u32_at(part, 4),
    })
}
