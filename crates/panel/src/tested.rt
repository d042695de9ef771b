// What is tested before anything is drawn: lists that are long enough, else 12; numbers that are read in range, else 11.
ghost use Rattle.std.specs.Prelude.{◌≡◌, ◌≤◌, ◌<◌, length};
ghost use Rattle.panel.specs.Press.{press_long_by, reliability_fine, reliabilities_fine, homes_fine, press_fine};

use book::REGIONS;
use interval::lent::{of_interval, within_bounds};
use interval::{FIGURES_EACH, FIGURES_LENGTH, PASSED_OVER};
use pages::PAGE;

// Where among a region's figures the reliability of raise and of lower stand.
const RAISE_RELIABLE: usize = 2;

const LOWER_RELIABLE: usize = 3;

// The figures of five regions, a number and a home for each unit, one number more in each of three columns, and 80 bytes of text; by their lengths.
pub(crate) fn lengths_enough(
    units: usize,
    figures: usize,
    numbers: usize,
    homes: usize,
    payments: usize,
    used: usize,
    unused: usize,
    text: usize,
) -> bool
    ensures { result ≡ press_long_by units figures numbers homes payments used unused text }
{
    if figures < FIGURES_LENGTH {
        return false;
    }
    if numbers < units {
        return false;
    }
    if homes < units {
        return false;
    }
    if payments <= units {
        return false;
    }
    if used <= units {
        return false;
    }
    if unused <= units {
        return false;
    }
    PAGE <= text
}

// Each home is that of a row that is passed over, or names a region.
fn homes_in_range(units: usize, homes: &[u8]) -> bool
    requires { units ≤ length homes.now }
    ensures { result ≡ homes_fine units homes.now }
{
    for row in 0..units {
        if PASSED_OVER < homes[row] {
            return false;
        }
    }
    true
}

// A region's reliability, of raise and of lower, is 0 or 1.
fn reliable_in_range(region: usize, figures: &[i64]) -> bool
    requires { (region < 5) × (50 ≤ length figures.now) }
    ensures { result ≡ reliability_fine figures.now region }
{
    let at = FIGURES_EACH * region;
    if !within_bounds(0, 1, figures[at + RAISE_RELIABLE]) {
        return false;
    }
    within_bounds(0, 1, figures[at + LOWER_RELIABLE])
}

fn reliabilities_in_range(figures: &[i64]) -> bool
    requires { 50 ≤ length figures.now }
    ensures { result ≡ reliabilities_fine figures.now }
{
    for region in 0..REGIONS {
        if !reliable_in_range(region, figures) {
            return false;
        }
    }
    true
}

// Every number that is read: figures of the tally's interval, and the two above.
pub(crate) fn lent_in_range(interval: u32, units: usize, figures: &[i64], homes: &[u8]) -> bool
    requires { (50 ≤ length figures.now) × (units ≤ length homes.now) }
    ensures { result ≡ press_fine interval units figures.now homes.now }
{
    if !of_interval(interval, figures) {
        return false;
    }
    if !reliabilities_in_range(figures) {
        return false;
    }
    homes_in_range(units, homes)
}
