// The regions of a requirement's set, and whether each is reliable in its direction.
ghost use Rattle.std.specs.Prelude.{◌≡◌, not, ◌||◌, [], ◌<◌, ◌≤◌, length};
ghost use Rattle.rules.specs.Bytes.{bit};
ghost use Rattle.kept.specs.Kept.{figure, reliable_of, kept_reliable};
ghost use Rattle.answer.specs.Asked.{lent_members, asked};
ghost use Rattle.answer.specs.Made.{reliable_at};

use super::{LOWER_RELIABLE, RAISE_RELIABLE};
use book::REGIONS;
use interval::FIGURES_EACH;
use rules::Direction;

// Is the region in the set?
pub(crate) fn covers(set: u8, region: usize) -> bool
    requires { region < 8 }
    ensures { result ≡ bit region set }
{
    (set >> region) & 1 == 1
}

// Where among a region's figures its reliability stands.
fn reliable_place(direction: Direction) -> usize
    ensures { result ≡ reliable_at direction }
{
    match direction {
        Direction::Raise => RAISE_RELIABLE,
        Direction::Lower => LOWER_RELIABLE,
    }
}

// The figure that tells a region's reliability.
pub(crate) fn figure_of(direction: Direction, region: usize, figures: &[i64]) -> i64
    requires { (region < 5) × (50 ≤ length figures.now) }
    ensures { result ≡ figure (lent_members figures.now [] []) region (reliable_at direction) }
{
    figures[FIGURES_EACH * region + reliable_place(direction)]
}

pub(crate) fn reliable(direction: Direction, region: usize, figures: &[i64]) -> bool
    requires { (region < 5) × (50 ≤ length figures.now) }
    ensures { result ≡ reliable_of (lent_members figures.now [] []) direction region }
{
    0 < figure_of(direction, region, figures)
}

// A region outside the set need not be reliable.
fn stands(direction: Direction, set: u8, region: usize, figures: &[i64]) -> bool
    requires { (region < 5) × (50 ≤ length figures.now) }
    ensures { result ≡ (not (bit region set) || reliable_of (lent_members figures.now [] []) direction region) }
{
    if !covers(set, region) {
        return true;
    }
    reliable(direction, region, figures)
}

pub(crate) fn all_reliable(direction: Direction, set: u8, figures: &[i64]) -> bool
    requires { 50 ≤ length figures.now }
    ensures { result ≡ kept_reliable (lent_members figures.now [] []) (asked direction set) }
{
    for region in 0..REGIONS {
        if !stands(direction, set, region, figures) {
            return false;
        }
    }
    true
}
