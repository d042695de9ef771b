// The members of a requirement's regions, by their homes.
ghost use Rattle.std.specs.Prelude.{◌≡◌, not, ◌&&◌, [], ◌<◌, ◌≤◌, ◌/◌, ◌%◌, eqb};
ghost use Rattle.rules.specs.Bytes.{bit};
ghost use Rattle.answer.specs.Asked.{lent_members};
ghost use Rattle.answer.specs.Rcr.{HomesNamed, few_bad, Counted};

use super::counts::counted;
use super::homes::{in_set, is_good};

// How many members of the set's regions there are, and how many of them are bad.
#[derive(Clone, Copy)]
pub(crate) struct Units {
    pub all: u32,
    pub bad: u32,
}

fn bad_in_set(set: u8, home: u8) -> bool
    requires { home < 11 }
    ensures { result ≡ (bit (home / 2) set && not (eqb (home % 2) 1)) }
{
    if !in_set(set, home) {
        return false;
    }
    !is_good(home)
}

fn count_units(units: usize, set: u8, homes: &[u8]) -> Units
    requires { (units ≤ 512) × HomesNamed units (lent_members [] homes.now []) }
    ensures { Counted units set (lent_members [] homes.now []) result }
{
    let mut all: u32 = 0;
    let mut bad: u32 = 0;
    for row in 0..units {
        let home = homes[row];
        all += counted(in_set(set, home));
        bad += counted(bad_in_set(set, home));
    }
    Units { all: all, bad: bad }
}

// 100 times the bad members is not more than percent times the members, both counted over the set's regions.
pub(crate) fn few_bad(units: usize, percent: u8, set: u8, homes: &[u8]) -> bool
    requires { (units ≤ 512) × (percent ≤ 100) × HomesNamed units (lent_members [] homes.now []) }
    ensures { result ≡ few_bad units percent set (lent_members [] homes.now []) }
{
    let found = count_units(units, set, homes);
    100 * found.bad <= (percent as u32) * found.all
}
