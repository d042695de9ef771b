// sheets: is a factor sheet possible (document 02, R-12)? A bureau's factors, in billionths, are held against a requirement's performances: each against its
// exact share by `share`, then each side's sum.
#![tactic(auto)]

ghost use Rattle.std.specs.Prelude.{◌≡◌};
ghost use Rattle.rules.specs.Sheet.{side_right};
ghost use Rattle.sheets.specs.Promises.{AllRight, sides_verdict, SheetPromise};

use rules::{BILLION, Refusal, Side, Verdict};
use share::exact::{first_wrong, side_sum};

// Members of a requirement: 512 units and the residual.
const MOST_MEMBERS: usize = 513;

// Does a side that has a member sum to the whole? Where all members are right its factors are all on that side of 0, and the others' are not.
fn is_whole(side: Side, performances: &[i64], factors: &[i64]) -> bool
    requires { AllRight performances.now factors.now }
    ensures { result ≡ side_right side performances.now factors.now }
{
    if side_sum(side, performances) == 0 {
        return true;
    }
    side_sum(side, factors) == BILLION
}

// Where all members are right: the side whose sum is off, positive first.
fn judge_sides(performances: &[i64], factors: &[i64]) -> Verdict
    requires { AllRight performances.now factors.now }
    ensures { result ≡ sides_verdict performances.now factors.now }
{
    if !is_whole(Side::Positive, performances, factors) {
        return Verdict::WrongSide(Side::Positive);
    }
    if !is_whole(Side::Negative, performances, factors) {
        return Verdict::WrongSide(Side::Negative);
    }
    Verdict::Possible
}

// Can these factors be right? The first wrong member, from 1, else the side whose sum is off. Refuses 5 for more than 513 factors, then 12 where factors
// and performances differ in number, then 5 where a side's absolute total passes the limit of W.
pub fn sheet(performances: &[i64], factors: &[i64]) -> Result<Verdict, Refusal>
    ensures { SheetPromise performances.now factors.now result }
{
    if MOST_MEMBERS < factors.len() {
        return Err(Refusal::WrongCount);
    }
    match first_wrong(BILLION, performances, factors)? {
        None => Ok(judge_sides(performances, factors)),
        Some(member) => Ok(Verdict::WrongMember(member as u16)),
    }
}
