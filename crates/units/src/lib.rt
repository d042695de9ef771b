// units: the unit call. It takes a unit's record, one after the other up to 512, and leaves its number, home and row in the lent lists and its
// deviations in the sums of its region. The tally is that of `interval`, whose specs/ have the promise.
#![tactic(auto)]

mod deviation;
mod group;
mod lent;
mod plant;
mod points;
mod range;
pub mod run;
mod tested;
pub mod unit;
