// frequencies: the frequency call. It takes the record of each region in turn, and leaves its measures, its sums, which start at 0, and its figures
// in lent lists. The tally is that of `interval`, whose specs/ have the promise.
#![tactic(auto)]

pub mod frequency;
mod measure;
mod points;
mod reliability;
