// weeks: defaults from seven days of record (document 02, R-7). `running` adds one interval at a time to a small record and reads count and default
// off it; `list` reads a member's week from lent lists, and `roster` a whole roster's. `whose` and `total` are what they share.
#![tactic(auto)]

pub mod list;
pub mod roster;
pub mod running;
mod total;
mod whose;
