// The job: prices, the grid, and the groups of its bits.
#![tactic(auto)]

pub mod grid;
pub mod groups;
pub mod penalty;
pub mod refusal;
