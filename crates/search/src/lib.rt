// The search from the tree: places are settled in the order of their cost with what is left at least, until
// no open one is below the cheapest goal found; then the places of cheapest joins get leads.
#![tactic(auto)]

pub mod clear;
pub mod lead;
pub mod moves;
pub mod places;
pub mod reach;
pub mod retrace;
pub mod seed;
pub mod settle;
pub mod settled;
pub mod tries;
