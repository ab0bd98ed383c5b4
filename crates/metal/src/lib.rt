// The map's codes while nets are joined, and what a slice holds before and after.
#![tactic(auto)]

pub mod codes;
pub mod pins;
pub mod zeros;
