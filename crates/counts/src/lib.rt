// The counts of a plan's moves, layer by layer, and the report that they are added to.
#![tactic(auto)]

pub mod moves;
pub mod report;
