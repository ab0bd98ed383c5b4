// What the net at hand sees of each vertex: made once, when the net begins.
#![tactic(auto)]

pub mod guide;
pub mod sight;
