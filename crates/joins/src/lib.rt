// The join that a search from the tree tells: its moves are counted, written into the plan and walked.
#![tactic(auto)]

pub mod join;
pub mod led;
pub mod next;
pub mod record;
pub mod trace;
pub mod write;
