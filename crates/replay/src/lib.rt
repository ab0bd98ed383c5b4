// Reading a plan with what stands in arrays: each move is judged before the next is read.
#![tactic(auto)]

pub mod join;
pub mod judge;
pub mod moves;
pub mod net;
pub mod nets;
pub mod start;
pub mod tail;
pub mod whole;
