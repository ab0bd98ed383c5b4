// Routing a job: the records of each net in order, until all its pins are joined or there is no join.
#![tactic(auto)]

pub mod net;
pub mod nets;
pub mod routed;
pub mod whole;
