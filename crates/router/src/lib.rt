// The public calls. A host calls them with any bytes and slices of any length.
#![tactic(auto)]

mod held;
pub mod replay_call;
pub mod report_call;
pub mod routing_call;
pub mod sizing;
