// A whole job: its bytes are read group by group, and its rules are tried in reading order.
#![tactic(auto)]

pub mod head;
pub mod layers;
pub mod load;
pub mod tail;
pub mod whole;
