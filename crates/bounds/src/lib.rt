// A lower bound on what is left from a vertex to the nearest unjoined pin, for the search.
#![tactic(auto)]

pub mod bound;
pub mod fill;
