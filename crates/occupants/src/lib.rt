// Obstacles and nets, read with what occupies each vertex.
#![tactic(auto)]

pub mod nets;
pub mod obstacles;
