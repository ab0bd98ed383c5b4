// Cheapest walks in any system of priced moves: definitions and laws, no code.
#![tactic(auto)]
