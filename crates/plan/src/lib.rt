// The plan: records as bits, and what a plan claims. Definitions and laws, no code.
#![tactic(auto)]
