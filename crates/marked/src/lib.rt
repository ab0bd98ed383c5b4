// The marked routes: one table of jobs, with the records that routing them writes. No code.
#![tactic(auto)]
