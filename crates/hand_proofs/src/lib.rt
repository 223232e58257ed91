// No code: the steps that proofs by hand share (proofs/), for the functions that the borrow checker doesn't cover.
#![tactic(auto)]
