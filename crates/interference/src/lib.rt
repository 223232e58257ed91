// No code: upstream's waits over our tables (specs/), and the proof that an accepted wait is one of them (proofs/).
#![tactic(auto)]
