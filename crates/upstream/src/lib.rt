// No code: upstream's contracts over our tables (specs/), and the proof that our rules meet them (proofs/).
#![tactic(auto)]
