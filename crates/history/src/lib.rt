// No code: histories of calls and the claim about them (specs/), and its proof (proofs/).
#![tactic(auto)]
