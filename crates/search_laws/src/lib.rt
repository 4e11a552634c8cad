// No code: what a search marks and answers, as definitions (specs), and their laws (proofs).
#![tactic(auto)]
