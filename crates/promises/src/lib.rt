// No code: what each call promises of its answer and of the tables lent to it (specs/), what a sound store is, and what follows at once (proofs/).
#![tactic(auto)]
