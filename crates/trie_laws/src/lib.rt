// No code: laws of the tries (proofs/) and the definitions that they cite (specs/).
#![tactic(auto)]
