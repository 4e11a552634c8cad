// Definitions only (specs/): what a reader must believe. The theorem of document 01's marked sums is in proofs/Sums.antt.
#![tactic(auto)]
