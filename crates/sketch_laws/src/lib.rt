// Laws only (proofs/): what holds of sketches, packing, blocks and walks as crate meaning defines them.
#![tactic(auto)]
