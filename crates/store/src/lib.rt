// Laws of a sound store, whatever call it is put to: no code.
#![tactic(auto)]
