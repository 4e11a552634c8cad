// A page taken out of the trie of each block, as a definition and its laws: no code.
#![tactic(auto)]
