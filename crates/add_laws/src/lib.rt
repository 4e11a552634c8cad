// A page put into the trie of each block, as definitions and their laws. No code.
#![tactic(auto)]
