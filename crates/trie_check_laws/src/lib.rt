// The test of one block's trie says yes exactly where the tables hold a sound trie there: laws, no code.
#![tactic(auto)]
