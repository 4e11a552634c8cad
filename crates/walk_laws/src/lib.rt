// No code: the leaves that the walk of a search gives, on a trie that lies in the tables, the nodes it goes through, and how many it
// reads; and the same of exact descents.
#![tactic(auto)]
