// No code: for every list of calls behind an accepted opening there is a history with just these calls.
#![tactic(auto)]
