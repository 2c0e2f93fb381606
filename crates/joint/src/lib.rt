// One record for either fault: the definitions and theorems are in specs/ and proofs/; the code that joins two records is in the crate join.
#![tactic(auto)]
