// Tidying older records: the definitions and theorems are in specs/ and proofs/; the code is in the crate tidy.
#![tactic(auto)]
