// Wide schemata: connectives as designers write them. The definitions and theorems are in specs/ and proofs/; the code that
// converts them is in the crate convert.
#![tactic(auto)]
