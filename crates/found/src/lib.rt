// A failing width, shown: the definitions and theorems are in specs/ and proofs/; the code that looks for it is in the crate find.
#![tactic(auto)]
