// How many small schemata there are: a theorem by itself, since it is computed from the definitions and nothing else should wait for it.
#![tactic(auto)]
