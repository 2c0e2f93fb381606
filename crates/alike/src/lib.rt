// The lowered rows of a link.
#![tactic(auto)]

pub mod lowered;
