// The check.
#![tactic(auto)]

pub mod check;
