// Lent tables of numbers in general: how rows that may be equal are found.
#![tactic(auto)]

pub mod chain;
