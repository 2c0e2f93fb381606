// The step of a node: the partners of an unfolding, and the judgement of the nodes, one by one.
#![tactic(auto)]

pub mod partners;
pub mod steps;
