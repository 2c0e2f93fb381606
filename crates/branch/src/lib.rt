// The nodes of a tableau: their numbers, members, splits and links.
#![tactic(auto)]

pub mod links;
pub mod member;
pub mod node;
pub mod split;
pub mod worked;
