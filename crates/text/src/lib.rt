// The texts of schemas, proofs and models, read.
#![tactic(auto)]

mod awaited;
mod nodes;
pub mod read;
mod reader;
mod rows;
