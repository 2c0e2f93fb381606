// A tableau that grows on screen: the answer of a call. What each case means in the paper's numbers is in specs/Growing.antt, with
// what a call does.
#![tactic(auto)]

use stab::Verdict;

// The verdict on a call: the rows are held, with the numbers of nodes and links, or it is turned away; and whether the rows that it leaves are
// closed.
#[derive(Clone, Copy)]
pub struct Growth {
    pub verdict: Verdict,
    pub closed: bool,
}

// What a call gives: its answer, and how many rows and members are held after it.
#[derive(Clone, Copy)]
pub struct Reply {
    pub answer: Growth,
    pub node_rows: usize,
    pub member_count: usize,
}
