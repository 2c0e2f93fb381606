// All small schemata: the answer. What each case means in the paper's numbers is in specs/Small.antt, with the list.
#![tactic(auto)]

// The next table on the list, or that the given one is the last.
#[derive(Clone, Copy)]
pub enum Next {
    Table,
    Last,
}
