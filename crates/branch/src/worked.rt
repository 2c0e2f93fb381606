// The four numbers that are worked out of a node, by their place: its rank, its bound's L and H, its number of children. H is kept
// as one more than it, and as 0 where there is none.
pub const RANK: usize = 0;

pub const L: usize = 1;

pub const H: usize = 2;

pub const CHILDREN: usize = 3;
