// The K that a split names.
ghost use Rattle.std.specs.Prelude.{◌≡◌, ℕ, ◌<◌, ◌≤◌, ◌^◌};
ghost use Rattle.stab.specs.Node.{node_at, split_at};

use crate::node;

// The K of a split at node j, whose lower bound is l: `by`, or l where `by` is 0. It is at most l or the largest number of a table.
pub fn at(nodes: &[i32], j: usize, l: usize) -> usize
    requires { j < 2 ^ 32 }
    ensures { (result ≡ split_at l (node_at nodes.now j).by) × ((m : ℕ) → l ≤ m → 2 ^ 31 ≤ m → result ≤ m) }
{
    let by = node::number_of(nodes, j, node::BY);
    if signed::equal(by, 0) {
        return l;
    }
    signed::natural(by)
}
