// The parents of nodes, and the set of node 0.
ghost use Rattle.std.specs.Prelude.{◌≡◌, ℕ, ◌<◌, ◌≤◌, ◌^◌, length};
ghost use Rattle.stab.specs.Basic.{scan};
ghost use Rattle.branch.specs.Parents.{up_fits, is_alone, parent_right};
ghost use Rattle.branch.specs.Sets.{Within};
ghost use Rattle.sets.specs.Faults.{parent_fault};

use branch::node;
use stab::{Refusal, Refused};

// Node 0 has -1, any other node a smaller number.
fn up_fits(nodes: &[i32], j: usize) -> bool
    requires { j < 2 ^ 32 }
    ensures { result ≡ up_fits nodes.now j }
{
    if j == 0 {
        return node::is_of(nodes, 0, node::UP, -1);
    }
    if 0 < node::under_of(nodes, j, node::UP) {
        return false;
    }
    node::natural_of(nodes, j, node::UP) < j
}

// The set of node j is the row z alone.
fn is_alone(nodes: &[i32], members: &[i32], j: usize, z: i32) -> bool
    requires { (j < 2 ^ 32) × Within nodes.now (length members.now) j }
    ensures { result ≡ is_alone nodes.now members.now j z }
{
    if node::natural_of(nodes, j, node::SIZE) != 1 {
        return false;
    }
    signed::is_at(members, node::natural_of(nodes, j, node::START), z)
}

// The parent of node j is right, and node 0's set.
fn parent_is_right(nodes: &[i32], members: &[i32], root: i32, j: usize) -> bool
    requires { (j < 2 ^ 32) × Within nodes.now (length members.now) j }
    ensures { result ≡ parent_right nodes.now members.now root j }
{
    if !up_fits(nodes, j) {
        return false;
    }
    if j == 0 {
        return is_alone(nodes, members, j, root);
    }
    true
}

// The first node with a wrong parent, or node 0 with a wrong set.
pub fn parents(nodes: &[i32], k: usize, members: &[i32], root: i32) -> Result<(), Refused>
    requires { (k ≤ 1024) × ((j : ℕ) → j < k → Within nodes.now (length members.now) j) }
    ensures { result ≡ scan (parent_fault nodes.now members.now root) k }
{
    for j in 0..k {
        if !parent_is_right(nodes, members, root, j) {
            return Err(Refusal::Parent.at(j));
        }
    }
    Ok(())
}
