// What is worked out once for each node: its rank, its bound, its number of children.
#![tactic(auto)]

ghost use Rattle.std.specs.Prelude.{◌≡◌, true, ◌++◌, ◌+◌, ◌*◌, ◌<◌, ◌≤◌, ◌^◌, pos, get_or, length, drop};
ghost use Rattle.stab.specs.Basic.{within};
ghost use Rattle.stab.specs.Node.{Bound, node_at, child_bound};
ghost use Rattle.bounds.specs.Bounds.{Next, work_table, Stays};
ghost use Rattle.branch.specs.Parents.{AllUpFit};
ghost use Rattle.branch.specs.Work.{top_of, AllWorked};

use branch::{node, split, worked};
use formula::kept;

// Number k of the four of node j.
fn number_of(work: &[u32], j: usize, k: usize) -> u32
    requires { 4 * j + k < length work.now }
    ensures { result ≡ get_or work.now (4 * j + k) 0 }
{
    work[4 * j + k]
}

// The L of a child of u, by its rank.
fn child_l(nodes: &[i32], u: usize, l: u32, rank: u32) -> u32
    requires { (u < 2 ^ 30) × (l ≤ 2 ^ 31 + u) }
    ensures { ((B : Bound) → B.L ≡ l → (child_bound (node_at nodes.now u) B rank).L ≡ result) × (result ≤ 2 ^ 31 + (u + 1)) }
{
    if !node::is_of(nodes, u, node::RULE, 2) {
        return l;
    }
    if rank == 0 {
        return l;
    }
    split::at(nodes, u, l as usize) as u32 + 1
}

// Its H, as it is kept, by the L of u too.
fn child_h(nodes: &[i32], u: usize, l: u32, h: u32, rank: u32) -> u32
    requires { (u < 2 ^ 30) × (l ≤ 2 ^ 31 + u) }
    ensures { (B : Bound) → B.L ≡ l → top_of B.H ≡ h → top_of (child_bound (node_at nodes.now u) B rank).H ≡ result }
{
    if !node::is_of(nodes, u, node::RULE, 2) {
        return h;
    }
    if rank == 0 {
        return split::at(nodes, u, l as usize) as u32 + 1;
    }
    h
}

// Works out node j, a child of u, and counts it there.
fn work_child(nodes: &[i32], least: usize, work: &mut [u32], j: usize, u: usize)
    requires { (least ≤ 9999) × (j < 1024) × Next nodes.now (pos least) work.old j u }
    ensures all_worked { AllWorked nodes.now (pos least) (j + 1) work.new (j + 1) }
    ensures stays { Stays (4 * (j + 1)) work.old work.new }
{
    let rank = number_of(work, u, worked::CHILDREN);
    let above = number_of(work, u, worked::L);
    let l = child_l(nodes, u, above, rank);
    let h = child_h(nodes, u, above, number_of(work, u, worked::H), rank);
    kept::keep(work, j, rank, l, h, 0);
    work[4 * u + worked::CHILDREN] = rank + 1;
}

// Works out node j after the nodes before it.
fn work_node(nodes: &[i32], least: usize, work: &mut [u32], j: usize)
    requires { (least ≤ 9999) × (j < 1024) × (4 * j + 3 < length work.old) × AllUpFit nodes.now (j + 1) × AllWorked nodes.now (pos least) j work.old j }
    ensures all_worked { AllWorked nodes.now (pos least) (j + 1) work.new (j + 1) }
    ensures stays { Stays (4 * (j + 1)) work.old work.new }
{
    if j == 0 {
        kept::keep(work, 0, 0, least as u32, 0, 0);
    } else {
        work_child(nodes, least, work, j, node::natural_of(nodes, j, node::UP));
    }
}

// Fills the front of the table `work` with the four numbers of each of k nodes; what stands after them stays.
pub fn work_out(nodes: &[i32], k: usize, least: i32, work: &mut [u32])
    requires { (k ≤ 1024) × (4 * k ≤ length work.old) × (within (pos 0) (pos 9999) least ≡ true) × AllUpFit nodes.now k }
    ensures all_worked { AllWorked nodes.now least k work.new k }
    ensures work_after { work.new ≡ work_table nodes.now least k k ++ drop (4 * k) work.old }
{
    let l = signed::natural(least);
    for j in 0..k {
        work_node(nodes, l, work, j);
    }
}
