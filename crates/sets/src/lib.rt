// The sets of nodes: where they lie, in which order, and of which rows.
#![tactic(auto)]

pub mod parents;

ghost use Rattle.std.specs.Prelude.{◌≡◌, ◌+◌, ◌*◌, ◌<◌, ◌≤◌, ◌^◌, pos, length, take, drop};
ghost use Rattle.stab.specs.Basic.{scan};
ghost use Rattle.stab.specs.Node.{set_start};
ghost use Rattle.branch.specs.Sets.{outer_by, member_fits, list_fits, place_fits, set_right};
ghost use Rattle.sets.specs.Faults.{set_fault};

use branch::node;
use formula::rows::LOOSE;
use stab::{Refusal, Refused};

// z is the number of an outer row.
fn is_outer(facts: &[u32], n: usize, z: i32) -> bool
    requires { 4 * n ≤ length facts.now }
    ensures { result ≡ outer_by facts.now n z }
{
    if 0 < signed::under(z) {
        return false;
    }
    let r = signed::natural(z);
    if n <= r {
        return false;
    }
    facts[4 * r + LOOSE] == 0
}

// Member i of the list is the number of an outer row, and more than the one before.
fn member_fits(facts: &[u32], n: usize, members: &[i32], start: usize, len: usize, i: usize) -> bool
    requires { (4 * n ≤ length facts.now) × (start + len ≤ length members.now) × (i < len) }
    ensures { result ≡ member_fits facts.now n (take len (drop start members.now)) i }
{
    let at = start + i;
    let z = members[at];
    if !is_outer(facts, n, z) {
        return false;
    }
    if i == 0 {
        return true;
    }
    signed::less(members[at - 1], z)
}

// The list holds outer rows in ascending order.
fn list_fits(facts: &[u32], n: usize, members: &[i32], start: usize, len: usize) -> bool
    requires { (4 * n ≤ length facts.now) × (start + len ≤ length members.now) }
    ensures { result ≡ list_fits facts.now n (take len (drop start members.now)) }
{
    for i in 0..len {
        if !member_fits(facts, n, members, start, len, i) {
            return false;
        }
    }
    true
}

// The set of node j starts at `from`, where the one before ends, and ends within the members.
fn place_fits(nodes: &[i32], m: usize, j: usize, from: usize) -> bool
    requires { (j < 2 ^ 32) × (set_start nodes.now j ≡ pos from) × (from ≤ m) }
    ensures { result ≡ place_fits nodes.now m j }
{
    if 0 < node::under_of(nodes, j, node::START) {
        return false;
    }
    if node::natural_of(nodes, j, node::START) != from {
        return false;
    }
    if 0 < node::under_of(nodes, j, node::SIZE) {
        return false;
    }
    node::natural_of(nodes, j, node::SIZE) <= m - from
}

// The set of node j, one of k, is right, where the set before it ends at `from`.
fn set_is_right(
    facts: &[u32],
    n: usize,
    nodes: &[i32],
    k: usize,
    members: &[i32],
    m: usize,
    j: usize,
    from: usize,
) -> bool
    requires { (4 * n ≤ length facts.now) × (m ≤ length members.now) × (j < k) × (k ≤ 1024) × (set_start nodes.now j ≡ pos from) × (from ≤ m) }
    ensures { result ≡ set_right facts.now n nodes.now k members.now m j }
{
    if !place_fits(nodes, m, j, from) {
        return false;
    }
    let len = node::natural_of(nodes, j, node::SIZE);
    if !list_fits(facts, n, members, from, len) {
        return false;
    }
    if j + 1 == k {
        return from + len == m;
    }
    true
}

// The first node whose set is not right, for n formula rows with their facts.
pub fn sets(
    facts: &[u32],
    n: usize,
    nodes: &[i32],
    k: usize,
    members: &[i32],
    m: usize,
) -> Result<(), Refused>
    requires { (4 * n ≤ length facts.now) × (k ≤ 1024) × (m ≤ length members.now) }
    ensures { result ≡ scan (set_fault facts.now n nodes.now k members.now m) k }
{
    let mut from: usize = 0;
    for j in 0..k {
        if !set_is_right(facts, n, nodes, k, members, m, j, from) {
            return Err(Refusal::Set.at(j));
        }
        from += node::natural_of(nodes, j, node::SIZE);
    }
    Ok(())
}
