// What a child's set is drawn from: refusal 11.
#![tactic(auto)]

ghost use Rattle.std.specs.Prelude.{◌≡◌, [], ◌∷◌, ◌+◌, ◌-◌, ◌<◌, ◌≤◌, ◌^◌, pos, get_or, length, take, drop};
ghost use Rattle.stab.specs.Basic.{nat, has};
ghost use Rattle.stab.specs.Formula.{formula_rows};
ghost use Rattle.stab.specs.Node as N;
ghost use Rattle.stab.specs.Node.{node_at, set_of};
ghost use Rattle.stab.specs.Search.{place_of};
ghost use Rattle.stab.specs.Rule.{one_of, given, drawn_from, all_drawn};
ghost use Rattle.stab.specs.Lent.{lent};
ghost use Rattle.branch.specs.Lent.{SetHeld, ChildKnown};

use branch::{member, node, worked};
use formula::kept;
use stab::Header;

// z is a part of row r.
fn is_part(schema: &[i32], s: usize, proof: &[i32], r: usize, z: i32) -> bool
    requires { r < 2 ^ 32 }
    ensures { result ≡ has z ((formula_rows schema.now s proof.now r).a ∷ (formula_rows schema.now s proof.now r).b ∷ []) }
{
    if formula::is_in(schema, s, proof, r, formula::A, z) {
        return true;
    }
    formula::is_in(schema, s, proof, r, formula::B, z)
}

// z is the left part for the first child, the right part for the second.
fn is_side(schema: &[i32], s: usize, proof: &[i32], r: usize, rank: usize, z: i32) -> bool
    requires { r < 2 ^ 32 }
    ensures { result ≡ has z (one_of (formula_rows schema.now s proof.now r).a (formula_rows schema.now s proof.now r).b rank) }
{
    if rank == 0 {
        return formula::is_in(schema, s, proof, r, formula::A, z);
    }
    formula::is_in(schema, s, proof, r, formula::B, z)
}

// z is `with` or `other` of node p.
fn is_unfolded(nodes: &[i32], p: usize, z: i32) -> bool
    requires { p < 2 ^ 32 }
    ensures { result ≡ has z ((node_at nodes.now p).with ∷ (node_at nodes.now p).other ∷ []) }
{
    if node::is_of(nodes, p, node::WITH, z) {
        return true;
    }
    node::is_of(nodes, p, node::OTHER, z)
}

// z is `with` for the first child, `other` for the second.
fn is_half(nodes: &[i32], p: usize, rank: usize, z: i32) -> bool
    requires { p < 2 ^ 32 }
    ensures { result ≡ has z (one_of (node_at nodes.now p).with (node_at nodes.now p).other rank) }
{
    if rank == 0 {
        return node::is_of(nodes, p, node::WITH, z);
    }
    node::is_of(nodes, p, node::OTHER, z)
}

// The rule of node p gives z to its child of that rank. No set is looked at.
fn is_given(
    schema: &[i32],
    proof: &[i32],
    nodes: &[i32],
    h: Header,
    p: usize,
    rank: usize,
    z: i32,
) -> bool
    requires { p < 2 ^ 32 }
    ensures { result ≡ has z (given (lent schema.now proof.now nodes.now [] h) (node_at nodes.now p) rank) }
{
    let on = node::natural_of(nodes, p, node::ON);
    if node::is_of(nodes, p, node::RULE, 0) {
        return is_part(schema, h.schema_rows, proof, on, z);
    }
    if node::is_of(nodes, p, node::RULE, 1) {
        return is_side(schema, h.schema_rows, proof, on, rank, z);
    }
    if node::is_of(nodes, p, node::RULE, 3) {
        return is_unfolded(nodes, p, z);
    }
    if node::is_of(nodes, p, node::RULE, 4) {
        return is_half(nodes, p, rank, z);
    }
    false
}

// The place of member `of` in what is left of a list that ends at `end`.
fn next(members: &[i32], at: usize, end: usize, of: usize) -> usize
    requires { (at ≤ end) × (end ≤ length members.now) }
    ensures { result ≡ at + place_of (get_or members.now of (pos 0)) (take (end - at) (drop at members.now)) }
{
    at + member::place(&members[at..end], signed::at(members, of))
}

// Member `of` may stand in the set of a child of node p: it stands at its place in the set of p, which ends at `end`, or is given.
fn may_stand(
    schema: &[i32],
    proof: &[i32],
    nodes: &[i32],
    members: &[i32],
    h: Header,
    p: usize,
    rank: usize,
    at: usize,
    end: usize,
    of: usize,
) -> bool
    requires p_bound { (p < 2 ^ 32) × SetHeld nodes.now members.now p }
    requires at_value { (at ≡ nat (node_at nodes.now p).start + place_of (get_or members.now of (pos 0)) (set_of members.now (node_at nodes.now p))) × (end ≡ nat (node_at nodes.now p).start + nat (node_at nodes.now p).size) }
    ensures { result ≡ drawn_from (lent schema.now proof.now nodes.now members.now h) p rank (get_or members.now of (pos 0)) }
{
    let z = signed::at(members, of);
    if member::stands_at(&members[at..end], 0, z) {
        return true;
    }
    is_given(schema, proof, nodes, h, p, rank, z)
}

// The set of node j is drawn from its parent's set and what the parent's rule gives.
// Both sets ascend: the search for a member goes on in what is left of the parent's set after the search before.
pub fn is_drawn(
    schema: &[i32],
    proof: &[i32],
    nodes: &[i32],
    members: &[i32],
    work: &[u32],
    h: Header,
    j: usize,
) -> bool
    requires j_bound { j < 2 ^ 32 }
    requires child_known { ChildKnown nodes.now members.now work.now j }
    ensures { result ≡ all_drawn (lent schema.now proof.now nodes.now members.now h) (nat (node_at nodes.now j).up) (N.rank nodes.now j) j }
{
    let p = node::natural_of(nodes, j, node::UP);
    let rank = kept::kept_at(work, 4 * j + worked::RANK);
    let start = node::natural_of(nodes, j, node::START);
    let size = node::natural_of(nodes, j, node::SIZE);
    let mut at = node::natural_of(nodes, p, node::START);
    let end = at + node::natural_of(nodes, p, node::SIZE);
    for i in start..start + size {
        at = next(members, at, end, i);
        if !may_stand(schema, proof, nodes, members, h, p, rank, at, end, i) {
            return false;
        }
    }
    true
}
