// A node's bound against its rule, and the index of a clash: refusal 14.
// A sum of table numbers is compared by natural parts: what lies below 0 goes to the other side.
#![tactic(auto)]

ghost use Rattle.std.specs.Prelude.{◌≡◌, true, [], ◌+◌, ◌<◌, ◌≤◌, ◌^◌, pos, ◌+ℤ◌};
ghost use Rattle.std.specs.Int.Signed.{le_z};
ghost use Rattle.stab.specs.Basic.{◌and◌, eq_z, nat};
ghost use Rattle.stab.specs.Formula.{formula_rows, base_of, offset};
ghost use Rattle.stab.specs.Meaning.{base};
ghost use Rattle.stab.specs.Node.{node_at, is_exact, split_at};
ghost use Rattle.stab.specs.Rule.{of_rule, split_fits, index_at, clash_fits, void_fits, upper_fits, loop_fits, bound_fits};
ghost use Rattle.formula.specs.Facts.{AllFormed};
ghost use Rattle.branch.specs.Work.{AllWorked};
ghost use Rattle.stab.specs.Lent.{lent};
ghost use Rattle.branch.specs.Lent.{upper, bounded, bound_by, FieldsKnown};

use branch::{node, split, worked};
use formula::kept;
use stab::Header;

// Rule 2: K is at least L, and below H, or at most 9998 where there is none.
fn split_fits(nodes: &[i32], j: usize, l: usize, h: usize) -> bool
    requires { (j < 2 ^ 32) × (l < 2 ^ 32) }
    ensures { result ≡ split_fits (bounded h l) (split_at l (node_at nodes.now j).by) }
{
    let k = split::at(nodes, j, l);
    if k < l {
        return false;
    }
    if h == 0 {
        return k <= 9998;
    }
    k + 1 < h
}

// L is at least b + c of row r.
fn reaches(schema: &[i32], s: usize, proof: &[i32], r: usize, l: usize) -> bool
    requires r_bound { (r < 2 ^ 32) × (l < 2 ^ 32) }
    requires r_value { offset (formula_rows schema.now s proof.now r).b ≡ true }
    requires r_value_2 { offset (formula_rows schema.now s proof.now r).c ≡ true }
    ensures { result ≡ le_z ((formula_rows schema.now s proof.now r).b +ℤ (formula_rows schema.now s proof.now r).c) (pos l) }
{
    let over = formula::natural_in(schema, s, proof, r, formula::B)
        + formula::natural_in(schema, s, proof, r, formula::C);
    let under = formula::under_in(schema, s, proof, r, formula::B)
        + formula::under_in(schema, s, proof, r, formula::C);
    over <= l + under
}

// Rule 7: an upper bound, below b + c.
fn void_fits(schema: &[i32], s: usize, proof: &[i32], r: usize, h: usize) -> bool
    requires r_bound { (r < 2 ^ 32) × (h < 2 ^ 32) }
    requires r_value { offset (formula_rows schema.now s proof.now r).b ≡ true }
    requires r_value_2 { offset (formula_rows schema.now s proof.now r).c ≡ true }
    ensures { result ≡ void_fits (upper h) (formula_rows schema.now s proof.now r) }
{
    if h == 0 {
        return false;
    }
    !reaches(schema, s, proof, r, h - 1)
}

// What c of the literal in row r is added to, at n = l.
fn base_at(schema: &[i32], s: usize, proof: &[i32], r: usize, l: usize) -> usize
    requires { (r < 2 ^ 32) × (l < 2 ^ 32) }
    ensures { (pos result ≡ base l (pos 0) (base_of (formula_rows schema.now s proof.now r).b)) × (result < 2 ^ 32) }
{
    if formula::is_in(schema, s, proof, r, formula::B, 1) {
        return l;
    }
    0
}

// Two literals name the same index at n = l.
fn same_index(schema: &[i32], s: usize, proof: &[i32], on: usize, with: usize, l: usize) -> bool
    requires on_bound { (on < 2 ^ 32) × (with < 2 ^ 32) × (l < 2 ^ 32) }
    requires on_value { offset (formula_rows schema.now s proof.now on).c ≡ true }
    requires with_value { offset (formula_rows schema.now s proof.now with).c ≡ true }
    ensures { result ≡ eq_z (index_at l (formula_rows schema.now s proof.now on)) (index_at l (formula_rows schema.now s proof.now with)) }
{
    let left = base_at(schema, s, proof, on, l)
        + formula::natural_in(schema, s, proof, on, formula::C);
    let right = base_at(schema, s, proof, with, l)
        + formula::natural_in(schema, s, proof, with, formula::C);
    left + formula::under_in(schema, s, proof, with, formula::C)
        == right + formula::under_in(schema, s, proof, on, formula::C)
}

// Columns b and c of two rows are equal.
fn same_place(schema: &[i32], s: usize, proof: &[i32], on: usize, with: usize) -> bool
    requires { (on < 2 ^ 32) × (with < 2 ^ 32) }
    ensures { result ≡ (eq_z (formula_rows schema.now s proof.now on).b (formula_rows schema.now s proof.now with).b and eq_z (formula_rows schema.now s proof.now on).c (formula_rows schema.now s proof.now with).c) }
{
    if !leaves::same_in(schema, s, proof, on, formula::B, with, formula::B) {
        return false;
    }
    leaves::same_in(schema, s, proof, on, formula::C, with, formula::C)
}

// Rule 6: the same index, at every n or at the one that the node knows.
fn clash_fits(
    schema: &[i32],
    s: usize,
    proof: &[i32],
    on: usize,
    with: usize,
    exact: bool,
    l: usize,
) -> bool
    requires on_bound { (on < 2 ^ 32) × (with < 2 ^ 32) × (l < 2 ^ 32) }
    requires on_value { offset (formula_rows schema.now s proof.now on).c ≡ true }
    requires with_value { offset (formula_rows schema.now s proof.now with).c ≡ true }
    ensures { result ≡ clash_fits exact l (formula_rows schema.now s proof.now on) (formula_rows schema.now s proof.now with) }
{
    if same_place(schema, s, proof, on, with) {
        return true;
    }
    if !exact {
        return false;
    }
    same_index(schema, s, proof, on, with, l)
}

// L is H.
fn is_exact(l: usize, h: usize) -> bool
    requires { l < 2 ^ 32 }
    ensures { result ≡ is_exact (bounded h l) }
{
    l + 1 == h
}

// Rule 8: H - k is at most the target's H, where that has one.
fn upper_fits(h: usize, target: usize, k: usize) -> bool
    requires { (target < 2 ^ 32) × (k < 2 ^ 32) }
    ensures { result ≡ upper_fits (upper h) (upper target) (pos k) }
{
    if target == 0 {
        return true;
    }
    if h == 0 {
        return false;
    }
    h <= target + k
}

// Rule 8: L - k is at least the target's L, and H - k at most its H, where l and h are the node's own.
fn target_allows(nodes: &[i32], work: &[u32], j: usize, l: usize, h: usize) -> bool
    requires { j < 2 ^ 32 }
    ensures { result ≡ loop_fits (bounded h l) (bound_by work.now (nat (node_at nodes.now j).to)) (pos (nat (node_at nodes.now j).by)) }
{
    let to = node::natural_of(nodes, j, node::TO);
    let k = node::natural_of(nodes, j, node::BY);
    if l < kept::kept_at(work, 4 * to + worked::L) + k {
        return false;
    }
    upper_fits(h, kept::kept_at(work, 4 * to + worked::H), k)
}

// What the rule of node j asks of its bound holds. No set is looked at.
pub fn bound_fits(
    schema: &[i32],
    proof: &[i32],
    nodes: &[i32],
    work: &[u32],
    h: Header,
    j: usize,
) -> bool
    requires j_bound { (j < h.node_rows) × (h.node_rows ≤ 1024) × (h.schema_rows + h.proof_rows ≤ 1024) }
    requires fields_known { FieldsKnown (lent schema.now proof.now nodes.now [] h) j }
    requires all_formed { AllFormed (formula_rows schema.now h.schema_rows proof.now) (h.schema_rows + h.proof_rows) }
    requires all_worked { AllWorked nodes.now h.least h.node_rows work.now h.node_rows }
    requires j_bound_2 { of_rule 8 (node_at nodes.now j) ≡ true → nat (node_at nodes.now j).to < j }
    ensures { result ≡ bound_fits (lent schema.now proof.now nodes.now [] h) j }
{
    let l = kept::kept_at(work, 4 * j + worked::L);
    let top = kept::kept_at(work, 4 * j + worked::H);
    let on = node::natural_of(nodes, j, node::ON);
    let with = node::natural_of(nodes, j, node::WITH);
    match node::natural_of(nodes, j, node::RULE) {
        2 => split_fits(nodes, j, l, top),
        3 | 4 => reaches(schema, h.schema_rows, proof, on, l),
        6 => clash_fits(schema, h.schema_rows, proof, on, with, is_exact(l, top), l),
        7 => void_fits(schema, h.schema_rows, proof, on, top),
        8 => target_allows(nodes, work, j, l, top),
        _ => true,
    }
}
