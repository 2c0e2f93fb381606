// The lowered rows of a link: refusal 16.
ghost use Rattle.std.specs.Prelude.{◌≡◌, true, false, ℕ, ◌+◌, ◌*◌, ◌<◌, ◌≤◌, ◌^◌, pos, get_or, length};
ghost use Rattle.stab.specs.Basic.{nat};
ghost use Rattle.stab.specs.Formula.{formula_rows, tree, loose};
ghost use Rattle.stab.specs.Node.{node_at, set_of};
ghost use Rattle.stab.specs.Rule.{is_lowered, has_lowered_in, all_lowered};
ghost use Rattle.classes.specs.Class.{Ready};
ghost use Rattle.classes.specs.Agreed.{Remembers};
ghost use Rattle.stab.specs.Lent.{lent};
ghost use Rattle.branch.specs.Lent.{SetOfRows};

use branch::node;
use classes::compare;
use stab::Header;

// The first place from lo up to hi in the set of node j at which row z stands, lowered by k; hi where it stands at none.
fn place(
    schema: &[i32],
    proof: &[i32],
    nodes: &[i32],
    members: &[i32],
    forms: &[u32],
    h: Header,
    j: usize,
    k: i32,
    z: usize,
    lo: usize,
    hi: usize,
    agreed: &mut [u32],
) -> usize
    requires j_bound { (j < 2 ^ 32) × (z < h.schema_rows + h.proof_rows) × (lo ≤ hi) × (hi ≤ nat (node_at nodes.now j).size) }
    requires ready { Ready (formula_rows schema.now h.schema_rows proof.now) forms.now (h.schema_rows + h.proof_rows) }
    requires z_value { loose (tree (formula_rows schema.now h.schema_rows proof.now) z) ≡ false }
    requires set_of_rows { SetOfRows (formula_rows schema.now h.schema_rows proof.now) nodes.now members.now (h.schema_rows + h.proof_rows) j }
    requires remembers { Remembers (formula_rows schema.now h.schema_rows proof.now) agreed.old × (h.schema_rows + h.proof_rows ≤ length agreed.old) }
    ensures pos_value { result < hi → is_lowered (lent schema.now proof.now nodes.now members.now h) k (pos z) (get_or (set_of members.now (node_at nodes.now j)) result (pos 0)) ≡ true }
    ensures pos_value_2 { hi ≤ result → (i : ℕ) → lo ≤ i → i < hi → is_lowered (lent schema.now proof.now nodes.now members.now h) k (pos z) (get_or (set_of members.now (node_at nodes.now j)) i (pos 0)) ≡ false }
    ensures remembers_2 { Remembers (formula_rows schema.now h.schema_rows proof.now) agreed.new }
{
    let start = node::natural_of(nodes, j, node::START);
    for i in lo..hi {
        let x = signed::natural_at(members, start + i);
        if compare::is_lowered(schema, h.schema_rows, proof, forms, k, z, x, agreed) {
            return i;
        }
    }
    hi
}

// A place in the set of node j at which row z stands, lowered by k, looked for from a place on and then before it; the set's size
// where it stands at none. Sets list rows in much the same order, so that a partner is near the last one.
fn partner(
    schema: &[i32],
    proof: &[i32],
    nodes: &[i32],
    members: &[i32],
    forms: &[u32],
    h: Header,
    j: usize,
    k: i32,
    z: usize,
    from: usize,
    agreed: &mut [u32],
) -> usize
    requires j_bound { (j < 2 ^ 32) × (z < h.schema_rows + h.proof_rows) × (from ≤ nat (node_at nodes.now j).size) }
    requires ready { Ready (formula_rows schema.now h.schema_rows proof.now) forms.now (h.schema_rows + h.proof_rows) }
    requires z_value { loose (tree (formula_rows schema.now h.schema_rows proof.now) z) ≡ false }
    requires set_of_rows { SetOfRows (formula_rows schema.now h.schema_rows proof.now) nodes.now members.now (h.schema_rows + h.proof_rows) j }
    requires remembers { Remembers (formula_rows schema.now h.schema_rows proof.now) agreed.old × (h.schema_rows + h.proof_rows ≤ length agreed.old) }
    ensures true_value { result < nat (node_at nodes.now j).size → true ≡ has_lowered_in (lent schema.now proof.now nodes.now members.now h) k j (pos z) }
    ensures false_value { nat (node_at nodes.now j).size ≤ result → false ≡ has_lowered_in (lent schema.now proof.now nodes.now members.now h) k j (pos z) }
    ensures remembers_2 { Remembers (formula_rows schema.now h.schema_rows proof.now) agreed.new }
{
    let size = node::natural_of(nodes, j, node::SIZE);
    let after = place(
        schema, proof, nodes, members, forms, h, j, k, z, from, size, agreed,
    );
    if after < size {
        return after;
    }
    let before = place(
        schema, proof, nodes, members, forms, h, j, k, z, 0, from, agreed,
    );
    if before < from {
        return before;
    }
    size
}

// Rows y and z have the same class and the same shift, where both are kept.
fn same_form(forms: &[u32], y: usize, z: usize) -> bool
    requires { (y < 2 ^ 32) × (z < 2 ^ 32) }
    ensures { result ≡ true → (get_or forms.now (4 * y) 0 ≡ get_or forms.now (4 * z) 0) × (get_or forms.now (4 * y + 1) 0 ≡ get_or forms.now (4 * z + 1) 0) }
{
    let a = 4 * y;
    let b = 4 * z;
    if forms.len() <= a + 1 {
        return false;
    }
    if forms.len() <= b + 1 {
        return false;
    }
    if forms[a] != forms[b] {
        return false;
    }
    forms[a + 1] == forms[b + 1]
}

// A place after i in a list of rows, or its end. The rows from i on that stand before it have one class and one shift.
fn past(rows: &[i32], forms: &[u32], i: usize) -> usize
    requires { i < length rows.now }
    ensures lower_bound { (i < result) × (result ≤ length rows.now) }
    ensures by_index { (a : ℕ) → a < result → i < a → (get_or forms.now (4 * nat (get_or rows.now i (pos 0))) 0 ≡ get_or forms.now (4 * nat (get_or rows.now a (pos 0))) 0) × (get_or forms.now (4 * nat (get_or rows.now i (pos 0)) + 1) 0 ≡ get_or forms.now (4 * nat (get_or rows.now a (pos 0)) + 1) 0) }
{
    let z = signed::natural_at(rows, i);
    for e in i + 1..rows.len() {
        if !same_form(forms, z, signed::natural_at(rows, e)) {
            return e;
        }
    }
    rows.len()
}

// Each row of the set of node `to`, lowered by k, stands in the set of node j. A partner is looked for once for rows after one
// another that have one class and one shift, from the place after the last one on. The index goes on to where `past` says.
pub fn all_lowered(
    schema: &[i32],
    proof: &[i32],
    nodes: &[i32],
    members: &[i32],
    forms: &[u32],
    h: Header,
    j: usize,
    to: usize,
    k: i32,
    agreed: &mut [u32],
) -> bool
    requires j_bound { (j < 2 ^ 32) × (to < 2 ^ 32) }
    requires ready { Ready (formula_rows schema.now h.schema_rows proof.now) forms.now (h.schema_rows + h.proof_rows) }
    requires set_of_rows { SetOfRows (formula_rows schema.now h.schema_rows proof.now) nodes.now members.now (h.schema_rows + h.proof_rows) j }
    requires set_of_rows_2 { SetOfRows (formula_rows schema.now h.schema_rows proof.now) nodes.now members.now (h.schema_rows + h.proof_rows) to }
    requires remembers { Remembers (formula_rows schema.now h.schema_rows proof.now) agreed.old × (h.schema_rows + h.proof_rows ≤ length agreed.old) }
    ensures value { result ≡ all_lowered (lent schema.now proof.now nodes.now members.now h) k to j }
    ensures remembers_2 { Remembers (formula_rows schema.now h.schema_rows proof.now) agreed.new }
{
    let size = node::natural_of(nodes, to, node::SIZE);
    let width = node::natural_of(nodes, j, node::SIZE);
    let start = node::natural_of(nodes, to, node::START);
    let mut from: usize = 0;
    let mut i: usize = 0;
    while i < size {
        let z = signed::natural_at(members, start + i);
        let found = partner(
            schema, proof, nodes, members, forms, h, j, k, z, from, agreed,
        );
        if width <= found {
            return false;
        }
        from = found + 1;
        i = past(&members[start..start + size], forms, i);
    }
    true
}
