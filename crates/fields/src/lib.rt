// A node's fields against the rule table: refusal 12.
#![tactic(auto)]

pub mod rules;

ghost use Rattle.std.specs.Prelude.{◌≡◌, true, ◌+◌, ◌<◌, ◌≤◌, ◌^◌};
ghost use Rattle.stab.specs.Basic.{◌or◌, eq_z, below, has};
ghost use Rattle.stab.specs.Formula.{formula_rows};
ghost use Rattle.stab.specs.Node.{node_at, set_of};
ghost use Rattle.stab.specs.Rule.{unused, symbol_fits, fields_fit};
ghost use Rattle.branch.specs.NodeColumn.{node_column};
ghost use Rattle.stab.specs.Lent.{lent};
ghost use Rattle.branch.specs.Lent.{SetHeld, fits_kind, other_fits, by_fits, link_fits, rows_fit, rest_fits};

use branch::{member, node};
use stab::{Header, Rule};

// Number k of node j stands in the node's set.
fn in_set(nodes: &[i32], members: &[i32], j: usize, k: usize) -> bool
    requires j_bound { (j < 2 ^ 32) × (k < 9) }
    requires set_held { SetHeld nodes.now members.now j }
    ensures { result ≡ has (node_column (node_at nodes.now j) k) (set_of members.now (node_at nodes.now j)) }
{
    let start = node::natural_of(nodes, j, node::START);
    let size = node::natural_of(nodes, j, node::SIZE);
    member::stands(&members[start..start + size], node::number_of(nodes, j, k))
}

// It is unused if no kind is needed, and else names a row of the kind.
fn kind_fits(
    schema: &[i32],
    proof: &[i32],
    nodes: &[i32],
    h: Header,
    j: usize,
    k: usize,
    need: i32,
) -> bool
    requires j_bound { (j < 2 ^ 32) × (k < 9) }
    requires proof_rows_bound { h.schema_rows + h.proof_rows ≤ 1024 }
    ensures { result ≡ fits_kind (formula_rows schema.now h.schema_rows proof.now) (h.schema_rows + h.proof_rows) need (node_column (node_at nodes.now j) k) }
{
    if signed::equal(need, -1) {
        return node::is_of(nodes, j, k, -1);
    }
    if !node::is_below(nodes, j, k, h.schema_rows + h.proof_rows) {
        return false;
    }
    let r = node::natural_of(nodes, j, k);
    formula::is_in(schema, h.schema_rows, proof, r, formula::KIND, need)
}

// Where a kind is needed, `on` stands in the node's set.
fn on_stands(nodes: &[i32], members: &[i32], j: usize, need: i32) -> bool
    requires j_bound { j < 2 ^ 32 }
    requires set_held { SetHeld nodes.now members.now j }
    ensures { result ≡ (eq_z need unused or has (node_at nodes.now j).on (set_of members.now (node_at nodes.now j))) }
{
    if signed::equal(need, -1) {
        return true;
    }
    in_set(nodes, members, j, node::ON)
}

// `other` names a row if it is used.
fn other_fits(nodes: &[i32], h: Header, j: usize, used: bool) -> bool
    requires j_bound { j < 2 ^ 32 }
    requires proof_rows_bound { h.schema_rows + h.proof_rows ≤ 1024 }
    ensures { result ≡ other_fits (h.schema_rows + h.proof_rows) (node_at nodes.now j) used }
{
    if used {
        return node::is_below(nodes, j, node::OTHER, h.schema_rows + h.proof_rows);
    }
    node::is_of(nodes, j, node::OTHER, -1)
}

// `by` of a rule that is no loop: not negative if it names the K of a split, and else 0.
fn by_fits(nodes: &[i32], j: usize, split: bool) -> bool
    requires { j < 2 ^ 32 }
    ensures { result ≡ by_fits (node_at nodes.now j) split }
{
    if split {
        return node::under_of(nodes, j, node::BY) == 0;
    }
    node::is_of(nodes, j, node::BY, 0)
}

// `by` is at least 1 if the link's fields are used; unused, `to` is -1.
fn link_fits(nodes: &[i32], j: usize, link: bool, split: bool) -> bool
    requires { j < 2 ^ 32 }
    ensures { result ≡ link_fits (node_at nodes.now j) link split }
{
    if link {
        return 0 < node::natural_of(nodes, j, node::BY);
    }
    if !node::is_of(nodes, j, node::TO, -1) {
        return false;
    }
    by_fits(nodes, j, split)
}

// Of a clash: `with` stands in the node's set, and has the symbol of `on`.
fn symbol_fits(
    schema: &[i32],
    proof: &[i32],
    nodes: &[i32],
    members: &[i32],
    h: Header,
    j: usize,
) -> bool
    requires j_bound { j < 2 ^ 32 }
    requires set_held { SetHeld nodes.now members.now j }
    requires j_value { (below 1024 (node_at nodes.now j).on ≡ true) × (below 1024 (node_at nodes.now j).with ≡ true) }
    ensures { result ≡ symbol_fits (lent schema.now proof.now nodes.now members.now h) j }
{
    if !in_set(nodes, members, j, node::WITH) {
        return false;
    }
    let on = node::natural_of(nodes, j, node::ON);
    let with = node::natural_of(nodes, j, node::WITH);
    leaves::same_in(
        schema,
        h.schema_rows,
        proof,
        on,
        formula::A,
        with,
        formula::A,
    )
}

// `on` and `with` are as the rule says.
fn rows_fit(
    schema: &[i32],
    proof: &[i32],
    nodes: &[i32],
    members: &[i32],
    h: Header,
    j: usize,
    rule: Rule,
) -> bool
    requires j_bound { (j < 2 ^ 32) × (h.schema_rows + h.proof_rows ≤ 1024) }
    requires set_held { SetHeld nodes.now members.now j }
    ensures { result ≡ rows_fit (lent schema.now proof.now nodes.now members.now h) j rule }
{
    if !kind_fits(schema, proof, nodes, h, j, node::ON, rule.on) {
        return false;
    }
    if !on_stands(nodes, members, j, rule.on) {
        return false;
    }
    kind_fits(schema, proof, nodes, h, j, node::WITH, rule.with)
}

// `other`, `to` and `by` are as the rule says.
fn rest_fits(nodes: &[i32], h: Header, j: usize, rule: Rule) -> bool
    requires { (j < 2 ^ 32) × (h.schema_rows + h.proof_rows ≤ 1024) }
    ensures { result ≡ rest_fits (h.schema_rows + h.proof_rows) (node_at nodes.now j) rule }
{
    if !other_fits(nodes, h, j, rule.other) {
        return false;
    }
    link_fits(nodes, j, rule.link, rule.split)
}

// The fields of node j are as the table says of its rule.
pub fn fields_fit(
    schema: &[i32],
    proof: &[i32],
    nodes: &[i32],
    members: &[i32],
    h: Header,
    j: usize,
) -> bool
    requires j_bound { (j < 2 ^ 32) × (h.schema_rows + h.proof_rows ≤ 1024) }
    requires set_held { SetHeld nodes.now members.now j }
    ensures { result ≡ fields_fit (lent schema.now proof.now nodes.now members.now h) j }
{
    if !node::is_below(nodes, j, node::RULE, 9) {
        return false;
    }
    let rule = rules::rule_at(node::natural_of(nodes, j, node::RULE));
    if !rows_fit(schema, proof, nodes, members, h, j, rule) {
        return false;
    }
    if !rest_fits(nodes, h, j, rule) {
        return false;
    }
    if node::is_of(nodes, j, node::RULE, 6) {
        return symbol_fits(schema, proof, nodes, members, h, j);
    }
    true
}
