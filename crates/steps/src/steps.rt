// The judgement of nodes, one by one: refusals 11 to 17.
ghost use Rattle.std.specs.Prelude.{◌≡◌, true, ◌+◌, ◌*◌, ◌<◌, ◌≤◌, ◌^◌, eqb, leb, length, get_or, if◌then◌else◌};
ghost use Rattle.stab.specs.Basic.{◌implies◌, nat, below, scan};
ghost use Rattle.stab.specs.Formula.{formula_rows};
ghost use Rattle.stab.specs.Node.{node_at};
ghost use Rattle.stab.specs.Rule.{rule_of, of_rule, drawn, lowered_fits};
ghost use Rattle.stab.specs.Check.{step_refusal, node_refusal};
ghost use Rattle.classes.specs.Class.{Ready as Compared};
ghost use Rattle.classes.specs.Agreed.{Remembers};
ghost use Rattle.stab.specs.Lent.{lent};
ghost use Rattle.branch.specs.Lent.{SetOfRows, ChildKnown};
ghost use Rattle.steps.specs.Ready.{Ready};

use crate::partners;
use alike::lowered;
use branch::{node, worked};
use fields::rules;
use formula::kept;
use stab::{Header, Refusal, Refused};

// 11: the set of node j is drawn from its parent's. Node 0 has none.
fn drawn_fits(
    schema: &[i32],
    proof: &[i32],
    nodes: &[i32],
    members: &[i32],
    work: &[u32],
    h: Header,
    j: usize,
) -> bool
    requires j_bound { j < 2 ^ 32 }
    requires child_known { 0 < j → ChildKnown nodes.now members.now work.now j }
    ensures { result ≡ drawn (lent schema.now proof.now nodes.now members.now h) j }
{
    if j == 0 {
        return true;
    }
    drawn::is_drawn(schema, proof, nodes, members, work, h, j)
}

// 13: the target of a link is a node before it.
fn target_fits(nodes: &[i32], j: usize) -> bool
    requires { j < 2 ^ 32 }
    ensures { result ≡ (of_rule 8 (node_at nodes.now j) implies below j (node_at nodes.now j).to) }
{
    if !node::is_of(nodes, j, node::RULE, 8) {
        return true;
    }
    node::is_below(nodes, j, node::TO, j)
}

// 16: of a link, each row of the target's set, lowered, stands in the node's.
fn lowered_fits(
    schema: &[i32],
    proof: &[i32],
    nodes: &[i32],
    members: &[i32],
    forms: &[u32],
    h: Header,
    j: usize,
    agreed: &mut [u32],
) -> bool
    requires j_bound { j < 2 ^ 32 }
    requires compared { Compared (formula_rows schema.now h.schema_rows proof.now) forms.now (h.schema_rows + h.proof_rows) }
    requires set_of_rows { SetOfRows (formula_rows schema.now h.schema_rows proof.now) nodes.now members.now (h.schema_rows + h.proof_rows) j }
    requires j_bound_2 { of_rule 8 (node_at nodes.now j) ≡ true → (nat (node_at nodes.now j).to < 2 ^ 32) × SetOfRows (formula_rows schema.now h.schema_rows proof.now) nodes.now members.now (h.schema_rows + h.proof_rows) (nat (node_at nodes.now j).to) }
    requires remembers { Remembers (formula_rows schema.now h.schema_rows proof.now) agreed.old × (h.schema_rows + h.proof_rows ≤ length agreed.old) }
    ensures value { result ≡ lowered_fits (lent schema.now proof.now nodes.now members.now h) j }
    ensures remembers_2 { Remembers (formula_rows schema.now h.schema_rows proof.now) agreed.new }
{
    if !node::is_of(nodes, j, node::RULE, 8) {
        return true;
    }
    let to = node::natural_of(nodes, j, node::TO);
    let by = signed::at(nodes, 9 * j + node::BY);
    lowered::all_lowered(schema, proof, nodes, members, forms, h, j, to, by, agreed)
}

// 17: the number of children is the rule's; among rows that are held it is not beyond it.
pub fn children_fit(whole: bool, nodes: &[i32], work: &[u32], j: usize) -> bool
    requires { (j < 2 ^ 32) × (below 9 (node_at nodes.now j).rule ≡ true) }
    ensures { result ≡ (if whole then eqb (get_or work.now (4 * j + 3) 0) (rule_of (node_at nodes.now j).rule).children else leb (get_or work.now (4 * j + 3) 0) (rule_of (node_at nodes.now j).rule).children) }
{
    let rule = rules::rule_at(node::natural_of(nodes, j, node::RULE));
    let children = kept::kept_at(work, 4 * j + worked::CHILDREN);
    if whole {
        children == rule.children
    } else {
        children <= rule.children
    }
}

// What is found of node j: 11 to 16, which look at no later node.
fn step(
    schema: &[i32],
    proof: &[i32],
    nodes: &[i32],
    members: &[i32],
    facts: &[u32],
    forms: &[u32],
    work: &[u32],
    h: Header,
    j: usize,
    agreed: &mut [u32],
) -> Result<(), Refused>
    requires j_bound { j < h.node_rows }
    requires ready { Ready (lent schema.now proof.now nodes.now members.now h) facts.now forms.now work.now }
    requires remembers { Remembers (formula_rows schema.now h.schema_rows proof.now) agreed.old × (h.schema_rows + h.proof_rows ≤ length agreed.old) }
    ensures value { result ≡ step_refusal (lent schema.now proof.now nodes.now members.now h) j }
    ensures remembers_2 { Remembers (formula_rows schema.now h.schema_rows proof.now) agreed.new }
{
    if !drawn_fits(schema, proof, nodes, members, work, h, j) {
        return Err(Refusal::Drawn.at(j));
    }
    if !fields::fields_fit(schema, proof, nodes, members, h, j) {
        return Err(Refusal::Fields.at(j));
    }
    if !target_fits(nodes, j) {
        return Err(Refusal::Target.at(j));
    }
    if !limits::bound_fits(schema, proof, nodes, work, h, j) {
        return Err(Refusal::Bound.at(j));
    }
    if !partners::partners_fit(schema, proof, nodes, facts, forms, h, j, agreed) {
        return Err(Refusal::Partner.at(j));
    }
    if !lowered_fits(schema, proof, nodes, members, forms, h, j, agreed) {
        return Err(Refusal::Lowered.at(j));
    }
    Ok(())
}

// What is found of node j, in a whole record or among rows that are held.
fn judge(
    whole: bool,
    schema: &[i32],
    proof: &[i32],
    nodes: &[i32],
    members: &[i32],
    facts: &[u32],
    forms: &[u32],
    work: &[u32],
    h: Header,
    j: usize,
    agreed: &mut [u32],
) -> Result<(), Refused>
    requires j_bound { j < h.node_rows }
    requires ready { Ready (lent schema.now proof.now nodes.now members.now h) facts.now forms.now work.now }
    requires remembers { Remembers (formula_rows schema.now h.schema_rows proof.now) agreed.old × (h.schema_rows + h.proof_rows ≤ length agreed.old) }
    ensures value { result ≡ node_refusal whole (lent schema.now proof.now nodes.now members.now h) j }
    ensures remembers_2 { Remembers (formula_rows schema.now h.schema_rows proof.now) agreed.new }
{
    step(
        schema, proof, nodes, members, facts, forms, work, h, j, agreed,
    )?;
    if !children_fit(whole, nodes, work, j) {
        return Err(Refusal::Children.at(j));
    }
    Ok(())
}

// What is found of the nodes, ascending.
pub fn each_node(
    whole: bool,
    schema: &[i32],
    proof: &[i32],
    nodes: &[i32],
    members: &[i32],
    facts: &[u32],
    forms: &[u32],
    work: &[u32],
    h: Header,
    agreed: &mut [u32],
) -> Result<(), Refused>
    requires ready { Ready (lent schema.now proof.now nodes.now members.now h) facts.now forms.now work.now }
    requires remembers { Remembers (formula_rows schema.now h.schema_rows proof.now) agreed.old × (h.schema_rows + h.proof_rows ≤ length agreed.old) }
    ensures value { result ≡ scan (node_refusal whole (lent schema.now proof.now nodes.now members.now h)) h.node_rows }
    ensures remembers_2 { Remembers (formula_rows schema.now h.schema_rows proof.now) agreed.new }
{
    for j in 0..h.node_rows {
        judge(
            whole, schema, proof, nodes, members, facts, forms, work, h, j, agreed,
        )?;
    }
    Ok(())
}
