// `with` and `other` of an unfolding: refusal 15.
ghost use Rattle.std.specs.Prelude.{◌≡◌, true, [], ◌+◌, ◌<◌, ◌≤◌, ◌^◌, pos, ◌+ℤ◌, length};
ghost use Rattle.stab.specs.Basic.{◌or◌, eq_z};
ghost use Rattle.stab.specs.Formula.{formula_rows, offset};
ghost use Rattle.stab.specs.Node.{node_at};
ghost use Rattle.stab.specs.Rule.{of_rule, shortened, partners_fit};
ghost use Rattle.formula.specs.Facts.{AllKnown};
ghost use Rattle.classes.specs.Class.{Ready};
ghost use Rattle.classes.specs.Agreed.{Remembers};
ghost use Rattle.stab.specs.Lent.{lent};
ghost use Rattle.branch.specs.Lent.{FieldsKnown};

use branch::node;
use classes::compare;
use stab::Header;

// Node j unfolds an iteration.
fn unfolds(nodes: &[i32], j: usize) -> bool
    requires { j < 2 ^ 32 }
    ensures { result ≡ (of_rule 3 (node_at nodes.now j) or of_rule 4 (node_at nodes.now j)) }
{
    if node::is_of(nodes, j, node::RULE, 3) {
        return true;
    }
    node::is_of(nodes, j, node::RULE, 4)
}

// Column c of row `with` is one more than that of row `on`.
fn is_next(schema: &[i32], s: usize, proof: &[i32], on: usize, with: usize) -> bool
    requires on_bound { (on < 2 ^ 32) × (with < 2 ^ 32) }
    requires on_value { offset (formula_rows schema.now s proof.now on).c ≡ true }
    requires with_value { offset (formula_rows schema.now s proof.now with).c ≡ true }
    ensures { result ≡ eq_z (formula_rows schema.now s proof.now with).c ((formula_rows schema.now s proof.now on).c +ℤ pos 1) }
{
    formula::natural_in(schema, s, proof, with, formula::C)
        + formula::under_in(schema, s, proof, on, formula::C)
        == formula::natural_in(schema, s, proof, on, formula::C)
            + formula::under_in(schema, s, proof, with, formula::C)
            + 1
}

// Row `with` has the body number and b of row `on`, and c + 1.
fn is_shortened(schema: &[i32], s: usize, proof: &[i32], on: usize, with: usize) -> bool
    requires on_bound { (on < 2 ^ 32) × (with < 2 ^ 32) }
    requires on_value { offset (formula_rows schema.now s proof.now on).c ≡ true }
    requires with_value { offset (formula_rows schema.now s proof.now with).c ≡ true }
    ensures { result ≡ shortened (formula_rows schema.now s proof.now on) (formula_rows schema.now s proof.now with) }
{
    if !leaves::same_in(schema, s, proof, with, formula::A, on, formula::A) {
        return false;
    }
    if !leaves::same_in(schema, s, proof, with, formula::B, on, formula::B) {
        return false;
    }
    is_next(schema, s, proof, on, with)
}

// If node j unfolds an iteration, `with` is the shortened one and `other` its body's instance. No set is looked at.
pub fn partners_fit(
    schema: &[i32],
    proof: &[i32],
    nodes: &[i32],
    facts: &[u32],
    forms: &[u32],
    h: Header,
    j: usize,
    agreed: &mut [u32],
) -> bool
    requires j_bound { j < 2 ^ 32 }
    requires fields_known { FieldsKnown (lent schema.now proof.now nodes.now [] h) j }
    requires all_known { AllKnown (formula_rows schema.now h.schema_rows proof.now) facts.now (h.schema_rows + h.proof_rows) }
    requires ready { Ready (formula_rows schema.now h.schema_rows proof.now) forms.now (h.schema_rows + h.proof_rows) }
    requires remembers { Remembers (formula_rows schema.now h.schema_rows proof.now) agreed.old × (h.schema_rows + h.proof_rows ≤ length agreed.old) }
    ensures value { result ≡ partners_fit (lent schema.now proof.now nodes.now [] h) j }
    ensures remembers_2 { Remembers (formula_rows schema.now h.schema_rows proof.now) agreed.new }
{
    if !unfolds(nodes, j) {
        return true;
    }
    let on = node::natural_of(nodes, j, node::ON);
    let with = node::natural_of(nodes, j, node::WITH);
    if !is_shortened(schema, h.schema_rows, proof, on, with) {
        return false;
    }
    let other = node::natural_of(nodes, j, node::OTHER);
    compare::is_instance(
        schema,
        h.schema_rows,
        proof,
        facts,
        forms,
        on,
        other,
        agreed,
    )
}
