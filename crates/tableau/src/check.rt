// The check of a record, whole or held while it grows.
ghost use Rattle.std.specs.Prelude.{◌≡◌, [], ℕ, ◌+◌, ◌*◌, ◌≤◌, ltb, length};
ghost use Rattle.stab.specs.Basic.{◌implies◌, scan};
ghost use Rattle.stab.specs.Formula.{formula_rows};
ghost use Rattle.stab.specs.Node.{schema_of};
ghost use Rattle.stab.specs.Lent.{lent};
ghost use Rattle.stab.specs.Check.{tables_hold, within_limits, node_refusal, refusal, held_mode, verdict_on, check_older, check_as};
ghost use Rattle.stab.specs.Check.{check as checked};
ghost use Rattle.stab.specs.Refuted.{Refuted};
ghost use Rattle.stab.specs.Finding.{accept, no_refusal};
ghost use Rattle.formula.specs.Facts.{AllKnown, AllFormed};
ghost use Rattle.classes.specs.Class.{AllWorked as AllClassed};
ghost use Rattle.classes.specs.Agreed.{Remembers};
ghost use Rattle.tableau.specs.Passes.{nodes_refusal, passes_refusal, later_refusal};

use formula_pass::row_count;
use stab::{Counts, Header, Mode, Refusal, Refused, Verdict};

// The tables hold what their counts say.
fn hold(schema: &[i32], proof: &[i32], nodes: &[i32], members: &[i32], h: Header) -> bool
    ensures { result ≡ tables_hold (lent schema.now proof.now nodes.now members.now h) }
{
    if !signed::holds(schema, 4, h.schema_rows) {
        return false;
    }
    if !signed::holds(proof, 4, h.proof_rows) {
        return false;
    }
    if !signed::holds(nodes, 9, h.node_rows) {
        return false;
    }
    signed::holds(members, 1, h.member_count)
}

// The counts are within the limits.
fn few(h: Header) -> bool
    ensures { result ≡ within_limits (lent [] [] [] [] h) }
{
    if 1024 < h.schema_rows {
        return false;
    }
    if 1024 - h.schema_rows < h.proof_rows {
        return false;
    }
    if 1024 < h.node_rows {
        return false;
    }
    h.member_count <= 8192
}

// A whole record has a node; rows that are held may be none.
fn enough(whole: bool, k: usize) -> bool
    ensures { result ≡ (whole implies ltb 0 k) }
{
    if whole { 0 < k } else { true }
}

// Refusals 9 and 10: sets, then that there are enough nodes, then parents.
fn nodes_pass(
    whole: bool,
    schema: &[i32],
    proof: &[i32],
    nodes: &[i32],
    members: &[i32],
    h: Header,
    facts: &[u32],
) -> Result<(), Refused>
    requires proof_rows_bound { (h.schema_rows + h.proof_rows ≤ 1024) × (4 * (h.schema_rows + h.proof_rows) ≤ length facts.now) × (h.node_rows ≤ 1024) × (h.member_count ≤ length members.now) }
    requires all_known { AllKnown (formula_rows schema.now h.schema_rows proof.now) facts.now (h.schema_rows + h.proof_rows) }
    ensures { result ≡ nodes_refusal whole (lent schema.now proof.now nodes.now members.now h) }
{
    sets::sets(
        facts,
        row_count(h),
        nodes,
        h.node_rows,
        members,
        h.member_count,
    )?;
    if !enough(whole, h.node_rows) {
        return Err(Refusal::Parent.whole());
    }
    sets::parents::parents(nodes, h.node_rows, members, h.root)
}

// What two well-formed rows are compared by is kept; the rest of what it is worked out with is not needed again.
fn classify(schema: &[i32], proof: &[i32], h: Header, forms: &mut [u32], sides: &mut [u32])
    requires proof_rows_bound { (h.schema_rows + h.proof_rows ≤ 1024) × (4 * (h.schema_rows + h.proof_rows) ≤ length forms.old) × (2 * (h.schema_rows + h.proof_rows) ≤ length sides.old) }
    requires all_formed { AllFormed (formula_rows schema.now h.schema_rows proof.now) (h.schema_rows + h.proof_rows) }
    ensures { AllClassed (formula_rows schema.now h.schema_rows proof.now) forms.new (h.schema_rows + h.proof_rows) }
{
    let mut heads = [0u16; 512];
    classes::work_out(
        schema,
        h.schema_rows,
        proof,
        row_count(h),
        forms,
        sides,
        &mut heads,
    );
}

// Refusals 6 to 10. Where nothing is found, what is known of rows is kept.
fn passes(
    m: Mode,
    schema: &[i32],
    proof: &[i32],
    nodes: &[i32],
    members: &[i32],
    h: Header,
    facts: &mut [u32],
) -> Result<(), Refused>
    requires { (h.schema_rows + h.proof_rows ≤ 1024) × (4 * (h.schema_rows + h.proof_rows) ≤ length facts.old) × (h.node_rows ≤ 1024) × (h.member_count ≤ length members.now) }
    ensures value { result ≡ passes_refusal m (lent schema.now proof.now nodes.now members.now h) }
    ensures all_known { result ≡ no_refusal → AllKnown (formula_rows schema.now h.schema_rows proof.now) facts.new (h.schema_rows + h.proof_rows) }
    ensures all_formed { result ≡ no_refusal → AllFormed (formula_rows schema.now h.schema_rows proof.now) (h.schema_rows + h.proof_rows) }
{
    formula_pass::formulas(m.older, schema, proof, h, facts)?;
    nodes_pass(m.whole, schema, proof, nodes, members, h, facts)
}

// The refusals of single steps, in a record in which nothing was found before them.
fn single_steps(
    m: Mode,
    schema: &[i32],
    proof: &[i32],
    nodes: &[i32],
    members: &[i32],
    h: Header,
    facts: &[u32],
    forms: &mut [u32],
    sides: &mut [u32],
    work: &mut [u32],
    agreed: &mut [u32],
) -> Result<(), Refused>
    requires proof_rows_bound { (h.schema_rows + h.proof_rows ≤ 1024) × (4 * (h.schema_rows + h.proof_rows) ≤ length forms.old) × (2 * (h.schema_rows + h.proof_rows) ≤ length sides.old) × (h.node_rows ≤ 1024) × (h.member_count ≤ 8192) × (9 * h.node_rows ≤ length nodes.now) × (h.member_count ≤ length members.now) × (4 * h.node_rows ≤ length work.old) }
    requires all_known { AllKnown (formula_rows schema.now h.schema_rows proof.now) facts.now (h.schema_rows + h.proof_rows) × AllFormed (formula_rows schema.now h.schema_rows proof.now) (h.schema_rows + h.proof_rows) }
    requires h_value { passes_refusal m (lent schema.now proof.now nodes.now members.now h) ≡ no_refusal }
    requires remembers { Remembers (formula_rows schema.now h.schema_rows proof.now) agreed.old × (h.schema_rows + h.proof_rows ≤ length agreed.old) }
    ensures { result ≡ scan (node_refusal m.whole (lent schema.now proof.now nodes.now members.now h)) h.node_rows }
{
    bounds::work_out(nodes, h.node_rows, h.least, work);
    classify(schema, proof, h, forms, sides);
    steps::steps::each_node(
        m.whole, schema, proof, nodes, members, facts, forms, work, h, agreed,
    )
}

// What is found from refusal 6 on in a record of few rows and nodes, which need not wait for the tables of a large one.
fn small_record(
    m: Mode,
    schema: &[i32],
    proof: &[i32],
    nodes: &[i32],
    members: &[i32],
    h: Header,
) -> Result<(), Refused>
    requires { (h.schema_rows + h.proof_rows ≤ 256) × (h.node_rows ≤ 256) × (h.member_count ≤ 8192) × (9 * h.node_rows ≤ length nodes.now) × (h.member_count ≤ length members.now) }
    ensures { result ≡ later_refusal m (lent schema.now proof.now nodes.now members.now h) }
{
    let mut facts = [0u32; 1024];
    passes(m, schema, proof, nodes, members, h, &mut facts)?;
    let mut forms = [0u32; 1024];
    let mut sides = [0u32; 512];
    let mut work = [0u32; 1024];
    let mut agreed = [0u32; 256];
    single_steps(
        m,
        schema,
        proof,
        nodes,
        members,
        h,
        &facts,
        &mut forms,
        &mut sides,
        &mut work,
        &mut agreed,
    )
}

// The same in any record within the limits.
fn large_record(
    m: Mode,
    schema: &[i32],
    proof: &[i32],
    nodes: &[i32],
    members: &[i32],
    h: Header,
) -> Result<(), Refused>
    requires { (h.schema_rows + h.proof_rows ≤ 1024) × (h.node_rows ≤ 1024) × (h.member_count ≤ 8192) × (9 * h.node_rows ≤ length nodes.now) × (h.member_count ≤ length members.now) }
    ensures { result ≡ later_refusal m (lent schema.now proof.now nodes.now members.now h) }
{
    let mut facts = [0u32; 4096];
    passes(m, schema, proof, nodes, members, h, &mut facts)?;
    let mut forms = [0u32; 4096];
    let mut sides = [0u32; 2048];
    let mut work = [0u32; 4096];
    let mut agreed = [0u32; 1024];
    single_steps(
        m,
        schema,
        proof,
        nodes,
        members,
        h,
        &facts,
        &mut forms,
        &mut sides,
        &mut work,
        &mut agreed,
    )
}

// What is found first.
fn first_refusal(
    m: Mode,
    schema: &[i32],
    proof: &[i32],
    nodes: &[i32],
    members: &[i32],
    h: Header,
) -> Result<(), Refused>
    ensures { result ≡ refusal m (lent schema.now proof.now nodes.now members.now h) }
{
    if !hold(schema, proof, nodes, members, h) {
        return Err(Refusal::TableTooShort.whole());
    }
    if !few(h) {
        return Err(Refusal::TooMany.whole());
    }
    if row_count(h) <= 256 {
        if h.node_rows <= 256 {
            return small_record(m, schema, proof, nodes, members, h);
        }
    }
    large_record(m, schema, proof, nodes, members, h)
}

// What is found first of rows that are held: no node and missing children are no fault.
pub fn held(
    schema: &[i32],
    proof: &[i32],
    nodes: &[i32],
    members: &[i32],
    h: Header,
) -> Result<(), Refused>
    ensures { result ≡ refusal held_mode (lent schema.now proof.now nodes.now members.now h) }
{
    let m = Mode {
        older: false,
        whole: false,
    };
    first_refusal(m, schema, proof, nodes, members, h)
}

// The verdict on what was found in a record.
fn verdict_on(found: Result<(), Refused>, nodes: &[i32], h: Header) -> Verdict
    requires { found ≡ no_refusal → h.node_rows ≤ 1024 }
    ensures { result ≡ verdict_on found (lent [] [] nodes.now [] h) }
{
    found?;
    Ok(Counts {
        nodes: h.node_rows,
        links: branch::links::links(nodes, h.node_rows),
    })
}

// The check's answer. Where it accepts, the schema is false at every natural n from its least value up, under every assignment.
pub fn check(schema: &[i32], proof: &[i32], nodes: &[i32], members: &[i32], h: Header) -> Verdict
    ensures value { result ≡ checked (lent schema.now proof.now nodes.now members.now h) }
    ensures by_index { (n l : ℕ) → result ≡ accept n l → Refuted (schema_of (lent schema.now proof.now nodes.now members.now h)) }
{
    let m = Mode {
        older: false,
        whole: true,
    };
    let found = first_refusal(m, schema, proof, nodes, members, h);
    verdict_on(found, nodes, h)
}

// The same for an older record, whose proof rows may repeat.
pub fn check_older(
    schema: &[i32],
    proof: &[i32],
    nodes: &[i32],
    members: &[i32],
    h: Header,
) -> Verdict
    ensures value { result ≡ check_older (lent schema.now proof.now nodes.now members.now h) }
    ensures by_index { (n l : ℕ) → result ≡ accept n l → Refuted (schema_of (lent schema.now proof.now nodes.now members.now h)) }
{
    let m = Mode {
        older: true,
        whole: true,
    };
    let found = first_refusal(m, schema, proof, nodes, members, h);
    verdict_on(found, nodes, h)
}

// The one or the other.
pub fn check_as(
    older: bool,
    schema: &[i32],
    proof: &[i32],
    nodes: &[i32],
    members: &[i32],
    h: Header,
) -> Verdict
    ensures { result ≡ check_as older (lent schema.now proof.now nodes.now members.now h) }
{
    if older {
        return check_older(schema, proof, nodes, members, h);
    }
    check(schema, proof, nodes, members, h)
}
