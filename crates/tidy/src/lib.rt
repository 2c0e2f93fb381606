// Tidying older records: proof rows folded, and nodes and sets under the new numbers.
#![tactic(auto)]

pub mod node;
pub mod set;

ghost use Rattle.std.specs.Prelude.{◌≡◌, [], ◌+◌, ◌*◌, ◌<◌, ◌≤◌, pos, length, Err};
ghost use Rattle.stab.specs.Text.{padded};
ghost use Rattle.stab.specs.Finding.{accept};
ghost use Rattle.tidied.specs.Tidied.{new_number, new_of};
ghost use Rattle.tidied.specs.Tidied.{tidied as tidiedOf};
ghost use Rattle.stab.specs.Lent.{lent};
ghost use Rattle.tidied.specs.Tidy.{tidy as tidy_of, tidy_answer, tidy_proof, tidy_node_table, tidy_member_table};
ghost use Rattle.folds.specs.Folds.{AllSmall};
ghost use Rattle.tidy.specs.Kept.{rooms, SetFits, AllFit, Tidies};

use branch::node::{SIZE, START, natural_of};
use stab::{Header, ProofCounts, Refusal, Refused};
use tableau::check::check_older;
use text::read::full;

// Node j and its set, after the m members of the sets before it. How many members its set has.
fn one_node(
    nodes: &[i32],
    j: usize,
    members: &[i32],
    numbers: &[u32],
    s: usize,
    m: usize,
    out_nodes: &mut [i32],
    out_members: &mut [i32],
) -> usize
    requires j_bound { (j < 1024) × (9 * j + 9 ≤ length out_nodes.old) × (8192 ≤ length out_members.old) × AllSmall numbers.now }
    requires set_fits { SetFits nodes.now members.now (new_number s numbers.now) j }
    requires tidies { Tidies nodes.now members.now (new_number s numbers.now) j m out_nodes.old out_members.old }
    ensures { Tidies nodes.now members.now (new_number s numbers.now) (j + 1) (m + result) out_nodes.new out_members.new × (m + result ≤ 8192) }
{
    let start = natural_of(nodes, j, START);
    let size = natural_of(nodes, j, SIZE);
    let n = set::put(members, start, size, numbers, s, &mut out_members[m..]);
    node::put(nodes, j, numbers, s, m, n, out_nodes);
    n
}

// Each of k nodes. How many members their sets have.
fn each_node(
    nodes: &[i32],
    k: usize,
    members: &[i32],
    numbers: &[u32],
    s: usize,
    out_nodes: &mut [i32],
    out_members: &mut [i32],
) -> usize
    requires k_bound { (k ≤ 1024) × (9 * k ≤ length out_nodes.old) × (8192 ≤ length out_members.old) × AllSmall numbers.now }
    requires all_fit { AllFit nodes.now members.now (new_number s numbers.now) k }
    ensures { Tidies nodes.now members.now (new_number s numbers.now) k result out_nodes.new out_members.new × (result ≤ 8192) }
{
    let mut m = 0;
    for j in 0..k {
        m += one_node(nodes, j, members, numbers, s, m, out_nodes, out_members);
    }
    m
}

// The rows of a record folded, and its nodes and sets put under the new numbers.
fn tidied(
    schema: &[i32],
    proof: &[i32],
    nodes: &[i32],
    members: &[i32],
    h: Header,
    out_proof: &mut [i32],
    out_nodes: &mut [i32],
    out_members: &mut [i32],
) -> Result<ProofCounts, Refused>
    requires proof_rows_bound { (h.schema_rows + h.proof_rows ≤ 1024) × (h.node_rows ≤ 1024) × (4 * h.proof_rows ≤ length out_proof.old) × (9 * h.node_rows ≤ length out_nodes.old) × (8192 ≤ length out_members.old) }
    requires all_fit { AllFit nodes.now members.now (new_of (lent schema.now proof.now nodes.now members.now h)) h.node_rows }
    ensures value { result ≡ tidy_answer (accept 0 0) (tidiedOf (lent schema.now proof.now nodes.now members.now h)) }
    ensures out_proof_after { out_proof.new ≡ padded (pos 0) (length out_proof.old) (tidiedOf (lent schema.now proof.now nodes.now members.now h)).proof }
    ensures out_nodes_after { out_nodes.new ≡ padded (pos 0) (length out_nodes.old) (tidiedOf (lent schema.now proof.now nodes.now members.now h)).nodes }
    ensures out_members_after { out_members.new ≡ padded (pos 0) (length out_members.old) (tidiedOf (lent schema.now proof.now nodes.now members.now h)).members }
{
    let mut numbers = [0u32; 1024];
    let k = h.node_rows;
    let rows = folds::fold(
        schema,
        h.schema_rows,
        proof,
        h.proof_rows,
        out_proof,
        &mut numbers,
    );
    let m = each_node(
        nodes,
        k,
        members,
        &numbers,
        h.schema_rows,
        out_nodes,
        out_members,
    );
    signed::clear(out_nodes, 9 * k);
    signed::clear(out_members, m);
    Ok(ProofCounts {
        rows,
        nodes: k,
        members: m,
    })
}

// A refusal, which leaves all 0.
fn refuse(
    refused: Refused,
    out_proof: &mut [i32],
    out_nodes: &mut [i32],
    out_members: &mut [i32],
) -> Result<ProofCounts, Refused>
    ensures value { result ≡ Err refused }
    ensures out_proof_after { out_proof.new ≡ padded (pos 0) (length out_proof.old) [] }
    ensures out_nodes_after { out_nodes.new ≡ padded (pos 0) (length out_nodes.old) [] }
    ensures out_members_after { out_members.new ≡ padded (pos 0) (length out_members.old) [] }
{
    signed::clear(out_proof, 0);
    signed::clear(out_nodes, 0);
    signed::clear(out_members, 0);
    Err(refused)
}

// A record that the older check accepts is tidied into lent tables, and one that it refuses is refused with that number and place.
// The cost is that of the check, and a step for each row and member; a set that is far from sorted costs, for each member, one step
// for each larger one before it.
pub fn tidy(
    schema: &[i32],
    proof: &[i32],
    nodes: &[i32],
    members: &[i32],
    h: Header,
    out_proof: &mut [i32],
    out_nodes: &mut [i32],
    out_members: &mut [i32],
) -> Result<ProofCounts, Refused>
    ensures answer { result ≡ tidy_of (rooms out_proof.old out_nodes.old out_members.old) (lent schema.now proof.now nodes.now members.now h) }
    ensures rows { out_proof.new ≡ tidy_proof (rooms out_proof.old out_nodes.old out_members.old) (lent schema.now proof.now nodes.now members.now h) }
    ensures nodes { out_nodes.new ≡ tidy_node_table (rooms out_proof.old out_nodes.old out_members.old) (lent schema.now proof.now nodes.now members.now h) }
    ensures members { out_members.new ≡ tidy_member_table (rooms out_proof.old out_nodes.old out_members.old) (lent schema.now proof.now nodes.now members.now h) }
{
    if !full(out_proof, out_nodes, out_members) {
        return refuse(
            Refusal::TableTooShort.at(0),
            out_proof,
            out_nodes,
            out_members,
        );
    }
    match check_older(schema, proof, nodes, members, h) {
        Err(refused) => { refuse(refused, out_proof, out_nodes, out_members) }
        Ok(_) => tidied(
            schema,
            proof,
            nodes,
            members,
            h,
            out_proof,
            out_nodes,
            out_members,
        ),
    }
}
