// Why two records are not joined, as far as that is known before anything is written; and a refusal.
#![tactic(auto)]

mod measure;

ghost use Rattle.std.specs.Prelude.{◌≡◌, [], pos, length, Err};
ghost use Rattle.stab.specs.Lent.{lent};
ghost use Rattle.stab.specs.Text.{padded};
ghost use Rattle.jointrefusal.specs.Before.{found_before};

use stab::{Header, Refusal, Refused};
use tableau::check::check;

// A faulty record, the first before the second; then 28; then 29, as far as it is known before the rows are tidied. Tidying removes no schema
// row and no node, so these are counted here.
pub fn refusal(
    first_schema: &[i32],
    first_proof: &[i32],
    first_nodes: &[i32],
    first_members: &[i32],
    first: Header,
    second_schema: &[i32],
    second_proof: &[i32],
    second_nodes: &[i32],
    second_members: &[i32],
    second: Header,
) -> Result<(), Refused>
    ensures { result ≡ found_before (lent first_schema.now first_proof.now first_nodes.now first_members.now first) (lent second_schema.now second_proof.now second_nodes.now second_members.now second) }
{
    check(first_schema, first_proof, first_nodes, first_members, first)?;
    check(
        second_schema,
        second_proof,
        second_nodes,
        second_members,
        second,
    )?;
    if !signed::equal(first.least, second.least) {
        return Err(Refusal::Leasts.whole());
    }
    if !measure::both_fit(first_schema, first, second_schema, second) {
        return Err(Refusal::Joint.whole());
    }
    Ok(())
}

// A refusal, which leaves all 0.
pub fn refuse(
    refused: Refused,
    out_schema: &mut [i32],
    out_proof: &mut [i32],
    out_nodes: &mut [i32],
    out_members: &mut [i32],
) -> Result<Header, Refused>
    ensures value { result ≡ Err refused }
    ensures out_schema_after { out_schema.new ≡ padded (pos 0) (length out_schema.old) [] }
    ensures out_proof_after { out_proof.new ≡ padded (pos 0) (length out_proof.old) [] }
    ensures out_nodes_after { out_nodes.new ≡ padded (pos 0) (length out_nodes.old) [] }
    ensures out_members_after { out_members.new ≡ padded (pos 0) (length out_members.old) [] }
{
    signed::clear(out_schema, 0);
    signed::clear(out_proof, 0);
    signed::clear(out_nodes, 0);
    signed::clear(out_members, 0);
    Err(refused)
}
