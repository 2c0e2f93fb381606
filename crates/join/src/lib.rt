// One record for either fault: two accepted records joined into one, under the or of their roots.
#![tactic(auto)]

ghost use Rattle.std.specs.Prelude.{◌≡◌, true};
ghost use Rattle.stab.specs.Lent.{lent};
ghost use Rattle.stab.specs.Finding.{no_refusal};
ghost use Rattle.joint.specs.Joint.{joined_schema, joined_proof, joined_nodes, joined_members};
ghost use Rattle.joint.specs.Joint.{join as join_of};
ghost use Rattle.jointrefusal.specs.Before.{found_before};
ghost use Rattle.join.specs.Kept.{rooms, roomy, Answers};

use jointnodes::fill_nodes;
use jointrefusal::{refusal, refuse};
use jointrows::fill_rows;
use stab::{Header, Refusal, Refused};

// Two records in which nothing was found before: 29, or the joined record.
fn filled(
    first_schema: &[i32],
    first_proof: &[i32],
    first_nodes: &[i32],
    first_members: &[i32],
    first: Header,
    second_schema: &[i32],
    second_proof: &[i32],
    second_nodes: &[i32],
    second_members: &[i32],
    second: Header,
    out_schema: &mut [i32],
    out_proof: &mut [i32],
    out_nodes: &mut [i32],
    out_members: &mut [i32],
) -> Result<Header, Refused>
    requires out_members_value { roomy (rooms out_schema.old out_proof.old out_nodes.old out_members.old) ≡ true }
    requires second_value { found_before (lent first_schema.now first_proof.now first_nodes.now first_members.now first) (lent second_schema.now second_proof.now second_nodes.now second_members.now second) ≡ no_refusal }
    ensures { Answers (rooms out_schema.old out_proof.old out_nodes.old out_members.old) (lent first_schema.now first_proof.now first_nodes.now first_members.now first) (lent second_schema.now second_proof.now second_nodes.now second_members.now second) result out_schema.new out_proof.new out_nodes.new out_members.new }
{
    let or_row = first.schema_rows + second.schema_rows;
    let mut first_numbers = [0u32; 1024];
    let mut second_numbers = [0u32; 1024];
    let rows = fill_rows(
        first_schema,
        first_proof,
        first,
        second_schema,
        second_proof,
        second,
        &mut first_numbers,
        &mut second_numbers,
        out_schema,
        out_proof,
    );
    if 1024 < or_row + 1 + rows {
        return refuse(
            Refusal::Joint.whole(),
            out_schema,
            out_proof,
            out_nodes,
            out_members,
        );
    }
    let members = fill_nodes(
        or_row,
        first_nodes,
        first.node_rows,
        first_members,
        &first_numbers,
        second_nodes,
        second.node_rows,
        second_members,
        &second_numbers,
        out_nodes,
        out_members,
    );
    if 8192 < members {
        return refuse(
            Refusal::Joint.whole(),
            out_schema,
            out_proof,
            out_nodes,
            out_members,
        );
    }
    Ok(Header {
        schema_rows: or_row + 1,
        proof_rows: rows,
        root: signed::of(or_row),
        least: first.least,
        node_rows: 1 + first.node_rows + second.node_rows,
        member_count: members,
    })
}

// The result tables have their full sizes.
fn full(schema: &[i32], proof: &[i32], nodes: &[i32], members: &[i32]) -> bool
    ensures { result ≡ roomy (rooms schema.now proof.now nodes.now members.now) }
{
    if schema.len() < 4096 {
        return false;
    }
    text::read::full(proof, nodes, members)
}

// Two records that the check accepts are joined into lent tables, and one that it refuses is refused with its number and place, the
// first before the second. The cost is that of the two checks, and a step for each row and member; a set that is far from sorted costs,
// for each member, one step for each larger one before it.
pub fn join(
    first_schema: &[i32],
    first_proof: &[i32],
    first_nodes: &[i32],
    first_members: &[i32],
    first: Header,
    second_schema: &[i32],
    second_proof: &[i32],
    second_nodes: &[i32],
    second_members: &[i32],
    second: Header,
    out_schema: &mut [i32],
    out_proof: &mut [i32],
    out_nodes: &mut [i32],
    out_members: &mut [i32],
) -> Result<Header, Refused>
    ensures answer { result ≡ join_of (rooms out_schema.old out_proof.old out_nodes.old out_members.old) (lent first_schema.now first_proof.now first_nodes.now first_members.now first) (lent second_schema.now second_proof.now second_nodes.now second_members.now second) }
    ensures schema { out_schema.new ≡ joined_schema (rooms out_schema.old out_proof.old out_nodes.old out_members.old) (lent first_schema.now first_proof.now first_nodes.now first_members.now first) (lent second_schema.now second_proof.now second_nodes.now second_members.now second) }
    ensures rows { out_proof.new ≡ joined_proof (rooms out_schema.old out_proof.old out_nodes.old out_members.old) (lent first_schema.now first_proof.now first_nodes.now first_members.now first) (lent second_schema.now second_proof.now second_nodes.now second_members.now second) }
    ensures nodes { out_nodes.new ≡ joined_nodes (rooms out_schema.old out_proof.old out_nodes.old out_members.old) (lent first_schema.now first_proof.now first_nodes.now first_members.now first) (lent second_schema.now second_proof.now second_nodes.now second_members.now second) }
    ensures members { out_members.new ≡ joined_members (rooms out_schema.old out_proof.old out_nodes.old out_members.old) (lent first_schema.now first_proof.now first_nodes.now first_members.now first) (lent second_schema.now second_proof.now second_nodes.now second_members.now second) }
{
    if !full(out_schema, out_proof, out_nodes, out_members) {
        return refuse(
            Refusal::TableTooShort.at(0),
            out_schema,
            out_proof,
            out_nodes,
            out_members,
        );
    }
    match refusal(
        first_schema,
        first_proof,
        first_nodes,
        first_members,
        first,
        second_schema,
        second_proof,
        second_nodes,
        second_members,
        second,
    ) {
        Err(refused) => { refuse(refused, out_schema, out_proof, out_nodes, out_members) }
        Ok(()) => {
            filled(
                first_schema,
                first_proof,
                first_nodes,
                first_members,
                first,
                second_schema,
                second_proof,
                second_nodes,
                second_members,
                second,
                out_schema,
                out_proof,
                out_nodes,
                out_members,
            )
        }
    }
}
