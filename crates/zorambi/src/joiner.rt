// The entry that joins two records: one number back as from the check, with both counts 0, and the root, the least value and the numbers of
// schema rows, proof rows, nodes and members in lent results.
ghost use Rattle.stab.specs.Lent.{lent, header};
ghost use Rattle.join.specs.Kept.{rooms};
ghost use Rattle.zorambi.specs.Given.{JoinGives};

use stab::Header;

// Two records that the check accepts, as one record of their or, in the four tables.
#[unsafe(no_mangle)]
pub extern "C" fn zorambi_join(
    first_schema: &[i32],
    first_schema_rows: usize,
    first_proof: &[i32],
    first_proof_rows: usize,
    first_root: i32,
    first_least: i32,
    first_nodes: &[i32],
    first_node_rows: usize,
    first_members: &[i32],
    first_member_count: usize,
    second_schema: &[i32],
    second_schema_rows: usize,
    second_proof: &[i32],
    second_proof_rows: usize,
    second_root: i32,
    second_least: i32,
    second_nodes: &[i32],
    second_node_rows: usize,
    second_members: &[i32],
    second_member_count: usize,
    out_schema: &mut [i32],
    out_proof: &mut [i32],
    out_nodes: &mut [i32],
    out_members: &mut [i32],
    results: &mut [i32; 6],
) -> u64
    ensures { JoinGives (rooms out_schema.old out_proof.old out_nodes.old out_members.old) (lent first_schema.now first_proof.now first_nodes.now first_members.now (header first_schema_rows first_proof_rows first_root first_least first_node_rows first_member_count)) (lent second_schema.now second_proof.now second_nodes.now second_members.now (header second_schema_rows second_proof_rows second_root second_least second_node_rows second_member_count)) result results.new out_schema.new out_proof.new out_nodes.new out_members.new }
{
    let first = Header {
        schema_rows: first_schema_rows,
        proof_rows: first_proof_rows,
        root: first_root,
        least: first_least,
        node_rows: first_node_rows,
        member_count: first_member_count,
    };
    let second = Header {
        schema_rows: second_schema_rows,
        proof_rows: second_proof_rows,
        root: second_root,
        least: second_least,
        node_rows: second_node_rows,
        member_count: second_member_count,
    };
    told::joined(
        join::join(
            first_schema,
            first_proof,
            first_nodes,
            first_members,
            first,
            second_schema,
            second_proof,
            second_nodes,
            second_members,
            second,
            out_schema,
            out_proof,
            out_nodes,
            out_members,
        ),
        results,
    )
}
