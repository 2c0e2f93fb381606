// The entry that tidies an older record: one number back as from the check, with both counts 0, and the numbers of rows, nodes and members in
// lent results.
ghost use Rattle.stab.specs.Lent.{lent, header};
ghost use Rattle.tidy.specs.Kept.{rooms};
ghost use Rattle.zorambi.specs.Given.{TidyGives};

use stab::Header;

// A record that the older check accepts, tidied into the three tables.
#[unsafe(no_mangle)]
pub extern "C" fn zorambi_tidy(
    schema: &[i32],
    schema_rows: usize,
    proof: &[i32],
    proof_rows: usize,
    root: i32,
    least: i32,
    nodes: &[i32],
    node_rows: usize,
    members: &[i32],
    member_count: usize,
    out_proof: &mut [i32],
    out_nodes: &mut [i32],
    out_members: &mut [i32],
    results: &mut [i32; 3],
) -> u64
    ensures { TidyGives (rooms out_proof.old out_nodes.old out_members.old) (lent schema.now proof.now nodes.now members.now (header schema_rows proof_rows root least node_rows member_count)) result results.new out_proof.new out_nodes.new out_members.new }
{
    let h = Header {
        schema_rows,
        proof_rows,
        root,
        least,
        node_rows,
        member_count,
    };
    told::proof(
        tidy::tidy(
            schema,
            proof,
            nodes,
            members,
            h,
            out_proof,
            out_nodes,
            out_members,
        ),
        results,
    )
}
