// The nodes of two records with their sets as those of one, under a node of rule 1 on the or.
#![tactic(auto)]

mod node;

ghost use Rattle.std.specs.Prelude.{◌≡◌, [], ◌+◌, ◌<◌, ◌≤◌, leb, pos, length, if◌then◌else◌};
ghost use Rattle.stab.specs.Text.{padded};
ghost use Rattle.tidied.specs.Tidied.{new_number};
ghost use Rattle.folds.specs.Folds.{AllSmall};
ghost use Rattle.jointnodes.specs.Kept.{AllReadable, both_nodes, both_sets};

// The or's node, and the nodes of both, with their sets; or none where there are too many members. How many members there are.
pub fn fill_nodes(
    or_row: usize,
    first_nodes: &[i32],
    first_node_rows: usize,
    first_members: &[i32],
    first_numbers: &[u32],
    second_nodes: &[i32],
    second_node_rows: usize,
    second_members: &[i32],
    second_numbers: &[u32],
    out_nodes: &mut [i32],
    out_members: &mut [i32],
) -> usize
    requires or_row_bound { (or_row < 1024) × (first_node_rows + second_node_rows < 1024) × (9216 ≤ length out_nodes.old) × (8192 ≤ length out_members.old) × AllSmall first_numbers.now × AllSmall second_numbers.now }
    requires all_readable { AllReadable first_nodes.now first_members.now first_node_rows × AllReadable second_nodes.now second_members.now second_node_rows }
    ensures value { result ≡ length (both_sets or_row first_nodes.now first_members.now (new_number 0 first_numbers.now) first_node_rows second_nodes.now second_members.now (new_number 0 second_numbers.now) second_node_rows) }
    ensures out_nodes_after { out_nodes.new ≡ padded (pos 0) (length out_nodes.old) (if leb result 8192 then both_nodes or_row first_nodes.now first_members.now (new_number 0 first_numbers.now) first_node_rows second_nodes.now second_members.now (new_number 0 second_numbers.now) second_node_rows else []) }
    ensures out_members_after { out_members.new ≡ padded (pos 0) (length out_members.old) (if leb result 8192 then both_sets or_row first_nodes.now first_members.now (new_number 0 first_numbers.now) first_node_rows second_nodes.now second_members.now (new_number 0 second_numbers.now) second_node_rows else []) }
{
    node::put_first(or_row, out_nodes, out_members);
    let m = node::each_node(
        first_nodes,
        first_node_rows,
        first_members,
        first_numbers,
        1,
        1,
        out_nodes,
        out_members,
    );
    let d = 1 + first_node_rows;
    let n = node::each_node(
        second_nodes,
        second_node_rows,
        second_members,
        second_numbers,
        d,
        m,
        out_nodes,
        out_members,
    );
    if n <= 8192 {
        signed::clear(out_nodes, 9 * (d + second_node_rows));
        signed::clear(out_members, n);
    } else {
        signed::clear(out_nodes, 0);
        signed::clear(out_members, 0);
    }
    n
}
