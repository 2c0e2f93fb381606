// A node row behind the rows held: laid there, taken out again, and the tables cleared past the rows held.
ghost use Rattle.std.specs.Prelude.{◌≡◌, ◌+◌, ◌*◌, ◌<◌, ◌≤◌, pos, length, take, drop};
ghost use Rattle.std.proofs.lemmas.List.Edits.{sets};
ghost use Rattle.stab.specs.Text.{padded};
ghost use Rattle.growing.specs.Growing.{node_numbers};
ghost use Rattle.grow.specs.State.{row_from};

use tidy::node::copy;

// Numbers from a place of a table on; what stood there goes to the front of another.
fn lay_numbers(table: &mut [i32], at: usize, numbers: &[i32], saved: &mut [i32])
    requires { (at + length numbers.now ≤ length table.old) × (length numbers.now ≤ length saved.old) }
    ensures table_after { table.new ≡ sets table.old at numbers.now }
    ensures saved_after { take (length numbers.now) saved.new ≡ take (length numbers.now) (drop at table.old) }
{
    copy(saved, 0, &table[at..at + numbers.len()]);
    copy(table, at, numbers);
}

// The nine numbers of the row, after n rows and m members.
fn lay_node(nodes: &mut [i32], n: usize, m: usize, row: &[i32], set: &[i32], saved: &mut [i32])
    requires { (n < 1024) × (9 * n + 9 ≤ length nodes.old) × (m + length set.now ≤ 8192) × (9 ≤ length saved.old) }
    ensures nodes_after { nodes.new ≡ sets nodes.old (9 * n) (node_numbers (row_from row.now set.now) m) }
    ensures saved_after { take 9 saved.new ≡ take 9 (drop (9 * n) nodes.old) }
{
    let numbers = [
        signed::at(row, 0),
        signed::at(row, 1),
        signed::at(row, 2),
        signed::at(row, 3),
        signed::at(row, 4),
        signed::at(row, 5),
        signed::at(row, 6),
        signed::of(m),
        signed::of(set.len()),
    ];
    lay_numbers(nodes, 9 * n, &numbers, saved);
}

// The row and its set. What stood there is kept.
pub fn lay(
    nodes: &mut [i32],
    n: usize,
    members: &mut [i32],
    m: usize,
    row: &[i32],
    set: &[i32],
    saved_node: &mut [i32],
    saved_set: &mut [i32],
)
    requires { (n < 1024) × (9 * n + 9 ≤ length nodes.old) × (m + length set.now ≤ 8192) × (m + length set.now ≤ length members.old) × (9 ≤ length saved_node.old) × (length set.now ≤ length saved_set.old) }
    ensures nodes_after { nodes.new ≡ sets nodes.old (9 * n) (node_numbers (row_from row.now set.now) m) }
    ensures members_after { members.new ≡ sets members.old m set.now }
    ensures saved_node_after { take 9 saved_node.new ≡ take 9 (drop (9 * n) nodes.old) }
    ensures saved_set_after { take (length set.now) saved_set.new ≡ take (length set.now) (drop m members.old) }
{
    lay_node(nodes, n, m, row, set, saved_node);
    lay_numbers(members, m, set, saved_set);
}

// What was kept goes back.
pub fn put_back(
    nodes: &mut [i32],
    n: usize,
    members: &mut [i32],
    m: usize,
    size: usize,
    saved_node: &[i32],
    saved_set: &[i32],
)
    requires { (n < 1024) × (9 * n + 9 ≤ length nodes.old) × (m + size ≤ length members.old) × (9 ≤ length saved_node.now) × (size ≤ length saved_set.now) }
    ensures nodes_after { nodes.new ≡ sets nodes.old (9 * n) (take 9 saved_node.now) }
    ensures members_after { members.new ≡ sets members.old m (take size saved_set.now) }
{
    copy(nodes, 9 * n, &saved_node[..9]);
    copy(members, m, &saved_set[..size]);
}

// k rows and m members are held, and the tables are 0 past them.
pub fn hold(nodes: &mut [i32], k: usize, members: &mut [i32], m: usize)
    requires { (k ≤ 1024) × (9 * k ≤ length nodes.old) × (m ≤ length members.old) }
    ensures nodes_after { nodes.new ≡ padded (pos 0) (length nodes.old) (take (9 * k) nodes.old) }
    ensures members_after { members.new ≡ padded (pos 0) (length members.old) (take m members.old) }
{
    signed::clear(nodes, 9 * k);
    signed::clear(members, m);
}
