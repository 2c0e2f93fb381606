// The nodes of one record with their sets, after those of another.
ghost use Rattle.std.specs.Prelude.{◌≡◌, ◌∷◌, [], ◌+◌, ◌*◌, ◌<◌, ◌≤◌, pos, length, take};
ghost use Rattle.std.proofs.lemmas.List.Edits.{sets};
ghost use Rattle.stab.specs.Basic.{nat};
ghost use Rattle.stab.specs.Node.{node_at};
ghost use Rattle.tidied.specs.Tidied.{new_number};
ghost use Rattle.folds.specs.Folds.{AllSmall};
ghost use Rattle.joint.specs.Joint.{parent_of, further};
ghost use Rattle.jointnodes.specs.Kept.{placed_node, PutsOne, Puts, Readable, AllReadable, or_node};

use branch::node::{BY, ON, OTHER, RULE, SIZE, START, TO, UP, WITH, natural_of, number_of};
use tidy::node::{copy, field};
use tidy::set;

// The parent of a node that comes d nodes further on: what had none is a child of node 0.
fn parent(z: i32, d: usize) -> i32
    requires { (nat z ≤ 1024) × (d ≤ 1024) }
    ensures { result ≡ parent_of d z }
{
    if signed::less(z, 0) {
        return 0;
    }
    signed::of(signed::natural(z) + d)
}

// A node's number, d further on; what names none stays.
fn onward(z: i32, d: usize) -> i32
    requires { (nat z ≤ 1024) × (d ≤ 1024) }
    ensures { result ≡ further d z }
{
    if signed::less(z, 0) {
        return z;
    }
    signed::of(signed::natural(z) + d)
}

// Node j goes to its place in a table, d nodes further on, with its set's new start and size.
fn put(
    nodes: &[i32],
    j: usize,
    numbers: &[u32],
    d: usize,
    start: usize,
    size: usize,
    table: &mut [i32],
)
    requires { (d + j < 1024) × (9 * (d + j) + 9 ≤ length table.old) × (start ≤ 8192) × (size ≤ 8192) × AllSmall numbers.now × (nat (node_at nodes.now j).up ≤ 1024) × (nat (node_at nodes.now j).to ≤ 1024) }
    ensures { table.new ≡ sets table.old (9 * (d + j)) (placed_node (new_number 0 numbers.now) d (node_at nodes.now j) start size) }
{
    let row = [
        parent(number_of(nodes, j, UP), d),
        number_of(nodes, j, RULE),
        field(nodes, j, ON, numbers, 0),
        field(nodes, j, WITH, numbers, 0),
        field(nodes, j, OTHER, numbers, 0),
        onward(number_of(nodes, j, TO), d),
        number_of(nodes, j, BY),
        signed::of(start),
        signed::of(size),
    ];
    copy(table, 9 * (d + j), &row);
}

// Node j and its set, after d + j nodes with n members, where there is room for the set. How many members there are then.
fn one_node(
    nodes: &[i32],
    j: usize,
    members: &[i32],
    numbers: &[u32],
    d: usize,
    n: usize,
    out_nodes: &mut [i32],
    out_members: &mut [i32],
) -> usize
    requires j_bound { (d + j < 1024) × (n ≤ 8192 * 1024) × (9216 ≤ length out_nodes.old) × (8192 ≤ length out_members.old) × AllSmall numbers.now }
    requires readable { Readable nodes.now members.now j }
    ensures { PutsOne nodes.now members.now (new_number 0 numbers.now) d j n result out_nodes.old out_members.old out_nodes.new out_members.new × (result ≤ n + 1024) }
{
    let start = natural_of(nodes, j, START);
    let size = natural_of(nodes, j, SIZE);
    let mut list = [0i32; 1024];
    let k = set::put(members, start, size, numbers, 0, &mut list);
    let r = n + k;
    if r <= 8192 {
        copy(out_members, n, &list[..k]);
        put(nodes, j, numbers, d, n, k, out_nodes);
    }
    r
}

// Each of k nodes, after d nodes with m members. How many members there are then.
pub fn each_node(
    nodes: &[i32],
    k: usize,
    members: &[i32],
    numbers: &[u32],
    d: usize,
    m: usize,
    out_nodes: &mut [i32],
    out_members: &mut [i32],
) -> usize
    requires k_bound { (d + k ≤ 1024) × (m ≤ 1024 * d) × (9216 ≤ length out_nodes.old) × (8192 ≤ length out_members.old) × AllSmall numbers.now }
    requires all_readable { AllReadable nodes.now members.now k }
    ensures { Puts nodes.now members.now (new_number 0 numbers.now) d m k result out_nodes.old out_members.old out_nodes.new out_members.new × (result ≤ 1024 * (d + k)) }
{
    let mut n = m;
    for j in 0..k {
        n = one_node(nodes, j, members, numbers, d, n, out_nodes, out_members);
    }
    n
}

// Rule 1 on the or, its set the or alone.
pub fn put_first(or_row: usize, out_nodes: &mut [i32], out_members: &mut [i32])
    requires { (or_row < 1024) × (9216 ≤ length out_nodes.old) × (8192 ≤ length out_members.old) }
    ensures { (take 9 out_nodes.new ≡ or_node or_row) × (take 1 out_members.new ≡ pos or_row ∷ []) }
{
    let root = signed::of(or_row);
    let row = [-1, 1, root, -1, -1, -1, 0, 0, 1];
    copy(out_nodes, 0, &row);
    out_members[0] = root;
}
