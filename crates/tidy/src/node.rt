// Nodes with their fields under new numbers.
ghost use Rattle.std.specs.Prelude.{◌≡◌, ◌+◌, ◌*◌, ◌<◌, ◌≤◌, ◌^◌, length};
ghost use Rattle.std.proofs.lemmas.List.Edits.{sets};
ghost use Rattle.stab.specs.Node.{node_at};
ghost use Rattle.branch.specs.NodeColumn.{node_column};
ghost use Rattle.tidied.specs.Tidied.{through, new_number, tidy_node};
ghost use Rattle.folds.specs.Folds.{AllSmall};

use branch::node::{BY, ON, OTHER, RULE, TO, UP, WITH, number_of};
use folds::number::through;

// Numbers are stored one after another from a place on. Not by the library's copy, which would have the archive for C need memmove.
pub fn copy(table: &mut [i32], at: usize, row: &[i32])
    requires { at + length row.now ≤ length table.old }
    ensures { table.new ≡ sets table.old at row.now }
{
    for k in 0..row.len() {
        table[at + k] = row[k];
    }
}

// A field of node j that names a row, put through.
pub fn field(nodes: &[i32], j: usize, k: usize, numbers: &[u32], s: usize) -> i32
    requires { (j < 2 ^ 32) × (k < 9) × AllSmall numbers.now }
    ensures { result ≡ through (new_number s numbers.now) (node_column (node_at nodes.now j) k) }
{
    through(numbers, s, number_of(nodes, j, k))
}

// Node j goes to its place in a table, with its set's new start and size.
pub fn put(
    nodes: &[i32],
    j: usize,
    numbers: &[u32],
    s: usize,
    start: usize,
    size: usize,
    table: &mut [i32],
)
    requires { (j < 1024) × (9 * j + 9 ≤ length table.old) × (start ≤ 8192) × (size ≤ 8192) × AllSmall numbers.now }
    ensures { table.new ≡ sets table.old (9 * j) (tidy_node (new_number s numbers.now) (node_at nodes.now j) start size) }
{
    let row = [
        number_of(nodes, j, UP),
        number_of(nodes, j, RULE),
        field(nodes, j, ON, numbers, s),
        field(nodes, j, WITH, numbers, s),
        field(nodes, j, OTHER, numbers, s),
        number_of(nodes, j, TO),
        number_of(nodes, j, BY),
        signed::of(start),
        signed::of(size),
    ];
    copy(table, 9 * j, &row);
}
