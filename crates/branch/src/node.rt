// The nine numbers of a node.
ghost use Rattle.std.specs.Prelude.{◌≡◌, ◌<◌, ◌^◌, neg_ℤ};
ghost use Rattle.stab.specs.Basic.{eq_z, nat, below};
ghost use Rattle.stab.specs.Node.{node_at};
ghost use Rattle.branch.specs.NodeColumn.{node_column};

// The numbers by their place.
pub const UP: usize = 0;

pub const RULE: usize = 1;

pub const ON: usize = 2;

pub const WITH: usize = 3;

pub const OTHER: usize = 4;

pub const TO: usize = 5;

pub const BY: usize = 6;

pub const START: usize = 7;

pub const SIZE: usize = 8;

// Number k of node j.
pub fn number_of(nodes: &[i32], j: usize, k: usize) -> i32
    requires { (j < 2 ^ 32) × (k < 9) }
    ensures { result ≡ node_column (node_at nodes.now j) k }
{
    signed::at(nodes, 9 * j + k)
}

// Its natural part, and how large it can be.
pub fn natural_of(nodes: &[i32], j: usize, k: usize) -> usize
    requires { (j < 2 ^ 32) × (k < 9) }
    ensures { (result ≡ nat (node_column (node_at nodes.now j) k)) × (result < 2 ^ 32) }
{
    signed::natural_at(nodes, 9 * j + k)
}

// How far below 0 it lies.
pub fn under_of(nodes: &[i32], j: usize, k: usize) -> usize
    requires { (j < 2 ^ 32) × (k < 9) }
    ensures { result ≡ nat (neg_ℤ (node_column (node_at nodes.now j) k)) }
{
    signed::under_at(nodes, 9 * j + k)
}

// It is z.
pub fn is_of(nodes: &[i32], j: usize, k: usize, z: i32) -> bool
    requires { (j < 2 ^ 32) × (k < 9) }
    ensures { result ≡ eq_z (node_column (node_at nodes.now j) k) z }
{
    signed::is_at(nodes, 9 * j + k, z)
}

// It is one of 0 .. n - 1.
pub fn is_below(nodes: &[i32], j: usize, k: usize, n: usize) -> bool
    requires { (j < 2 ^ 32) × (k < 9) }
    ensures { result ≡ below n (node_column (node_at nodes.now j) k) }
{
    if 0 < under_of(nodes, j, k) {
        return false;
    }
    natural_of(nodes, j, k) < n
}
