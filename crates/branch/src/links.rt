// The number of links.
ghost use Rattle.std.specs.Prelude.{◌≡◌, ◌≤◌};
ghost use Rattle.stab.specs.Basic.{count};
ghost use Rattle.stab.specs.Check.{is_link};

use crate::node;

// How many of k nodes are rule 8 rows.
pub fn links(nodes: &[i32], k: usize) -> usize
    requires { k ≤ 1024 }
    ensures { result ≡ count (is_link nodes.now) k }
{
    (0..k)
        .filter(|j| node::is_of(nodes, *j, node::RULE, 8))
        .count()
}
