// Whether a child is missing, among rows that have passed.
ghost use Rattle.std.specs.Prelude.{◌≡◌, true, ℕ, ◌+◌, ◌*◌, ◌<◌, ◌≤◌, get_or};
ghost use Rattle.stab.specs.Basic.{below};
ghost use Rattle.stab.specs.Node.{node_at, child_count_of};
ghost use Rattle.growing.specs.Complete.{children_all};
ghost use Rattle.growing.specs.Complete.{complete as completeOf};
ghost use Rattle.grow.specs.State.{nodes_only, Countable};

use stab::Header;
use steps::steps::children_fit;

// Each of k nodes has the number of children that its rule has.
fn all_fit(nodes: &[i32], work: &[u32], k: usize) -> bool
    requires k_bound { (k ≤ 1024) × ((j : ℕ) → j < k → below 9 (node_at nodes.now j).rule ≡ true) }
    requires by_index { (j : ℕ) → j < k → get_or work.now (4 * j + 3) 0 ≡ child_count_of nodes.now k j }
    ensures { result ≡ children_all (nodes_only nodes.now k) k }
{
    (0..k).all(|j| children_fit(true, nodes, work, j))
}

// There is a node, and no child is missing. The cost is one step for each node.
pub fn complete(nodes: &[i32], h: Header) -> bool
    requires { Countable nodes.now h }
    ensures { result ≡ completeOf (nodes_only nodes.now h.node_rows) }
{
    if h.node_rows == 0 {
        return false;
    }
    let mut work = [0u32; 4096];
    bounds::work_out(nodes, h.node_rows, h.least, &mut work);
    all_fit(nodes, &work, h.node_rows)
}
