// Node rows of a proof text: seven numbers, which go into the table of nodes, and a set, which goes to the members.
ghost use Rattle.std.specs.Prelude.{◌≡◌, ◌+◌, ◌-◌, ◌≤◌, length, drop, set, pos};
ghost use Rattle.std.proofs.lemmas.List.Edits.{sets};
ghost use Rattle.stab.specs.Text.{text_limit};
ghost use Rattle.numerals.specs.Here.{first_numbers};
ghost use Rattle.text.specs.Rows.{row_into};
ghost use Rattle.text.specs.Nodes.{SetOf, node_found, set_into};

use crate::rows;
use crate::rows::Part;

// The place after a row's line, and the place after its members.
#[derive(Clone, Copy)]
pub enum NodeFound {
    At { next: usize, last: usize },
    Nothing,
}

// The rest of a line, numbers that go to the members from `start` on.
fn set_at(text: &[u8], at: usize, members: &mut [i32], start: usize) -> NodeFound
    requires { (at ≤ length text.now) × (length text.now ≤ text_limit) × (start ≤ 8192) }
    ensures { SetOf text.now at members.old start members.new result × (members.new ≡ sets members.old start (first_numbers (drop at text.now))) }
{
    match rows::numbers(text, at, members, start, text.len() + 1) {
        Part::Bad => NodeFound::Nothing,
        Part::Ended { to, next } => NodeFound::At { next, last: to },
        Part::Open { next: _ } => NodeFound::Nothing,
    }
}

// A node row at a place: seven numbers go to the nodes from `to` on, the others to the members from `start` on.
pub fn node_at(
    text: &[u8],
    at: usize,
    nodes: &mut [i32],
    to: usize,
    members: &mut [i32],
    start: usize,
) -> NodeFound
    requires { (at ≤ length text.now) × (length text.now ≤ text_limit) × (to ≤ 9216) × (start ≤ 8192) }
    ensures { (result ≡ node_found text.now at start) × (nodes.new ≡ row_into text.now at 7 to nodes.old) × (members.new ≡ set_into text.now at start members.old) }
{
    match rows::numbers(text, at, nodes, to, 7) {
        Part::Bad => NodeFound::Nothing,
        Part::Ended { to: end, next } => {
            if end == to + 7 {
                NodeFound::At { next, last: start }
            } else {
                NodeFound::Nothing
            }
        }
        Part::Open { next } => set_at(text, next, members, start),
    }
}

// A node row's last two numbers: where its set starts among the members, and how long it is.
pub fn put_set(nodes: &mut [i32], k: usize, start: usize, last: usize)
    requires { (k ≤ 9216) × (start ≤ last) × (last ≤ 8192) }
    ensures { nodes.new ≡ set (set nodes.old k (pos start)) (k + 1) (pos (last - start)) }
{
    numerals::put_natural(nodes, k, start);
    numerals::put_natural(nodes, k + 1, last - start);
}
