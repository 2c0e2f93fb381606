// A tableau that grows row by row in lent tables. Each call puts the rows held under the check first.
#![tactic(auto)]

mod children;
mod row;

ghost use Rattle.std.specs.Prelude.{◌≡◌, ◌+◌, ◌*◌, ◌≤◌, suc, leb, ltb, pos, length, take, false};
ghost use Rattle.stab.specs.Basic.{◌and◌};
ghost use Rattle.stab.specs.Lent.{lent};
ghost use Rattle.stab.specs.Text.{padded};
ghost use Rattle.growing.specs.Growing.{turned_away, tried, begun, begin_answer, answered, after, take_back};
ghost use Rattle.growing.specs.Growing.{add as add_row};
ghost use Rattle.growing.specs.Lent.{holding_in, header_after, reply_of};
ghost use Rattle.grow.specs.State.{row_from, shown, Countable};
ghost use Rattle.grow.specs.Moved.{placed};

use branch::links::links;
use branch::node;
use growing::{Growth, Reply};
use stab::{Counts, Header, Refusal, Refused, Verdict};
use tableau::check;

// 24: there is room for one more row, with a set of `size`, in tables of these lengths.
fn room(nodes: usize, n: usize, members: usize, m: usize, size: usize) -> bool
    ensures { result ≡ (ltb n 1024 and leb (m + size) 8192 and leb (9 * suc n) nodes and leb (m + size) members) }
{
    if 1024 <= n {
        return false;
    }
    if 8192 < m {
        return false;
    }
    if 8192 - m < size {
        return false;
    }
    if nodes < 9 * n + 9 {
        return false;
    }
    m + size <= members
}

// A child beyond is found at the parent, and said at the added row n.
fn said_of(refused: Refused, n: usize) -> Refused
    ensures { result ≡ record { why = refused.why; place = placed n refused.why refused.place } }
{
    if answer::number(refused.why) == 17 {
        refused.why.at(n)
    } else {
        refused
    }
}

// The same formula rows, with n rows and m members held.
fn holding(mut h: Header, n: usize, m: usize) -> Header
    ensures { result ≡ holding_in h n m }
{
    h.node_rows = n;
    h.member_count = m;
    h
}

// An answer, with what is held.
fn reply(h: Header, answer: Growth) -> Reply
    ensures { result ≡ reply_of h answer }
{
    Reply {
        answer,
        node_rows: h.node_rows,
        member_count: h.member_count,
    }
}

// A verdict that leaves rows that are not closed.
fn open(verdict: Verdict) -> Growth
    ensures { result ≡ record { verdict = verdict; closed = false } }
{
    Growth {
        verdict,
        closed: false,
    }
}

// The rows held are refused, or else the call; they stay as they stood. Rows that are refused are not closed.
pub fn turn_away(
    schema: &[i32],
    proof: &[i32],
    nodes: &[i32],
    members: &[i32],
    h: Header,
    refused: Refused,
) -> Reply
    ensures { result ≡ reply_of h (turned_away (lent schema.now proof.now nodes.now members.now h) refused.why refused.place) }
{
    match check::held(schema, proof, nodes, members, h) {
        Err(earlier) => reply(h, open(Err(earlier))),
        Ok(()) => {
            let closed = children::complete(nodes, h);
            reply(
                h,
                Growth {
                    verdict: Err(refused),
                    closed,
                },
            )
        }
    }
}

// What is shown of rows that have passed.
fn show(nodes: &[i32], h: Header) -> Growth
    requires { Countable nodes.now h }
    ensures { result ≡ shown nodes.now h.node_rows }
{
    let counts = Counts {
        nodes: h.node_rows,
        links: links(nodes, h.node_rows),
    };
    Growth {
        verdict: Ok(counts),
        closed: children::complete(nodes, h),
    }
}

// The rows and members that h counts are held, and shown.
fn settle(nodes: &mut [i32], members: &mut [i32], h: Header) -> Reply
    requires { (9 * h.node_rows ≤ length nodes.old) × (h.member_count ≤ length members.old) × Countable (padded (pos 0) (length nodes.old) (take (9 * h.node_rows) nodes.old)) h }
    ensures value { result ≡ reply_of h (shown nodes.new h.node_rows) }
    ensures nodes_after { nodes.new ≡ padded (pos 0) (length nodes.old) (take (9 * h.node_rows) nodes.old) }
    ensures members_after { members.new ≡ padded (pos 0) (length members.old) (take h.member_count members.old) }
{
    row::hold(nodes, h.node_rows, members, h.member_count);
    reply(h, show(nodes, h))
}

// Formula rows are given: no node is held then, and the tables are 0.
pub fn begin(
    schema: &[i32],
    proof: &[i32],
    nodes: &mut [i32],
    members: &mut [i32],
    h: Header,
) -> Reply
    ensures answer { result.answer ≡ begin_answer (lent schema.now proof.now nodes.old members.old h) }
    ensures left { lent schema.now proof.now nodes.new members.new (header_after h result) ≡ begun (lent schema.now proof.now nodes.old members.old h) }
{
    row::hold(nodes, 0, members, 0);
    let none = holding(h, 0, 0);
    match check::held(schema, proof, nodes, members, none) {
        Err(refused) => reply(none, open(Err(refused))),
        Ok(()) => reply(none, open(Ok(Counts { nodes: 0, links: 0 }))),
    }
}

// A node row is tried at the end, and kept there or not. It is laid behind the rows held and checked with them, so that an accepted call
// costs one check of the rows held; a refused one takes it out again and puts them under the check alone.
pub fn try_row(
    keep: bool,
    schema: &[i32],
    proof: &[i32],
    nodes: &mut [i32],
    members: &mut [i32],
    h: Header,
    row: &[i32],
    set: &[i32],
) -> Reply
    ensures answer { result.answer ≡ answered (lent schema.now proof.now nodes.old members.old h) (add_row (row_from row.now set.now)) }
    ensures left { lent schema.now proof.now nodes.new members.new (header_after h result) ≡ tried keep (lent schema.now proof.now nodes.old members.old h) (row_from row.now set.now) }
{
    let n = h.node_rows;
    let m = h.member_count;
    if !room(nodes.len(), n, members.len(), m, set.len()) {
        return turn_away(schema, proof, nodes, members, h, Refusal::Room.whole());
    }
    let mut saved_node = [0i32; 9];
    let mut saved_set = [0i32; 8192];
    row::lay(
        nodes,
        n,
        members,
        m,
        row,
        set,
        &mut saved_node,
        &mut saved_set,
    );
    let more = holding(h, n + 1, m + set.len());
    match check::held(schema, proof, nodes, members, more) {
        Ok(()) => {
            if keep {
                return settle(nodes, members, more);
            }
            let answer = show(nodes, more);
            let size = set.len();
            row::put_back(nodes, n, members, m, size, &saved_node, &saved_set);
            reply(h, answer)
        }
        Err(refused) => {
            row::put_back(nodes, n, members, m, set.len(), &saved_node, &saved_set);
            turn_away(schema, proof, nodes, members, h, said_of(refused, n))
        }
    }
}

// A node row is added at the end.
pub fn add(
    schema: &[i32],
    proof: &[i32],
    nodes: &mut [i32],
    members: &mut [i32],
    h: Header,
    row: &[i32],
    set: &[i32],
) -> Reply
    ensures answer { result.answer ≡ answered (lent schema.now proof.now nodes.old members.old h) (add_row (row_from row.now set.now)) }
    ensures left { lent schema.now proof.now nodes.new members.new (header_after h result) ≡ after (lent schema.now proof.now nodes.old members.old h) (add_row (row_from row.now set.now)) }
{
    try_row(true, schema, proof, nodes, members, h, row, set)
}

// The last row is taken back. Its set stands at the end of the members.
pub fn take_back(
    schema: &[i32],
    proof: &[i32],
    nodes: &mut [i32],
    members: &mut [i32],
    h: Header,
) -> Reply
    ensures answer { result.answer ≡ answered (lent schema.now proof.now nodes.old members.old h) take_back }
    ensures left { lent schema.now proof.now nodes.new members.new (header_after h result) ≡ after (lent schema.now proof.now nodes.old members.old h) take_back }
{
    let n = h.node_rows;
    if n == 0 {
        return turn_away(schema, proof, nodes, members, h, Refusal::NoRow.whole());
    }
    match check::held(schema, proof, nodes, members, h) {
        Err(refused) => reply(h, open(Err(refused))),
        Ok(()) => {
            let start = node::natural_of(nodes, n - 1, node::START);
            settle(nodes, members, holding(h, n - 1, start))
        }
    }
}
