// What the next line of a text has to be, and what that line comes to.
ghost use Rattle.std.specs.Prelude.{◌≡◌, true, ◌+◌, ◌*◌, ◌≤◌, ◌<◌, ◌^◌, length};
ghost use Rattle.stab.specs.Text.{text_limit, lacks};
ghost use Rattle.text.specs.Rows.{row_found, row_into};
ghost use Rattle.text.specs.Nodes.{node_found, set_into};
ghost use Rattle.text.specs.Awaiting.{goes_on, Ready};
ghost use Rattle.text.specs.OneLine.{headed, row_by, listed_by, formula_by, node_line_by, nodes_by, Stepped, OnceStepped};

use crate::nodes::NodeFound;
use crate::rows::Found;
use crate::{nodes, rows};
use stab::heading;

// A line that is awaited, with how much was read before it; then what reading came to, or the line where it stopped.
#[derive(Clone, Copy)]
pub enum Awaited {
    Row {
        rows: usize,
    },
    Pair {
        pairs: usize,
    },
    Formula {
        rows: usize,
    },
    Node {
        rows: usize,
        nodes: usize,
        members: usize,
    },
    SchemaHeading,
    SchemaValues,
    RowHeading,
    ModelHeading,
    ModelValue,
    PairHeading,
    ProofHeading,
    Schema {
        rows: usize,
    },
    Model {
        pairs: usize,
    },
    Proof {
        rows: usize,
        nodes: usize,
        members: usize,
    },
    NoHeading {
        line: usize,
    },
    BadLine {
        line: usize,
    },
    TooMany {
        line: usize,
    },
}

// Whether a line is awaited.
pub fn goes_on(p: Awaited) -> bool
    ensures { result ≡ goes_on p }
{
    match p {
        Awaited::Schema { rows: _ } => false,
        Awaited::Model { pairs: _ } => false,
        Awaited::Proof {
            rows: _,
            nodes: _,
            members: _,
        } => false,
        Awaited::NoHeading { line: _ } => false,
        Awaited::BadLine { line: _ } => false,
        Awaited::TooMany { line: _ } => false,
        _ => true,
    }
}

// What a line came to: the place after it, and what is awaited there. Where no more is awaited, the place stays.
#[derive(Clone, Copy)]
pub struct Taken {
    pub next: usize,
    pub got: Awaited,
}

// A heading, line `line` of the text; `after` is awaited after it.
fn heading_line(text: &[u8], at: usize, h: &[u8], line: usize, after: Awaited) -> Taken
    requires { (at ≤ length text.now) × (lacks 10 h.now ≡ true) }
    ensures { result ≡ headed h.now text.now at line after }
{
    let next = numerals::heading(text, at, h);
    if next == 0 {
        return Taken {
            next: at,
            got: Awaited::NoHeading { line },
        };
    }
    Taken { next, got: after }
}

// A row of w numbers, line `line` of the text, after n others of at most `most`; `after` is awaited after it.
fn row(
    text: &[u8],
    at: usize,
    table: &mut [i32],
    w: usize,
    n: usize,
    most: usize,
    line: usize,
    after: Awaited,
) -> Taken
    requires { (at ≤ length text.now) × (w * n + w < 2 ^ 32) }
    ensures { (result ≡ row_by at n most line after (row_found text.now at w)) × (table.new ≡ row_into text.now at w (w * n) table.old) }
{
    match rows::row_at(text, at, table, w * n, w) {
        Found::Nothing => Taken {
            next: at,
            got: Awaited::BadLine { line },
        },
        Found::At(next) => {
            if n == most {
                return Taken {
                    next: at,
                    got: Awaited::TooMany { line },
                };
            }
            Taken { next, got: after }
        }
    }
}

// A row of a schema or model text, after n others, or the text's end.
fn listed(
    text: &[u8],
    at: usize,
    table: &mut [i32],
    w: usize,
    n: usize,
    most: usize,
    after: Awaited,
    ended: Awaited,
) -> Taken
    requires { (at ≤ length text.now) × (w * n + w < 2 ^ 32) × (n < 2 ^ 32) }
    ensures { (result ≡ listed_by text.now at w n most after ended) × (table.new ≡ row_into text.now at w (w * n) table.old) }
{
    if text.len() <= at {
        return Taken {
            next: at,
            got: ended,
        };
    }
    row(text, at, table, w, n, most, 4 + n, after)
}

// A line of a proof text after n formula rows: one more, or the second heading.
fn formula(text: &[u8], at: usize, table: &mut [i32], n: usize) -> Taken
    requires { (at ≤ length text.now) × (n ≤ 1024) }
    ensures { (result ≡ formula_by text.now at n) × (table.new ≡ row_into text.now at 4 (4 * n) table.old) }
{
    if text.len() <= at {
        return Taken {
            next: at,
            got: Awaited::NoHeading { line: 2 + n },
        };
    }
    if numerals::byte_at(text, at) == 117 {
        return heading_line(
            text,
            at,
            &heading::NODES,
            2 + n,
            Awaited::Node {
                rows: n,
                nodes: 0,
                members: 0,
            },
        );
    }
    row(
        text,
        at,
        table,
        4,
        n,
        1024,
        2 + n,
        Awaited::Formula { rows: n + 1 },
    )
}

// A node row of a proof text, after n formula rows and j nodes with `start` members between them; or the text's end.
fn node(
    text: &[u8],
    at: usize,
    nodes: &mut [i32],
    members: &mut [i32],
    n: usize,
    j: usize,
    start: usize,
) -> Taken
    requires { (at ≤ length text.now) × (length text.now ≤ text_limit) × (n ≤ 1024) × (j ≤ 1024) × (start ≤ 8192) }
    ensures { (result ≡ node_line_by text.now at n j start) × (nodes.new ≡ nodes_by text.now at j start nodes.old (node_found text.now at start)) × (members.new ≡ set_into text.now at start members.old) }
{
    if text.len() <= at {
        return Taken {
            next: at,
            got: Awaited::Proof {
                rows: n,
                nodes: j,
                members: start,
            },
        };
    }
    let k = 3 + n + j;
    match nodes::node_at(text, at, nodes, 9 * j, members, start) {
        NodeFound::Nothing => Taken {
            next: at,
            got: Awaited::BadLine { line: k },
        },
        NodeFound::At { next, last } => {
            if j == 1024 {
                return Taken {
                    next: at,
                    got: Awaited::TooMany { line: k },
                };
            }
            if 8192 < last {
                return Taken {
                    next: at,
                    got: Awaited::TooMany { line: k },
                };
            }
            nodes::put_set(nodes, 9 * j + 7, start, last);
            Taken {
                next,
                got: Awaited::Node {
                    rows: n,
                    nodes: j + 1,
                    members: last,
                },
            }
        }
    }
}

// A line that stands once in its text; the numbers of a line of values go to the front of `store`.
fn once(text: &[u8], at: usize, p: Awaited, store: &mut [i32]) -> Taken
    requires { at ≤ length text.now }
    ensures { OnceStepped text.now at p store.old store.new result }
{
    match p {
        Awaited::SchemaHeading => {
            heading_line(text, at, &heading::SCHEMA, 1, Awaited::SchemaValues)
        }
        Awaited::SchemaValues => row(text, at, store, 2, 0, 1, 2, Awaited::RowHeading),
        Awaited::RowHeading => heading_line(text, at, &heading::ROWS, 3, Awaited::Row { rows: 0 }),
        Awaited::ModelHeading => heading_line(text, at, &heading::MODEL, 1, Awaited::ModelValue),
        Awaited::ModelValue => row(text, at, store, 1, 0, 1, 2, Awaited::PairHeading),
        Awaited::PairHeading => {
            heading_line(text, at, &heading::PAIRS, 3, Awaited::Pair { pairs: 0 })
        }
        Awaited::ProofHeading => {
            heading_line(text, at, &heading::ROWS, 1, Awaited::Formula { rows: 0 })
        }
        _ => Taken { next: at, got: p },
    }
}

// The line at a place, which has to be as p says, is read into the lent tables; a line of values goes where a proof's nodes go.
pub fn take(
    text: &[u8],
    at: usize,
    p: Awaited,
    table: &mut [i32],
    nodes: &mut [i32],
    members: &mut [i32],
) -> Taken
    requires { Ready text.now at p table.old nodes.old members.old }
    ensures { Stepped text.now at p table.old nodes.old members.old result table.new nodes.new members.new }
{
    match p {
        Awaited::Row { rows } => listed(
            text,
            at,
            table,
            4,
            rows,
            1024,
            Awaited::Row { rows: rows + 1 },
            Awaited::Schema { rows },
        ),
        Awaited::Pair { pairs } => listed(
            text,
            at,
            table,
            2,
            pairs,
            4096,
            Awaited::Pair { pairs: pairs + 1 },
            Awaited::Model { pairs },
        ),
        Awaited::Formula { rows } => formula(text, at, table, rows),
        Awaited::Node {
            rows,
            nodes: j,
            members: k,
        } => node(text, at, nodes, members, rows, j, k),
        _ => once(text, at, p, nodes),
    }
}
