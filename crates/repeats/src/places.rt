// Rows of one place, each with the one before it: among them an equal row is looked for.
ghost use Rattle.std.specs.Prelude.{◌≡◌, ◌+◌, ◌<◌, length, get_or, set};
ghost use Rattle.stab.specs.Formula.{formula_rows};
ghost use Rattle.stab.specs.Check.{stands_before};
ghost use Rattle.formula.specs.Cells.{row_of};
ghost use Rattle.repeats.specs.Places.{place_of, Linked};

use crate::row;
use formula::cells::Cells;
use formula::kept::number_at;
use formula::spread::spread;
use signed::rank;

// The place of a row with these columns.
pub fn place(w: Cells) -> usize
    ensures { result ≡ place_of (row_of w) }
{
    spread(rank(w.kind), rank(w.a), rank(w.b), rank(w.c)) / 1048576
}

// A row with the columns of row r, whose place is h, stands before it.
pub fn stands(
    schema: &[i32],
    s: usize,
    proof: &[i32],
    r: usize,
    h: usize,
    next: &[u16],
    heads: &[u16],
) -> bool
    requires r_bound { r < 1024 }
    requires linked { Linked (formula_rows schema.now s proof.now) next.now heads.now r }
    requires h_value { h ≡ place_of (formula_rows schema.now s proof.now r) }
    ensures { result ≡ stands_before (formula_rows schema.now s proof.now) r (formula_rows schema.now s proof.now r) }
{
    let mut rest = number_at(heads, h);
    while 0 < rest {
        let q = rest - 1;
        if row::same(schema, s, proof, q, r) {
            return true;
        }
        rest = number_at(next, q);
    }
    false
}

// Row r is the last of its place.
pub fn keep(r: usize, h: usize, next: &mut [u16], heads: &mut [u16])
    requires { (r < 65535) × (r < length next.old) × (h < length heads.old) }
    ensures next_after { next.new ≡ set next.old r (get_or heads.old h 0) }
    ensures heads_after { heads.new ≡ set heads.old h (r + 1) }
{
    next[r] = heads[h];
    heads[h] = (r + 1) as u16;
}
