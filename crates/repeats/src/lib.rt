// Proof rows written twice, found by links between rows that may be equal.
#![tactic(auto)]

pub mod places;
pub mod row;

ghost use Rattle.std.specs.Prelude.{◌≡◌, ◌+◌, ◌<◌, ◌≤◌, length, get_or, set};
ghost use Rattle.stab.specs.Formula.{formula_rows};
ghost use Rattle.repeats.specs.Places.{place_of, Linked};
ghost use Rattle.repeats.specs.Repeated.{repeated};

use formula::cells;

// Row r, whose place is h, is no row before `from` and repeats an earlier one.
fn again(
    schema: &[i32],
    s: usize,
    proof: &[i32],
    from: usize,
    r: usize,
    h: usize,
    next: &[u16],
    heads: &[u16],
) -> bool
    requires r_bound { r < 1024 }
    requires linked { Linked (formula_rows schema.now s proof.now) next.now heads.now r }
    requires h_value { h ≡ place_of (formula_rows schema.now s proof.now r) }
    ensures { result ≡ repeated (formula_rows schema.now s proof.now) from r }
{
    if r < from {
        return false;
    }
    places::stands(schema, s, proof, r, h, next, heads)
}

// One row more: it is no row before `from` and repeats an earlier one. It is then the last of its place.
pub fn repeats(
    schema: &[i32],
    s: usize,
    proof: &[i32],
    from: usize,
    r: usize,
    next: &mut [u16],
    heads: &mut [u16],
) -> bool
    requires r_bound { (r < 1024) × (r < length next.old) × (1024 ≤ length heads.old) }
    requires linked { Linked (formula_rows schema.now s proof.now) next.old heads.old r }
    ensures value { result ≡ repeated (formula_rows schema.now s proof.now) from r }
    ensures linked_2 { Linked (formula_rows schema.now s proof.now) next.new heads.new (r + 1) }
    ensures next_after { next.new ≡ set next.old r (get_or heads.old (place_of (formula_rows schema.now s proof.now r)) 0) }
    ensures heads_after { heads.new ≡ set heads.old (place_of (formula_rows schema.now s proof.now r)) (r + 1) }
{
    let h = places::place(cells::of_row(schema, s, proof, r));
    let found = again(schema, s, proof, from, r, h, next, heads);
    places::keep(r, h, next, heads);
    found
}
