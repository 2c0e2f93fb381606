// The columns of a row, read once.
ghost use Rattle.std.specs.Prelude.{◌≡◌, ◌<◌, ◌^◌};
ghost use Rattle.stab.specs.Formula.{row_at, formula_rows};
ghost use Rattle.formula.specs.Cells.{row_of};

#[derive(Clone, Copy)]
pub struct Cells {
    pub kind: i32,
    pub a: i32,
    pub b: i32,
    pub c: i32,
}

// Those of row p of a table, 0 past its end. One test is enough for a row that lies within it.
fn in_table(t: &[i32], p: usize) -> Cells
    requires { p < 2 ^ 32 }
    ensures { row_of result ≡ row_at t.now p }
{
    let i = 4 * p;
    if i + 3 < t.len() {
        return Cells {
            kind: t[i],
            a: t[i + 1],
            b: t[i + 2],
            c: t[i + 3],
        };
    }
    Cells {
        kind: signed::at(t, i),
        a: signed::at(t, i + 1),
        b: signed::at(t, i + 2),
        c: signed::at(t, i + 3),
    }
}

// Those of row r, schema rows first.
pub fn of_row(schema: &[i32], s: usize, proof: &[i32], r: usize) -> Cells
    requires { r < 2 ^ 32 }
    ensures { row_of result ≡ formula_rows schema.now s proof.now r }
{
    if r < s {
        in_table(schema, r)
    } else {
        in_table(proof, r - s)
    }
}
