// Tables of such rows by their places in ascending order, and the first on the list from a place on.
ghost use Rattle.std.specs.Prelude.{◌≡◌, [], ◌++◌, ◌+◌, ◌*◌, ◌<◌, ◌≤◌, length, get_or, take, drop};
ghost use Rattle.small.specs.Small.{on_list, tables};
ghost use Rattle.small.specs.Fits.{columns, RowsFit};
ghost use Rattle.nextsmall.specs.Places.{as_row, TablePlace, FirstGiven};

use crate::rows::{Columns, candidate, count, place as row_place};
use formula_pass::schema_formulas;
use stab::SchemaHeader;

// How many tables of n rows there are.
pub fn total(n: usize) -> usize
    requires { (1 ≤ n) × (n ≤ 3) }
    ensures { (result ≡ length (tables n)) × (result ≤ 18720) }
{
    if n == 1 {
        return 20;
    }
    if n == 2 {
        return 520;
    }
    18720
}

// The place of the first n rows of a table among all tables of n rows, or their number where it is none of them.
pub fn place(table: &[i32], n: usize) -> usize
    requires { (1 ≤ n) × (n ≤ 3) × (4 * n ≤ length table.now) }
    ensures { TablePlace table.now n result }
{
    let mut i = 0;
    for r in 0..n {
        let k = count(r);
        let d = row_place(table, r);
        if k <= d {
            return total(n);
        }
        i = i * k + d;
    }
    i
}

// A row goes to its place in a lent table.
fn put_row(table: &mut [i32], r: usize, w: Columns)
    requires { (r < 3) × (4 * r + 4 ≤ length table.old) }
    ensures { table.new ≡ take (4 * r) table.old ++ columns (as_row w) ++ drop (4 * r + 4) table.old }
{
    let at = 4 * r;
    let kind = w.kind;
    let a = w.a;
    let b = w.b;
    let c = w.c;
    table[at] = kind;
    table[at + 1] = a;
    table[at + 2] = b;
    table[at + 3] = c;
}

// The table of n rows at place i goes to the front of a lent table.
fn put(n: usize, i: usize, table: &mut [i32])
    requires { (n ≤ 3) × (i < length (tables n)) × (4 * n ≤ length table.old) }
    ensures { table.new ≡ get_or (tables n) i [] ++ drop (4 * n) table.old }
{
    let mut rest = i;
    for r in (0..n).rev() {
        let k = count(r);
        put_row(table, r, candidate(r, rest % k));
        rest /= k;
    }
}

// A table of such rows is on the list: each row is well formed, and the last one outer.
pub fn on_list(table: &[i32], n: usize) -> bool
    requires { (1 ≤ n) × (n ≤ 3) × (4 * n ≤ length table.now) × RowsFit n table.now }
    ensures { result ≡ on_list n table.now }
{
    let mut facts = [0u32; 12];
    let root = signed::of(n - 1);
    let h = SchemaHeader {
        rows: n,
        root,
        least: 0,
    };
    schema_formulas(table, h, &mut facts).is_ok()
}

// The first table from a place on that is on the list goes to the front of a lent table. Whether there is one.
pub fn first(n: usize, from: usize, table: &mut [i32]) -> bool
    requires { (1 ≤ n) × (n ≤ 3) × (4 * n ≤ length table.old) }
    ensures { FirstGiven n from table.new result }
{
    let m = total(n);
    let end = 4 * n;
    for i in from..m {
        put(n, i, table);
        if on_list(&table[..end], n) {
            return true;
        }
    }
    false
}
