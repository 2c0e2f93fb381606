// All small schemata: from a table on the list to the next one.
#![tactic(auto)]

mod list;
mod rows;

ghost use Rattle.std.specs.Prelude.{◌≡◌, [], ◌*◌, ◌≤◌, pos, length, None, Err};
ghost use Rattle.stab.specs.Text.{padded};
ghost use Rattle.small.specs.Small.{next_small, next_small_table};

use small::Next;
use stab::{Refusal, Refused};

// A refusal, which leaves all 0.
fn refuse(why: Refusal, table: &mut [i32]) -> Result<Next, Refused>
    ensures value { result ≡ Err (record { why = why; place = None }) }
    ensures table_after { table.new ≡ padded (pos 0) (length table.old) [] }
{
    signed::clear(table, 0);
    Err(why.whole())
}

// The table after one of 1 to 3 rows.
fn after(table: &[i32], rows: usize, next: &mut [i32]) -> Result<Next, Refused>
    requires { (1 ≤ rows) × (rows ≤ 3) × (4 * rows ≤ length table.now) × (4 * rows ≤ length next.old) }
    ensures value { result ≡ next_small rows table.now (length next.old) }
    ensures next_after { next.new ≡ next_small_table rows table.now (length next.old) }
{
    let i = list::place(table, rows);
    if list::total(rows) <= i {
        return refuse(Refusal::NotListed, next);
    }
    if !list::on_list(table, rows) {
        return refuse(Refusal::NotListed, next);
    }
    if list::first(rows, i + 1, next) {
        signed::clear(next, 4 * rows);
        return Ok(Next::Table);
    }
    signed::clear(next, 0);
    Ok(Next::Last)
}

// The next table on the list of small schemata into a lent table, or that the given one is the last, or a refusal. Tables are tried from
// the given one upward, so that the cost is a step for each row that a row can be and for each table passed over.
pub fn next_small(table: &[i32], rows: usize, next: &mut [i32]) -> Result<Next, Refused>
    ensures answer { result ≡ next_small rows table.now (length next.old) }
    ensures table { next.new ≡ next_small_table rows table.now (length next.old) }
{
    if !signed::holds(table, 4, rows) {
        return refuse(Refusal::TableTooShort, next);
    }
    if !signed::holds(next, 4, rows) {
        return refuse(Refusal::TableTooShort, next);
    }
    if rows == 0 {
        return refuse(Refusal::NotListed, next);
    }
    if 3 < rows {
        return refuse(Refusal::NotListed, next);
    }
    after(table, rows, next)
}
