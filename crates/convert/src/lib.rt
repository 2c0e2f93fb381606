// 02, No. 1: the converter of wide schemata.
#![tactic(auto)]

mod rows;

ghost use Rattle.std.specs.Prelude.{◌≡◌, [], ◌*◌, ◌≤◌, pos, length, Err};
ghost use Rattle.stab.specs.Check.{schema_refusal};
ghost use Rattle.stab.specs.Lent.{lent_schema, schema_header};
ghost use Rattle.stab.specs.Text.{padded};
ghost use Rattle.stab.specs.Finding.{no_refusal};
ghost use Rattle.wide.specs.Convert.{lent_wide, converted, converted_table};
ghost use Rattle.convert.specs.Emission.{input_refusal};

use formula_pass::schema_formulas;
use stab::{Refusal, Refused, SchemaHeader};

// Refusals 2, 5, 6, 7, 8 and 6 again, where the result table has room for so many numbers.
fn wide_pass(wide: &[i32], h: SchemaHeader, room: usize) -> Result<(), Refused>
    ensures { result ≡ input_refusal (lent_wide wide.now h room) }
{
    if room < 4096 {
        return Err(Refusal::TableTooShort.at(0));
    }
    if !signed::holds(wide, 4, h.rows) {
        return Err(Refusal::TableTooShort.whole());
    }
    if 1024 < h.rows {
        return Err(Refusal::TooMany.whole());
    }
    let mut facts = [0u32; 4096];
    widerows::wide_rows(wide, h, &mut facts)
}

// What the pass over formula rows finds of the plain rows.
fn plain_pass(plain: &[i32], rows: usize, root: i32, least: i32) -> Result<(), Refused>
    requires { (rows ≤ 1024) × (4 * rows ≤ length plain.now) }
    ensures { result ≡ schema_refusal (lent_schema plain.now (schema_header rows root least)) }
{
    let mut facts = [0u32; 4096];
    schema_formulas(plain, SchemaHeader { rows, root, least }, &mut facts)
}

// A refusal; the table is 0.
fn turn_away(plain: &mut [i32], refused: Refused) -> Result<SchemaHeader, Refused>
    ensures { (result ≡ Err refused) × (plain.new ≡ padded (pos 0) (length plain.old) []) }
{
    signed::clear(plain, 0);
    Err(refused)
}

// The plain rows of wide rows that passed: 23, or the table filled with them.
fn plain_rows(wide: &[i32], h: SchemaHeader, plain: &mut [i32]) -> Result<SchemaHeader, Refused>
    requires { input_refusal (lent_wide wide.now h (length plain.old)) ≡ no_refusal }
    ensures value { result ≡ converted (lent_wide wide.now h (length plain.old)) }
    ensures plain_after { plain.new ≡ converted_table (lent_wide wide.now h (length plain.old)) }
{
    let count = rows::count(wide, h.rows);
    if !rows::few(count) {
        return turn_away(plain, Refusal::Plain.whole());
    }
    let top = rows::filled(wide, h.rows, signed::natural(h.root), count, plain);
    let Ok(()) = plain_pass(plain, count, top, h.least) else {
        return turn_away(plain, Refusal::Plain.whole());
    };
    Ok(SchemaHeader {
        root: top,
        least: h.least,
        rows: count,
    })
}

// The converter's answer: root, least value and the number of plain rows, which fill the table, or a refusal.
pub fn convert(wide: &[i32], h: SchemaHeader, plain: &mut [i32]) -> Result<SchemaHeader, Refused>
    ensures answer { result ≡ converted (lent_wide wide.now h (length plain.old)) }
    ensures table { plain.new ≡ converted_table (lent_wide wide.now h (length plain.old)) }
{
    match wide_pass(wide, h, plain.len()) {
        Err(refused) => turn_away(plain, refused),
        Ok(()) => plain_rows(wide, h, plain),
    }
}
