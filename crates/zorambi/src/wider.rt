// The entry that converts a wide schema: one number back as from a reader, and the plain schema in lent results.
ghost use Rattle.std.specs.Prelude.{◌≡◌, length};
ghost use Rattle.stab.specs.Entry.{schema_packed, schema_results};
ghost use Rattle.stab.specs.Lent.{schema_header};
ghost use Rattle.wide.specs.Convert.{lent_wide, converted, converted_table};

use stab::SchemaHeader;

// The plain rows of a wide schema are put in the table; the results are the plain root, the least value and the number of plain rows.
#[unsafe(no_mangle)]
pub extern "C" fn zorambi_convert(
    wide: &[i32],
    wide_rows: usize,
    root: i32,
    least: i32,
    plain: &mut [i32],
    results: &mut [i32; 3],
) -> u64
    ensures answer { result ≡ schema_packed (converted (lent_wide wide.now (schema_header wide_rows root least) (length plain.old))) }
    ensures results { results.new ≡ schema_results (converted (lent_wide wide.now (schema_header wide_rows root least) (length plain.old))) }
    ensures rows { plain.new ≡ converted_table (lent_wide wide.now (schema_header wide_rows root least) (length plain.old)) }
{
    let h = SchemaHeader {
        rows: wide_rows,
        root,
        least,
    };
    told::schema(convert::convert(wide, h, plain), results)
}
