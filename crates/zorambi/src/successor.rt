// The entry that lists small schemata: from one table the next, one number back as from the check.
ghost use Rattle.std.specs.Prelude.{◌≡◌, length};
ghost use Rattle.small.specs.Small.{next_small, next_packed, next_small_table};

// The table after the given one is put in the result table. In the number the count of nodes is 1 where a table is given, and 0 for last.
#[unsafe(no_mangle)]
pub extern "C" fn zorambi_next_small(table: &[i32], rows: usize, next: &mut [i32]) -> u64
    ensures answer { result ≡ next_packed (next_small rows table.now (length next.old)) }
    ensures table { next.new ≡ next_small_table rows table.now (length next.old) }
{
    told::next_table(nextsmall::next_small(table, rows, next))
}
