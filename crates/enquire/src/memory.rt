// The waiting row in its memory: whether one waits, its set's length, its seven numbers, its set.
ghost use Rattle.std.specs.Prelude.{◌≡◌, ◌≤◌, length};
ghost use Rattle.growing.specs.Enquiry.{stored, nothing_waits};
ghost use Rattle.growing.specs.Enquiry.{waits as waitsIn};
ghost use Rattle.grow.specs.State.{row_from};

use tidy::node::copy;

// A row waits.
pub fn waits(waiting: &[i32]) -> bool
    ensures { result ≡ waitsIn waiting.now }
{
    if !signed::is_at(waiting, 0, 1) {
        return false;
    }
    if 0 < signed::under_at(waiting, 1) {
        return false;
    }
    signed::natural_at(waiting, 1) < 1025
}

// A row is to wait.
pub fn store(waiting: &mut [i32], row: &[i32], set: &[i32])
    requires { (length waiting.old ≡ 1033) × (length set.now ≤ 1024) }
    ensures { waiting.new ≡ stored (row_from row.now set.now) }
{
    let front = [
        1,
        signed::of(set.len()),
        signed::at(row, 0),
        signed::at(row, 1),
        signed::at(row, 2),
        signed::at(row, 3),
        signed::at(row, 4),
        signed::at(row, 5),
        signed::at(row, 6),
    ];
    copy(waiting, 0, &front);
    copy(waiting, 9, set);
    signed::clear(waiting, 9 + set.len());
}

// No row waits.
pub fn empty(waiting: &mut [i32])
    requires { length waiting.old ≡ 1033 }
    ensures { waiting.new ≡ nothing_waits }
{
    signed::clear(waiting, 0);
}
