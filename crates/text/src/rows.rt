// Rows of a text: numbers of a line that go into a lent table.
ghost use Rattle.std.specs.Prelude.{◌≡◌, ◌+◌, ◌≤◌, ◌<◌, ◌^◌, length};
ghost use Rattle.text.specs.Rows.{PartOf, row_found, row_into};

use numerals::Step;

// What reading numbers of a line comes to: one is no number, or the line has ended, or it goes on after as many as were asked for.
// `to` is the place after the last in the table, `next` the place to read on from.
#[derive(Clone, Copy)]
pub enum Part {
    Bad,
    Ended { to: usize, next: usize },
    Open { next: usize },
}

// Numbers of the line at a place go into a lent table from `to` on, w of them at most.
pub fn numbers(text: &[u8], at: usize, table: &mut [i32], to: usize, w: usize) -> Part
    requires { (at ≤ length text.now) × (to + w < 2 ^ 32) }
    ensures { PartOf text.now at table.old to w table.new result × (table.new ≡ row_into text.now at w to table.old) }
{
    let mut i = at;
    for k in to..to + w {
        match numerals::number(text, i, table, k) {
            Step::Bad => return Part::Bad,
            Step::More(next) => i = next,
            Step::Last(next) => return Part::Ended { to: k + 1, next },
        }
    }
    Part::Open { next: i }
}

// The place after a line that is as it has to be.
#[derive(Clone, Copy)]
pub enum Found {
    At(usize),
    Nothing,
}

// A row of w numbers at a place goes into a lent table from `to` on.
pub fn row_at(text: &[u8], at: usize, table: &mut [i32], to: usize, w: usize) -> Found
    requires { (at ≤ length text.now) × (to + w < 2 ^ 32) }
    ensures { (result ≡ row_found text.now at w) × (table.new ≡ row_into text.now at w to table.old) }
{
    match numbers(text, at, table, to, w) {
        Part::Bad => Found::Nothing,
        Part::Ended { to: end, next } => {
            if end == to + w {
                Found::At(next)
            } else {
                Found::Nothing
            }
        }
        Part::Open { next: _ } => Found::Nothing,
    }
}
