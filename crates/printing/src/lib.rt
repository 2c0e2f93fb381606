// A verdict as it is printed: a heading, and the paper's four numbers.
#![tactic(auto)]

ghost use Rattle.std.specs.Prelude.{◌≡◌, true, ◌≤◌, length};
ghost use Rattle.stab.specs.Basic.{all_of};
ghost use Rattle.stab.specs.Text.{five_digits, padded};
ghost use Rattle.stab.specs.Answer.{place_code, place_number, verdict_numbers, Packs};
ghost use Rattle.stab.specs.Program.{printed};
ghost use Rattle.printing.specs.Printing.{number_row, printed_row};

use stab::{Counts, Verdict};

const HEADING: [u8; 24] = *b"answer place nodes links";

// The number of a place.
fn place_number(place: Option<usize>) -> i32
    requires { place_code place ≤ 99999 }
    ensures { result ≡ place_number place }
{
    match place {
        None => -1,
        Some(k) => signed::of(k),
    }
}

// The four numbers.
fn numbers(v: Verdict) -> [i32; 4]
    requires { Packs v }
    ensures { result ≡ number_row (verdict_numbers v) }
{
    match v {
        Ok(Counts { nodes, links }) => [0, 0, signed::of(nodes), signed::of(links)],
        Err(refused) => {
            [
                signed::of(answer::number(refused.why) as usize),
                place_number(refused.place),
                0,
                0,
            ]
        }
    }
}

// The heading's line and a row's, with 0 past them.
fn put(row: &[i32], out: &mut [u8]) -> usize
    requires { (1 ≤ length row.now) × (all_of five_digits row.now ≡ true) × (length (printed_row row.now) ≤ length out.old) }
    ensures { (result ≡ length (printed_row row.now)) × (out.new ≡ padded 0 (length out.old) (printed_row row.now)) }
{
    output::clear(out);
    let at = output::put_heading(out, &HEADING);
    at + output::put_row(&mut out[at..], row)
}

// A verdict is printed into 64 bytes, which is always room enough; 0 past the last of them.
pub fn print(v: Verdict, out: &mut [u8; 64]) -> usize
    requires { Packs v }
    ensures { (result ≡ length (printed (verdict_numbers v))) × (out.new ≡ padded 0 64 (printed (verdict_numbers v))) }
{
    let row = numbers(v);
    put(&row, out)
}
