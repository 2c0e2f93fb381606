// Where a refusal points: a text, and a line in it.
ghost use Rattle.std.specs.Prelude.{◌≡◌, ◌<◌, ◌^◌};
ghost use Rattle.stab.specs.Answer.{Packs};
ghost use Rattle.stab.specs.LineNumber.{pair_line};
ghost use Rattle.stab.specs.Program.{no_fault, in_first, in_second, row_fault, check_points, model_points, verdict_fault};
ghost use Rattle.stab.specs.Program.{among as amongNumbers};
ghost use Rattle.program.specs.Faults.{place_line, Few, checked_fault, modelled_fault};

use outcome::Outcome;
use stab::{Fault, Refusal, Verdict};

// No line.
fn none() -> Fault
    ensures { result ≡ no_fault }
{
    Fault {
        second: false,
        line: 0,
    }
}

fn in_first(k: usize) -> Fault
    ensures { result ≡ in_first k }
{
    Fault {
        second: false,
        line: k,
    }
}

fn in_second(k: usize) -> Fault
    ensures { result ≡ in_second k }
{
    Fault {
        second: true,
        line: k,
    }
}

// Formula row r, after s schema rows.
fn row_fault(s: usize, r: usize) -> Fault
    requires { r < 2 ^ 32 }
    ensures { result ≡ row_fault s r }
{
    if r < s {
        return in_first(line::schema_row_line(r));
    }
    in_second(line::proof_row_line(s, r))
}

// The line of pair r in the model text.
fn pair_line(r: usize) -> usize
    requires { r < 2 ^ 32 }
    ensures { result ≡ pair_line r }
{
    4 + r
}

// The refusal is one of those from a to b.
fn among(a: u64, b: u64, why: Refusal) -> bool
    ensures { result ≡ amongNumbers a b why }
{
    let n = answer::number(why);
    if n < a {
        return false;
    }
    n <= b
}

// A refusal at place k of a tableau with s schema and p proof rows.
fn check_points(s: usize, p: usize, why: Refusal, k: usize) -> Fault
    requires { (p < 2 ^ 32) × (k < 2 ^ 32) }
    ensures { result ≡ check_points s p why k }
{
    if among(7, 8, why) {
        return row_fault(s, k);
    }
    if among(9, 17, why) {
        return in_second(line::node_line(p, k));
    }
    if among(27, 27, why) {
        return row_fault(s, k);
    }
    none()
}

// A refusal at place k of a model.
fn model_points(why: Refusal, k: usize) -> Fault
    requires { k < 2 ^ 32 }
    ensures { result ≡ model_points why k }
{
    if among(7, 8, why) {
        return in_first(line::schema_row_line(k));
    }
    if among(18, 18, why) {
        return in_second(pair_line(k));
    }
    none()
}

// A place as a line: that of a refusal in reading.
fn place_line(place: Option<usize>) -> usize
    ensures { result ≡ place_line place }
{
    match place {
        None => 0,
        Some(k) => k,
    }
}

// A verdict on a tableau with s schema and p proof rows.
fn check_verdict(s: usize, p: usize, v: Verdict) -> Fault
    requires { (p < 2 ^ 32) × Packs v }
    ensures { result ≡ verdict_fault (check_points s p) v }
{
    match v {
        Ok(_) => none(),
        Err(refused) => match refused.place {
            None => none(),
            Some(k) => check_points(s, p, refused.why, k),
        },
    }
}

// A verdict on a model.
fn model_verdict(v: Verdict) -> Fault
    requires { Packs v }
    ensures { result ≡ verdict_fault model_points v }
{
    match v {
        Ok(_) => none(),
        Err(refused) => match refused.place {
            None => none(),
            Some(k) => model_points(refused.why, k),
        },
    }
}

// What a schema text and a proof text come to.
pub fn checked(o: Outcome) -> Fault
    requires { Few o }
    ensures { result ≡ checked_fault o }
{
    match o {
        Outcome::First(refused) => in_first(place_line(refused.place)),
        Outcome::Second(refused) => in_second(place_line(refused.place)),
        Outcome::Judged {
            verdict,
            schema_rows,
            proof_rows,
        } => check_verdict(schema_rows, proof_rows, verdict),
    }
}

// What a schema text and a model text come to.
pub fn modelled(o: Outcome) -> Fault
    requires { Few o }
    ensures { result ≡ modelled_fault o }
{
    match o {
        Outcome::First(refused) => in_first(place_line(refused.place)),
        Outcome::Second(refused) => in_second(place_line(refused.place)),
        Outcome::Judged {
            verdict,
            schema_rows: _,
            proof_rows: _,
        } => model_verdict(verdict),
    }
}
