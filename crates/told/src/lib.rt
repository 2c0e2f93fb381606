// What the entries tell: the answer of a call as the one number, and the numbers that go with it in lent results, all 0 after a refusal.
#![tactic(auto)]

ghost use Rattle.std.specs.Prelude.{◌≡◌, [], ◌∷◌, pos, ◌≤◌, ◌<◌, if◌then◌else◌};
ghost use Rattle.stab.specs.Answer.{Packs};
ghost use Rattle.stab.specs.Entry.{schema_packed, schema_results, proof_packed, proof_results, model_packed, model_results, written_packed, SchemaFits, ProofFits, ModelFits, WrittenFits, fault_number, texts_packed};
ghost use Rattle.found.specs.Find.{found_numbers, found_packed, found_results, found_verdict};
ghost use Rattle.small.specs.Small.{next_packed, next_verdict};
ghost use Rattle.joint.specs.Joint.{joined_packed, joined_results, JoinedFits};
ghost use Rattle.growing.specs.Growing.{growth_packed, shown_number};
ghost use Rattle.grow.specs.Packed.{as_verdict as growthVerdict};

use growing::Growth;
use line::Span;
use small::Next;
use stab::{Counts, Fault, Header, ModelHeader, ProofCounts, Refused, SchemaHeader, Verdict};

// What was written: the bytes stand where a check's counts do.
pub fn written(w: Result<usize, Refused>) -> u64
    requires { WrittenFits w }
    ensures { result ≡ written_packed w }
{
    match w {
        Ok(bytes) => 67108864 + bytes as u64,
        Err(refused) => answer::pack(Err(refused)),
    }
}

// A schema: its root, its least value and the number of its rows.
pub fn schema(read: Result<SchemaHeader, Refused>, results: &mut [i32; 3]) -> u64
    requires { SchemaFits read }
    ensures value { result ≡ schema_packed read }
    ensures results_after { results.new ≡ schema_results read }
{
    match read {
        Ok(h) => {
            *results = [h.root, h.least, signed::of(h.rows)];
            answer::pack(Ok(Counts { nodes: 0, links: 0 }))
        }
        Err(refused) => {
            *results = [0, 0, 0];
            answer::pack(Err(refused))
        }
    }
}

// A proof: the numbers of its rows, nodes and members.
pub fn proof(read: Result<ProofCounts, Refused>, results: &mut [i32; 3]) -> u64
    requires { ProofFits read }
    ensures value { result ≡ proof_packed read }
    ensures results_after { results.new ≡ proof_results read }
{
    match read {
        Ok(counts) => {
            *results = [
                signed::of(counts.rows),
                signed::of(counts.nodes),
                signed::of(counts.members),
            ];
            answer::pack(Ok(Counts { nodes: 0, links: 0 }))
        }
        Err(refused) => {
            *results = [0, 0, 0];
            answer::pack(Err(refused))
        }
    }
}

// A model: its n and the number of its pairs.
pub fn model(read: Result<ModelHeader, Refused>, results: &mut [i32; 2]) -> u64
    requires { ModelFits read }
    ensures value { result ≡ model_packed read }
    ensures results_after { results.new ≡ model_results read }
{
    match read {
        Ok(h) => {
            *results = [h.n, signed::of(h.pairs)];
            answer::pack(Ok(Counts { nodes: 0, links: 0 }))
        }
        Err(refused) => {
            *results = [0, 0];
            answer::pack(Err(refused))
        }
    }
}

// The first model, or none: the count of nodes is 1 where a model is given, and 0 for none.
pub fn first_model(first: Result<Option<ModelHeader>, Refused>, results: &mut [i32; 2]) -> u64
    requires { Packs (found_verdict first) × ((found_numbers first).pairs ≤ 16) }
    ensures value { result ≡ found_packed first }
    ensures results_after { results.new ≡ found_results first }
{
    match first {
        Ok(Some(model)) => {
            *results = [model.n, signed::of(model.pairs)];
            answer::pack(Ok(Counts { nodes: 1, links: 0 }))
        }
        Ok(None) => {
            *results = [0, 0];
            answer::pack(Ok(Counts { nodes: 0, links: 0 }))
        }
        Err(refused) => {
            *results = [0, 0];
            answer::pack(Err(refused))
        }
    }
}

// The next table, or the last: the count of nodes is 1 where a table is given, and 0 for last.
pub fn next_table(next: Result<Next, Refused>) -> u64
    requires { Packs (next_verdict next) }
    ensures { result ≡ next_packed next }
{
    match next {
        Ok(Next::Table) => answer::pack(Ok(Counts { nodes: 1, links: 0 })),
        Ok(Next::Last) => answer::pack(Ok(Counts { nodes: 0, links: 0 })),
        Err(refused) => answer::pack(Err(refused)),
    }
}

// A joined record: its root, its least value and the numbers of its schema rows, proof rows, nodes and members.
pub fn joined(j: Result<Header, Refused>, results: &mut [i32; 6]) -> u64
    requires { JoinedFits j }
    ensures value { result ≡ joined_packed j }
    ensures results_after { results.new ≡ joined_results j }
{
    match j {
        Ok(h) => {
            *results = [
                h.root,
                h.least,
                signed::of(h.schema_rows),
                signed::of(h.proof_rows),
                signed::of(h.node_rows),
                signed::of(h.member_count),
            ];
            answer::pack(Ok(Counts { nodes: 0, links: 0 }))
        }
        Err(refused) => {
            *results = [0, 0, 0, 0, 0, 0];
            answer::pack(Err(refused))
        }
    }
}

// 1 for closed.
fn closed_number(closed: bool) -> i32
    ensures { result ≡ pos (if closed then 1 else 0) }
{
    if closed { 1 } else { 0 }
}

// A tableau that grows: the counts of the rows held or the refusal, and whether it is closed.
pub fn growth(r: Growth, shown: &mut [i32; 1]) -> u64
    requires { Packs (growthVerdict r) }
    ensures value { result ≡ growth_packed r }
    ensures shown_after { shown.new ≡ pos (shown_number r) ∷ [] }
{
    *shown = [closed_number(r.closed)];
    answer::pack(r.verdict)
}

// Where a refusal points: twice the line, and 1 more in the second text.
fn fault(f: Fault) -> u64
    requires { f.line < 16384 }
    ensures { result ≡ fault_number f }
{
    let twice = 2 * f.line as u64;
    if f.second {
        return twice + 1;
    }
    twice
}

// Two texts read and checked: where the refusal points stands above the verdict's number.
pub fn texts(v: Verdict, f: Fault) -> u64
    requires { Packs v × (f.line < 16384) }
    ensures { result ≡ texts_packed v f }
{
    let number = answer::pack(v);
    fault(f) * 17592186044416 + number
}

// A line's place: its start and its length.
pub fn span(s: Span, results: &mut [usize; 2])
    ensures { results.new ≡ s.start ∷ s.len ∷ [] }
{
    *results = [s.start, s.len];
}
