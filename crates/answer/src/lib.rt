// Answers as the paper's numbers.
#![tactic(auto)]

ghost use Rattle.std.specs.Prelude.{◌≡◌};
ghost use Rattle.stab.specs.Answer.{refusal_number, place_code, packed, Packs};
ghost use Rattle.answer.specs.Near.{Coded};

use stab::{Counts, Refusal, Verdict};

// The number of a refusal.
pub fn number(why: Refusal) -> u64
    ensures { result ≡ refusal_number why }
{
    match why {
        Refusal::TextTooLong => 1,
        Refusal::TableTooShort => 2,
        Refusal::Heading => 3,
        Refusal::Line => 4,
        Refusal::TooMany => 5,
        Refusal::Root => 6,
        Refusal::IllFormed => 7,
        Refusal::TooLarge => 8,
        Refusal::Set => 9,
        Refusal::Parent => 10,
        Refusal::Drawn => 11,
        Refusal::Fields => 12,
        Refusal::Target => 13,
        Refusal::Bound => 14,
        Refusal::Partner => 15,
        Refusal::Lowered => 16,
        Refusal::Children => 17,
        Refusal::Pair => 18,
        Refusal::Width => 19,
        Refusal::False => 20,
        Refusal::Number => 21,
        Refusal::Output => 22,
        Refusal::Plain => 23,
        Refusal::Room => 24,
        Refusal::NoRow => 25,
        Refusal::Waiting => 26,
        Refusal::Repeated => 27,
        Refusal::Leasts => 28,
        Refusal::Joint => 29,
        Refusal::Wires => 30,
        Refusal::NotListed => 31,
    }
}

// place + 1, where it is below 8192.
fn coded(place: Option<usize>) -> u64
    requires { Coded place }
    ensures { result ≡ place_code place }
{
    match place {
        None => 0,
        Some(k) => k as u64 + 1,
    }
}

// ((answer × 8192 + place + 1) × 8192 + nodes) × 8192 + links
pub fn pack(v: Verdict) -> u64
    requires { Packs v }
    ensures { result ≡ packed v }
{
    match v {
        Ok(Counts { nodes, links }) => (8192 + nodes as u64) * 8192 + links as u64,
        Err(refused) => (number(refused.why) * 8192 + coded(refused.place)) * 67108864,
    }
}
