// The programs as functions: two texts in, read and checked once, the verdict and the line at fault out, and the verdict as it is printed.
#![tactic(auto)]

mod fault;

ghost use Rattle.std.specs.Prelude.{◌≡◌, length};
ghost use Rattle.stab.specs.Text.{padded};
ghost use Rattle.stab.specs.Program.{check_texts, model_texts, check_program, model_program, check_fault, model_fault};
ghost use Rattle.printing.specs.Printing.{Counts};

use outcome::{check_outcome, model_outcome, verdict};
use printing::print;
use stab::{Fault, Verdict};

// What two texts come to: the verdict, and where its refusal points.
#[derive(Clone, Copy)]
pub struct Judgement {
    pub verdict: Verdict,
    pub fault: Fault,
}

// The check's judgement, or the older check's, of the bytes of schema.txt and of proof.txt.
pub fn check(older: bool, schema: &[u8], proof: &[u8]) -> Judgement
    ensures verdict_value { result.verdict ≡ check_texts older schema.now proof.now }
    ensures fault_value { result.fault ≡ check_fault older schema.now proof.now }
{
    let o = check_outcome(older, schema, proof);
    let verdict = verdict(o);
    let fault = fault::checked(o);
    Judgement { verdict, fault }
}

// The model check's judgement of the bytes of schema.txt and of model.txt.
pub fn check_model(schema: &[u8], model: &[u8]) -> Judgement
    ensures verdict_value { result.verdict ≡ model_texts schema.now model.now }
    ensures fault_value { result.fault ≡ model_fault schema.now model.now }
{
    let o = model_outcome(schema, model);
    let verdict = verdict(o);
    let fault = fault::modelled(o);
    Judgement { verdict, fault }
}

// What a program tells: how many bytes it prints, and where the refusal points.
#[derive(Clone, Copy)]
pub struct Told {
    pub bytes: usize,
    pub fault: Fault,
}

// What the check program, or the one for older records, prints for the bytes of schema.txt and of proof.txt, with 0 past it, and where
// its refusal points. The tables of the check are no part of its caller's frame: see `files::show`.
#[inline(never)]
pub fn check_texts(older: bool, schema: &[u8], proof: &[u8], out: &mut [u8; 64]) -> Told
    ensures count { result.bytes ≡ length (check_program older schema.now proof.now) }
    ensures text { out.new ≡ padded 0 64 (check_program older schema.now proof.now) }
    ensures within { Counts result.bytes out.new }
    ensures fault { result.fault ≡ check_fault older schema.now proof.now }
{
    let j = check(older, schema, proof);
    let fault = j.fault;
    let verdict = j.verdict;
    let bytes = print(verdict, out);
    Told { bytes, fault }
}

// What the model check program prints for the bytes of schema.txt and of model.txt, and where its refusal points; its tables likewise.
#[inline(never)]
pub fn model_texts(schema: &[u8], model: &[u8], out: &mut [u8; 64]) -> Told
    ensures count { result.bytes ≡ length (model_program schema.now model.now) }
    ensures text { out.new ≡ padded 0 64 (model_program schema.now model.now) }
    ensures within { Counts result.bytes out.new }
    ensures fault { result.fault ≡ model_fault schema.now model.now }
{
    let j = check_model(schema, model);
    let fault = j.fault;
    let verdict = j.verdict;
    let bytes = print(verdict, out);
    Told { bytes, fault }
}
