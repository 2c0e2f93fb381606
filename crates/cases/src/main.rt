// The paper's cases that no lemma computes, and the shipped records, through the functions that the programs are made of:
// a line for each, its name and the four numbers.
#![tactic(auto)]

use std::io;
use std::io::Print;
use std::rt::Files;

// The record's schema with root 3.
const SCHEMA: [u8; 66] =
    *b"root least\n3 1\nkind a b c\n2 0 2 0\n3 0 2 0\n7 0 2 0\n6 1 2 0\n4 2 3 0\n";

// The name, and what was printed after the heading's line.
fn tell(rt: &impl Print, name: &[u8], printed: &[u8]) -> io::Result<()> {
    rt.write_all(name)?;
    rt.write_all(b": ")?;
    if 25 <= printed.len() {
        rt.write_all(&printed[25..])?;
    }
    Ok(())
}

// A model of the schema above.
fn case(rt: &impl Print, name: &[u8], model: &[u8]) -> io::Result<()> {
    let mut out = [0u8; 64];
    let told = program::model_texts(&SCHEMA, model, &mut out);
    let n = told.bytes;
    tell(rt, name, &out[..n])
}

// The texts of a record, by the check for older records or not.
fn checked<R: Files + Print>(
    rt: &R,
    older: bool,
    name: &[u8],
    schema: &[u8],
    proof: &[u8],
) -> io::Result<()> {
    let mut first = files::room();
    let mut second = files::room();
    let s = files::load(rt, schema, &mut first);
    let p = files::load(rt, proof, &mut second);
    let mut out = [0u8; 64];
    let told = program::check_texts(older, &first[..s], &second[..p], &mut out);
    let n = told.bytes;
    tell(rt, name, &out[..n])
}

fn record<R: Files + Print>(rt: &R, name: &[u8], schema: &[u8], proof: &[u8]) -> io::Result<()> {
    checked(rt, false, name, schema, proof)
}

// The model of a record's schema.
fn model<R: Files + Print>(rt: &R, name: &[u8], schema: &[u8], model: &[u8]) -> io::Result<()> {
    let mut first = files::room();
    let mut second = files::room();
    let s = files::load(rt, schema, &mut first);
    let m = files::load(rt, model, &mut second);
    let mut out = [0u8; 64];
    let told = program::model_texts(&first[..s], &second[..m], &mut out);
    let n = told.bytes;
    tell(rt, name, &out[..n])
}

fn cases(rt: &impl Print) -> io::Result<()> {
    case(rt, b"root 3, n = 0", b"n\n0\nsymbol index\n")?;
    case(rt, b"root 3, n = 3, pair 0 1", b"n\n3\nsymbol index\n0 1\n")?;
    case(rt, b"root 3, n = 3, pair 0 3", b"n\n3\nsymbol index\n0 3\n")
}

fn accepted<R: Files + Print>(rt: &R) -> io::Result<()> {
    record(
        rt,
        b"accepted/arbiter_at_most_one",
        b"accepted/arbiter_at_most_one/schema.txt",
        b"accepted/arbiter_at_most_one/proof.txt",
    )?;
    record(
        rt,
        b"accepted/arbiter_instance_swapped",
        b"accepted/arbiter_instance_swapped/schema.txt",
        b"accepted/arbiter_instance_swapped/proof.txt",
    )?;
    record(
        rt,
        b"accepted/chain_531",
        b"accepted/chain_531/schema.txt",
        b"accepted/chain_531/proof.txt",
    )?;
    record(
        rt,
        b"accepted/chain_either_end",
        b"accepted/chain_either_end/schema.txt",
        b"accepted/chain_either_end/proof.txt",
    )?;
    record(
        rt,
        b"accepted/chain_up_to_20",
        b"accepted/chain_up_to_20/schema.txt",
        b"accepted/chain_up_to_20/proof.txt",
    )?;
    record(
        rt,
        b"accepted/cmp_transitive",
        b"accepted/cmp_transitive/schema.txt",
        b"accepted/cmp_transitive/proof.txt",
    )?;
    record(
        rt,
        b"accepted/period_two",
        b"accepted/period_two/schema.txt",
        b"accepted/period_two/proof.txt",
    )?;
    record(
        rt,
        b"accepted/ranges_of_widths",
        b"accepted/ranges_of_widths/schema.txt",
        b"accepted/ranges_of_widths/proof.txt",
    )?;
    record(
        rt,
        b"accepted/rca_zero",
        b"accepted/rca_zero/schema.txt",
        b"accepted/rca_zero/proof.txt",
    )?;
    record(
        rt,
        b"accepted/token_on_two_rails",
        b"accepted/token_on_two_rails/schema.txt",
        b"accepted/token_on_two_rails/proof.txt",
    )?;
    record(
        rt,
        b"accepted/two_widths_down",
        b"accepted/two_widths_down/schema.txt",
        b"accepted/two_widths_down/proof.txt",
    )
}

fn refused<R: Files + Print>(rt: &R) -> io::Result<()> {
    record(
        rt,
        b"refused/instance_regrouped",
        b"refused/instance_regrouped/schema.txt",
        b"refused/instance_regrouped/proof.txt",
    )?;
    record(
        rt,
        b"refused/link_above_upper_bound",
        b"refused/link_above_upper_bound/schema.txt",
        b"refused/link_above_upper_bound/proof.txt",
    )?;
    record(
        rt,
        b"refused/link_below_other_branch",
        b"refused/link_below_other_branch/schema.txt",
        b"refused/link_below_other_branch/proof.txt",
    )?;
    record(
        rt,
        b"refused/link_bound_of_leaf",
        b"refused/link_bound_of_leaf/schema.txt",
        b"refused/link_bound_of_leaf/proof.txt",
    )?;
    record(
        rt,
        b"refused/link_by_zero",
        b"refused/link_by_zero/schema.txt",
        b"refused/link_by_zero/proof.txt",
    )?;
    record(
        rt,
        b"refused/link_lost_row_cmp_transitive",
        b"refused/link_lost_row_cmp_transitive/schema.txt",
        b"refused/link_lost_row_cmp_transitive/proof.txt",
    )?;
    record(
        rt,
        b"refused/link_lost_row_other_branch",
        b"refused/link_lost_row_other_branch/schema.txt",
        b"refused/link_lost_row_other_branch/proof.txt",
    )?;
    record(
        rt,
        b"refused/link_open_to_bounded",
        b"refused/link_open_to_bounded/schema.txt",
        b"refused/link_open_to_bounded/proof.txt",
    )?;
    record(
        rt,
        b"refused/link_to_later_node",
        b"refused/link_to_later_node/schema.txt",
        b"refused/link_to_later_node/proof.txt",
    )?;
    record(
        rt,
        b"refused/open_clash",
        b"refused/open_clash/schema.txt",
        b"refused/open_clash/proof.txt",
    )?;
    record(
        rt,
        b"refused/row_written_twice",
        b"refused/row_written_twice/schema.txt",
        b"refused/row_written_twice/proof.txt",
    )?;
    record(
        rt,
        b"refused/size_4097",
        b"refused/size_4097/schema.txt",
        b"refused/size_4097/proof.txt",
    )?;
    record(
        rt,
        b"refused/split_at_upper_bound",
        b"refused/split_at_upper_bound/schema.txt",
        b"refused/split_at_upper_bound/proof.txt",
    )?;
    record(
        rt,
        b"refused/split_negative_by",
        b"refused/split_negative_by/schema.txt",
        b"refused/split_negative_by/proof.txt",
    )?;
    record(
        rt,
        b"refused/unfold_empty_open",
        b"refused/unfold_empty_open/schema.txt",
        b"refused/unfold_empty_open/proof.txt",
    )?;
    record(
        rt,
        b"refused/void_above_least",
        b"refused/void_above_least/schema.txt",
        b"refused/void_above_least/proof.txt",
    )
}

fn older<R: Files + Print>(rt: &R) -> io::Result<()> {
    checked(
        rt,
        true,
        b"refused/row_written_twice, by the older check",
        b"refused/row_written_twice/schema.txt",
        b"refused/row_written_twice/proof.txt",
    )
}

fn models<R: Files + Print>(rt: &R) -> io::Result<()> {
    model(
        rt,
        b"refused/link_above_upper_bound, its model",
        b"refused/link_above_upper_bound/schema.txt",
        b"refused/link_above_upper_bound/model.txt",
    )?;
    model(
        rt,
        b"refused/link_below_other_branch, its model",
        b"refused/link_below_other_branch/schema.txt",
        b"refused/link_below_other_branch/model.txt",
    )?;
    model(
        rt,
        b"refused/link_bound_of_leaf, its model",
        b"refused/link_bound_of_leaf/schema.txt",
        b"refused/link_bound_of_leaf/model.txt",
    )?;
    model(
        rt,
        b"refused/link_by_zero, its model",
        b"refused/link_by_zero/schema.txt",
        b"refused/link_by_zero/model.txt",
    )?;
    model(
        rt,
        b"refused/link_lost_row_other_branch, its model",
        b"refused/link_lost_row_other_branch/schema.txt",
        b"refused/link_lost_row_other_branch/model.txt",
    )?;
    model(
        rt,
        b"refused/link_open_to_bounded, its model",
        b"refused/link_open_to_bounded/schema.txt",
        b"refused/link_open_to_bounded/model.txt",
    )?;
    model(
        rt,
        b"refused/open_clash, its model",
        b"refused/open_clash/schema.txt",
        b"refused/open_clash/model.txt",
    )?;
    model(
        rt,
        b"refused/unfold_empty_open, its model",
        b"refused/unfold_empty_open/schema.txt",
        b"refused/unfold_empty_open/model.txt",
    )?;
    model(
        rt,
        b"refused/void_above_least, its model",
        b"refused/void_above_least/schema.txt",
        b"refused/void_above_least/model.txt",
    )
}

fn main(rt: HostRuntime) -> io::Result<()> {
    cases(&rt)?;
    accepted(&rt)?;
    refused(&rt)?;
    older(&rt)?;
    models(&rt)
}
