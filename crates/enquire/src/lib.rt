// Enquiry and commit: a row is judged before the engineer settles on it, and waits in lent memory.
#![tactic(auto)]

mod memory;

ghost use Rattle.std.specs.Prelude.{◌≡◌, true, length};
ghost use Rattle.stab.specs.Lent.{lent};
ghost use Rattle.growing.specs.Growing.{begin_answer, take_back, answered, after};
ghost use Rattle.growing.specs.Growing.{add as add_row};
ghost use Rattle.growing.specs.Enquiry.{waiting_row, editor, editor_answer, edited, opened, grow};
ghost use Rattle.growing.specs.Enquiry.{waits as waitsIn};
ghost use Rattle.growing.specs.Enquiry.{enquire as enquireOf};
ghost use Rattle.growing.specs.Enquiry.{commit as commitCall};
ghost use Rattle.growing.specs.Lent.{header_after};
ghost use Rattle.grow.specs.State.{row_from};

use growing::{Growth, Reply};
use stab::{Header, Refusal};

// Formula rows are given. Then, and also after a refusal, no node is held, the tables are 0 and nothing waits.
pub fn begin(
    schema: &[i32],
    proof: &[i32],
    nodes: &mut [i32],
    members: &mut [i32],
    h: Header,
    waiting: &mut [i32; 1033],
) -> Reply
    ensures answer { result.answer ≡ begin_answer (lent schema.now proof.now nodes.old members.old h) }
    ensures left { editor (lent schema.now proof.now nodes.new members.new (header_after h result)) waiting.new ≡ opened (lent schema.now proof.now nodes.old members.old h) }
{
    signed::clear(waiting, 0);
    grow::begin(schema, proof, nodes, members, h)
}

// A row is judged as adding would judge it, and no row is changed. It waits where the answer is yes, and nothing waits where it is no.
pub fn enquire(
    schema: &[i32],
    proof: &[i32],
    nodes: &mut [i32],
    members: &mut [i32],
    h: Header,
    row: &[i32],
    set: &[i32],
    waiting: &mut [i32; 1033],
) -> Growth
    ensures answer { result ≡ editor_answer (editor (lent schema.now proof.now nodes.old members.old h) waiting.old) (enquireOf (row_from row.now set.now)) }
    ensures left { editor (lent schema.now proof.now nodes.new members.new h) waiting.new ≡ edited (editor (lent schema.now proof.now nodes.old members.old h) waiting.old) (enquireOf (row_from row.now set.now)) }
{
    let answer = grow::try_row(false, schema, proof, nodes, members, h, row, set).answer;
    if answer.verdict.is_ok() {
        memory::store(waiting, row, set);
    } else {
        signed::clear(waiting, 0);
    }
    answer
}

// The row that waits is judged again and added.
fn add_waiting(
    schema: &[i32],
    proof: &[i32],
    nodes: &mut [i32],
    members: &mut [i32],
    h: Header,
    waiting: &[i32],
) -> Reply
    requires { (length waiting.now ≡ 1033) × (waitsIn waiting.now ≡ true) }
    ensures answer_value { result.answer ≡ answered (lent schema.now proof.now nodes.old members.old h) (add_row (waiting_row waiting.now)) }
    ensures result_after { lent schema.now proof.now nodes.new members.new (header_after h result) ≡ after (lent schema.now proof.now nodes.old members.old h) (add_row (waiting_row waiting.now)) }
{
    let size = signed::natural_at(waiting, 1);
    grow::add(
        schema,
        proof,
        nodes,
        members,
        h,
        &waiting[2..9],
        &waiting[9..9 + size],
    )
}

// The row that waits is added, if it is still accepted; then nothing waits.
pub fn commit(
    schema: &[i32],
    proof: &[i32],
    nodes: &mut [i32],
    members: &mut [i32],
    h: Header,
    waiting: &mut [i32; 1033],
) -> Reply
    ensures answer { result.answer ≡ editor_answer (editor (lent schema.now proof.now nodes.old members.old h) waiting.old) commitCall }
    ensures left { editor (lent schema.now proof.now nodes.new members.new (header_after h result)) waiting.new ≡ edited (editor (lent schema.now proof.now nodes.old members.old h) waiting.old) commitCall }
{
    if !memory::waits(waiting) {
        return grow::turn_away(schema, proof, nodes, members, h, Refusal::Waiting.whole());
    }
    let r = add_waiting(schema, proof, nodes, members, h, waiting);
    if r.answer.verdict.is_ok() {
        memory::empty(waiting);
    }
    r
}

// A row is added at the end; then nothing waits.
pub fn add(
    schema: &[i32],
    proof: &[i32],
    nodes: &mut [i32],
    members: &mut [i32],
    h: Header,
    row: &[i32],
    set: &[i32],
    waiting: &mut [i32; 1033],
) -> Reply
    ensures answer { result.answer ≡ editor_answer (editor (lent schema.now proof.now nodes.old members.old h) waiting.old) (grow (add_row (row_from row.now set.now))) }
    ensures left { editor (lent schema.now proof.now nodes.new members.new (header_after h result)) waiting.new ≡ edited (editor (lent schema.now proof.now nodes.old members.old h) waiting.old) (grow (add_row (row_from row.now set.now))) }
{
    let r = grow::add(schema, proof, nodes, members, h, row, set);
    if r.answer.verdict.is_ok() {
        memory::empty(waiting);
    }
    r
}

// The last row is taken back; then nothing waits.
pub fn take_back(
    schema: &[i32],
    proof: &[i32],
    nodes: &mut [i32],
    members: &mut [i32],
    h: Header,
    waiting: &mut [i32; 1033],
) -> Reply
    ensures answer { result.answer ≡ editor_answer (editor (lent schema.now proof.now nodes.old members.old h) waiting.old) (grow take_back) }
    ensures left { editor (lent schema.now proof.now nodes.new members.new (header_after h result)) waiting.new ≡ edited (editor (lent schema.now proof.now nodes.old members.old h) waiting.old) (grow take_back) }
{
    let r = grow::take_back(schema, proof, nodes, members, h);
    if r.answer.verdict.is_ok() {
        memory::empty(waiting);
    }
    r
}
