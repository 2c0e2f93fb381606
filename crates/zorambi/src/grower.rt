// The entries with which a tableau grows row by row in lent tables: one number back as from the check, with the counts of the rows held,
// and in a lent result whether the rows that the call leaves are closed.
ghost use Rattle.std.specs.Prelude.{◌≡◌, [], ◌∷◌, pos};
ghost use Rattle.stab.specs.Lent.{lent};
ghost use Rattle.growing.specs.Growing.{begin_answer, add, take_back, answered, after, growth_packed, shown_number};
ghost use Rattle.growing.specs.Enquiry.{editor, edited, opened, grow};
ghost use Rattle.growing.specs.Lent.{held_header};
ghost use Rattle.grow.specs.State.{row_from};

use stab::Header;

// Formula rows are given. Then, and also after a refusal, no node is held, the tables are 0 and nothing waits.
#[unsafe(no_mangle)]
pub extern "C" fn zorambi_begin(
    schema: &[i32],
    schema_rows: usize,
    proof: &[i32],
    proof_rows: usize,
    root: i32,
    least: i32,
    nodes: &mut [i32],
    members: &mut [i32],
    held: &mut [usize; 2],
    shown: &mut [i32; 1],
    waiting: &mut [i32; 1033],
) -> u64
    ensures answer { result ≡ growth_packed (begin_answer (lent schema.now proof.now nodes.old members.old (held_header schema_rows proof_rows root least held.old))) }
    ensures shown { shown.new ≡ pos (shown_number (begin_answer (lent schema.now proof.now nodes.old members.old (held_header schema_rows proof_rows root least held.old)))) ∷ [] }
    ensures left { editor (lent schema.now proof.now nodes.new members.new (held_header schema_rows proof_rows root least held.new)) waiting.new ≡ opened (lent schema.now proof.now nodes.old members.old (held_header schema_rows proof_rows root least held.old)) }
{
    let h = Header {
        schema_rows,
        proof_rows,
        root,
        least,
        node_rows: held[0],
        member_count: held[1],
    };
    let r = enquire::begin(schema, proof, nodes, members, h, waiting);
    *held = [r.node_rows, r.member_count];
    let answer = r.answer;
    told::growth(answer, shown)
}

// A node row is added at the end of the rows held: seven numbers, and its set. After it nothing waits. A refused call leaves all as it
// stood.
#[unsafe(no_mangle)]
pub extern "C" fn zorambi_add(
    schema: &[i32],
    schema_rows: usize,
    proof: &[i32],
    proof_rows: usize,
    root: i32,
    least: i32,
    nodes: &mut [i32],
    members: &mut [i32],
    held: &mut [usize; 2],
    shown: &mut [i32; 1],
    row: &[i32; 7],
    set: &[i32],
    waiting: &mut [i32; 1033],
) -> u64
    ensures answer { result ≡ growth_packed (answered (lent schema.now proof.now nodes.old members.old (held_header schema_rows proof_rows root least held.old)) (add (row_from row.now set.now))) }
    ensures shown { shown.new ≡ pos (shown_number (answered (lent schema.now proof.now nodes.old members.old (held_header schema_rows proof_rows root least held.old)) (add (row_from row.now set.now)))) ∷ [] }
    ensures left { lent schema.now proof.now nodes.new members.new (held_header schema_rows proof_rows root least held.new) ≡ after (lent schema.now proof.now nodes.old members.old (held_header schema_rows proof_rows root least held.old)) (add (row_from row.now set.now)) }
    ensures waiting { waiting.new ≡ (edited (editor (lent schema.now proof.now nodes.old members.old (held_header schema_rows proof_rows root least held.old)) waiting.old) (grow (add (row_from row.now set.now)))).waiting }
{
    let h = Header {
        schema_rows,
        proof_rows,
        root,
        least,
        node_rows: held[0],
        member_count: held[1],
    };
    let r = enquire::add(schema, proof, nodes, members, h, row, set, waiting);
    *held = [r.node_rows, r.member_count];
    let answer = r.answer;
    told::growth(answer, shown)
}

// The last row is taken back. After it nothing waits. A refused call leaves all as it stood.
#[unsafe(no_mangle)]
pub extern "C" fn zorambi_take_back(
    schema: &[i32],
    schema_rows: usize,
    proof: &[i32],
    proof_rows: usize,
    root: i32,
    least: i32,
    nodes: &mut [i32],
    members: &mut [i32],
    held: &mut [usize; 2],
    shown: &mut [i32; 1],
    waiting: &mut [i32; 1033],
) -> u64
    ensures answer { result ≡ growth_packed (answered (lent schema.now proof.now nodes.old members.old (held_header schema_rows proof_rows root least held.old)) take_back) }
    ensures shown { shown.new ≡ pos (shown_number (answered (lent schema.now proof.now nodes.old members.old (held_header schema_rows proof_rows root least held.old)) take_back)) ∷ [] }
    ensures left { lent schema.now proof.now nodes.new members.new (held_header schema_rows proof_rows root least held.new) ≡ after (lent schema.now proof.now nodes.old members.old (held_header schema_rows proof_rows root least held.old)) take_back }
    ensures waiting { waiting.new ≡ (edited (editor (lent schema.now proof.now nodes.old members.old (held_header schema_rows proof_rows root least held.old)) waiting.old) (grow take_back)).waiting }
{
    let h = Header {
        schema_rows,
        proof_rows,
        root,
        least,
        node_rows: held[0],
        member_count: held[1],
    };
    let r = enquire::take_back(schema, proof, nodes, members, h, waiting);
    *held = [r.node_rows, r.member_count];
    let answer = r.answer;
    told::growth(answer, shown)
}
