// The entries of an editor: a row is enquired about, waits in lent memory, and is committed.
ghost use Rattle.std.specs.Prelude.{◌≡◌, [], ◌∷◌, pos};
ghost use Rattle.stab.specs.Lent.{lent};
ghost use Rattle.growing.specs.Growing.{growth_packed, shown_number};
ghost use Rattle.growing.specs.Enquiry.{editor, enquire, commit, editor_answer, edited};
ghost use Rattle.growing.specs.Lent.{held_header};
ghost use Rattle.grow.specs.State.{row_from};

use stab::Header;

// A row is judged as adding would judge it, and no row is changed. Where the answer is yes it waits.
#[unsafe(no_mangle)]
pub extern "C" fn zorambi_enquire(
    schema: &[i32],
    schema_rows: usize,
    proof: &[i32],
    proof_rows: usize,
    root: i32,
    least: i32,
    nodes: &mut [i32],
    members: &mut [i32],
    held: &mut [usize; 2],
    shown: &mut [i32; 1],
    row: &[i32; 7],
    set: &[i32],
    waiting: &mut [i32; 1033],
) -> u64
    ensures answer { result ≡ growth_packed (editor_answer (editor (lent schema.now proof.now nodes.old members.old (held_header schema_rows proof_rows root least held.old)) waiting.old) (enquire (row_from row.now set.now))) }
    ensures shown { shown.new ≡ pos (shown_number (editor_answer (editor (lent schema.now proof.now nodes.old members.old (held_header schema_rows proof_rows root least held.old)) waiting.old) (enquire (row_from row.now set.now)))) ∷ [] }
    ensures left { editor (lent schema.now proof.now nodes.new members.new (held_header schema_rows proof_rows root least held.new)) waiting.new ≡ edited (editor (lent schema.now proof.now nodes.old members.old (held_header schema_rows proof_rows root least held.old)) waiting.old) (enquire (row_from row.now set.now)) }
{
    let h = Header {
        schema_rows,
        proof_rows,
        root,
        least,
        node_rows: held[0],
        member_count: held[1],
    };
    let r = enquire::enquire(schema, proof, nodes, members, h, row, set, waiting);
    told::growth(r, shown)
}

// The row that waits is judged again and added.
#[unsafe(no_mangle)]
pub extern "C" fn zorambi_commit(
    schema: &[i32],
    schema_rows: usize,
    proof: &[i32],
    proof_rows: usize,
    root: i32,
    least: i32,
    nodes: &mut [i32],
    members: &mut [i32],
    held: &mut [usize; 2],
    shown: &mut [i32; 1],
    waiting: &mut [i32; 1033],
) -> u64
    ensures answer { result ≡ growth_packed (editor_answer (editor (lent schema.now proof.now nodes.old members.old (held_header schema_rows proof_rows root least held.old)) waiting.old) commit) }
    ensures shown { shown.new ≡ pos (shown_number (editor_answer (editor (lent schema.now proof.now nodes.old members.old (held_header schema_rows proof_rows root least held.old)) waiting.old) commit)) ∷ [] }
    ensures left { editor (lent schema.now proof.now nodes.new members.new (held_header schema_rows proof_rows root least held.new)) waiting.new ≡ edited (editor (lent schema.now proof.now nodes.old members.old (held_header schema_rows proof_rows root least held.old)) waiting.old) commit }
{
    let h = Header {
        schema_rows,
        proof_rows,
        root,
        least,
        node_rows: held[0],
        member_count: held[1],
    };
    let r = enquire::commit(schema, proof, nodes, members, h, waiting);
    *held = [r.node_rows, r.member_count];
    let answer = r.answer;
    told::growth(answer, shown)
}
