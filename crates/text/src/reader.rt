// A line reader: it remembers a text, and how far it has read. Its functions are thin: the work on a line is `awaited::take`, on a slice
// and a number.
ghost use Rattle.std.specs.Prelude.{◌≡◌};
ghost use Rattle.text.specs.Awaiting.{Ready, ReadAll};
ghost use Rattle.text.specs.OneLine.{Stepped};

use crate::awaited;
use crate::awaited::Awaited;

#[derive(Drop)]
pub struct LineReader<'a> {
    text: &'a [u8],
    at: usize,
}

impl<'a> LineReader<'a> {
    // A reader at a text's start.
    pub fn open(text: &'a [u8]) -> LineReader<'a>
        ensures { (result.text ≡ text.entry) × (result.at ≡ 0) }
    {
        LineReader { text, at: 0 }
    }

    // The line at the reader's place is read, and has to be as p says. The reader moves on to the line after it, for which the answer says the same;
    // where no line is awaited after it, the reader stays.
    pub fn next_line(
        &mut self,
        p: Awaited,
        table: &mut [i32],
        nodes: &mut [i32],
        members: &mut [i32],
    ) -> Awaited
        requires { Ready self.old.text.now self.old.at p table.old nodes.old members.old }
        ensures { (self.new.text ≡ self.old.text) × Stepped self.old.text.now self.old.at p table.old nodes.old members.old (record { next = self.new.at; got = result }) table.new nodes.new members.new }
    {
        let t = awaited::take(self.text, self.at, p, table, nodes, members);
        self.at = t.next;
        t.got
    }
}

// A text is read line by line, from its start until no line is awaited. Whoever reads a text calls this.
pub fn read_lines(
    text: &[u8],
    start: Awaited,
    table: &mut [i32],
    nodes: &mut [i32],
    members: &mut [i32],
) -> Awaited
    requires { Ready text.now 0 start table.old nodes.old members.old }
    ensures { ReadAll text.now start table.old nodes.old members.old result table.new nodes.new members.new }
{
    let mut r = LineReader::open(text);
    let mut p = start;
    while awaited::goes_on(p) {
        p = r.next_line(p, table, nodes, members);
    }
    p
}
