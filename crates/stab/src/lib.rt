// What is answered: the refusals, and the numbers that an accepted text or record gives; the row of the rule table, and where a refusal points.
// What each means in the paper's numbers is in specs/Answer.antt.
#![tactic(auto)]

pub mod heading;

ghost use Rattle.std.specs.Prelude.{◌≡◌, None, Some};

// Why a record is turned away: refusals 1 to 22, and those of document 02.
#[derive(Clone, Copy)]
pub enum Refusal {
    TextTooLong,
    TableTooShort,
    Heading,
    Line,
    TooMany,
    Root,
    IllFormed,
    TooLarge,
    Set,
    Parent,
    Drawn,
    Fields,
    Target,
    Bound,
    Partner,
    Lowered,
    Children,
    Pair,
    Width,
    False,
    Number,
    Output,
    Plain,
    Room,
    NoRow,
    Waiting,
    Repeated,
    Leasts,
    Joint,
    Wires,
    NotListed,
}

// Why and where a record is turned away: at a row, node or line, or, where `place` is none, as a whole.
#[derive(Clone, Copy)]
pub struct Refused {
    pub why: Refusal,
    pub place: Option<usize>,
}

impl Refusal {
    // This refusal of the record as a whole.
    pub fn whole(self) -> Refused
        ensures { result ≡ record { why = self; place = None } }
    {
        Refused {
            why: self,
            place: None,
        }
    }

    // This refusal at a row, node or line.
    pub fn at(self, place: usize) -> Refused
        ensures { result ≡ record { why = self; place = Some place } }
    {
        Refused {
            why: self,
            place: Some(place),
        }
    }
}

// The counts of an accepted record. An accepted model has both 0.
#[derive(Clone, Copy)]
pub struct Counts {
    pub nodes: usize,
    pub links: usize,
}

// The check's answer and the model check's.
pub type Verdict = Result<Counts, Refused>;

// The numbers that go with the lent table of a schema: how many rows it holds, the root and the least value of n.
#[derive(Clone, Copy)]
pub struct SchemaHeader {
    pub rows: usize,
    pub root: i32,
    pub least: i32,
}

// Those that go with the four lent tables of a record.
#[derive(Clone, Copy)]
pub struct Header {
    pub schema_rows: usize,
    pub proof_rows: usize,
    pub root: i32,
    pub least: i32,
    pub node_rows: usize,
    pub member_count: usize,
}

// What is asked of a record: whether its proof rows may repeat, as those of an older one, and whether it is whole, or rows held while it grows.
#[derive(Clone, Copy)]
pub struct Mode {
    pub older: bool,
    pub whole: bool,
}

// What is read of a proof text: how many rows, nodes and members it has.
#[derive(Clone, Copy)]
pub struct ProofCounts {
    pub rows: usize,
    pub nodes: usize,
    pub members: usize,
}

// What is read of a model text: n, and how many pairs are true.
#[derive(Clone, Copy)]
pub struct ModelHeader {
    pub n: i32,
    pub pairs: usize,
}

// A row of the rule table: the kinds that `on` and `with` need (-1: the field is unused),
// whether `other` is used, whether `to` and `by` are, whether `by` alone is, and the number of children.
#[derive(Clone, Copy)]
pub struct Rule {
    pub on: i32,
    pub with: i32,
    pub other: bool,
    pub link: bool,
    pub split: bool,
    pub children: usize,
}

// Which of two texts a refusal points into, and the line there, counted from 1; line 0 is none.
#[derive(Clone, Copy)]
pub struct Fault {
    pub second: bool,
    pub line: usize,
}
