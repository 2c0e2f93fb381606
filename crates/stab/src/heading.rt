// The fixed headings, matched against a line and written.
pub const SCHEMA: [u8; 10] = *b"root least";

pub const ROWS: [u8; 10] = *b"kind a b c";

pub const NODES: [u8; 31] = *b"up rule on with other to by set";

pub const MODEL: [u8; 1] = *b"n";

pub const PAIRS: [u8; 12] = *b"symbol index";
