// A view of the colour table of a lookup table: the types here, what each call must answer in specs/, and what follows from it in proofs/.
// What is read at a grid index is an `Option<u16>`: the entry as it is stored, in one byte or two. No function: the code is in the crate
// `lut_view`.
#![tactic(auto)]

use fields::InTag;

// Where the entries of a colour table start in its tag, the bytes of one, the channels, and where the grid bytes stand: one for each of
// the first sixteen input channels, each `grid_step` behind the one before it. Without a colour table an entry has no bytes.
#[derive(Clone, Copy)]
pub struct TableNumbers {
    pub start: InTag,
    pub entry_size: u8,
    pub inputs: u8,
    pub outputs: u8,
    pub grid_at: InTag,
    pub grid_step: u8,
}

// The numbers of no colour table.
pub const NO_NUMBERS: TableNumbers = TableNumbers {
    start: InTag(0),
    entry_size: 0,
    inputs: 0,
    outputs: 0,
    grid_at: InTag(0),
    grid_step: 0,
};

// A lent tag and the numbers of its colour table.
#[derive(Clone, Copy)]
pub struct TableView<'a> {
    pub tag: &'a [u8],
    pub numbers: TableNumbers,
}
