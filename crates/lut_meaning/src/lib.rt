// Lookup tables: the types here, what each call must answer in specs/, and what follows from it in proofs/. Their reader answers
// `Result<Option<Lut>, Refusal>`. No function: the code is in the crate `lut`.
#![tactic(auto)]

use fields::InTag;
use lut_mft_meaning::Mft;

// What an `mAB ` or `mBA ` tag says: its direction and channels, where the data of its colour table lie and the bytes of an entry (zeros
// without one), and how many curves each run has. The records of the curves stand in the lent slots.
#[derive(Clone, Copy)]
pub struct AbmTable {
    pub to_pcs: bool,
    pub inputs: u8,
    pub outputs: u8,
    pub clut_start: InTag,
    pub clut_length: u32,
    pub entry_size: u8,
    pub a_curves: u32,
    pub m_curves: u32,
    pub b_curves: u32,
}

// All that such a tag says: besides, the grid bytes as they stand, and the matrix and bias numbers, signed words in two's complement.
#[derive(Clone, Copy)]
pub struct Abm {
    pub table: AbmTable,
    pub grid: [u8; 16],
    pub matrix: [u32; 9],
    pub bias: [u32; 3],
}

// What a lookup table says, by its type.
#[derive(Clone, Copy)]
pub enum Lut {
    Mft(Mft),
    Abm(Abm),
}
