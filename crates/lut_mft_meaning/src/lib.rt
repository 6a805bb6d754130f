// `mft1` and `mft2`: the types here, what each call must answer in specs/, and what follows from it in proofs/. Their reader answers
// `Result<Mft, Refusal>`. No function: the code is in the crate `lut_mft`.
#![tactic(auto)]

use fields::InTag;

// What an `mft1` or `mft2` tag says: the bytes of an entry (1 in `mft1`, 2 in `mft2`), its channels, the grid points of each dimension, how
// many entries a channel has in the input table and in the output table, and where its three tables lie.
#[derive(Clone, Copy)]
pub struct MftTable {
    pub entry_size: u8,
    pub inputs: u8,
    pub outputs: u8,
    pub grid: u8,
    pub input_entries: u16,
    pub output_entries: u16,
    pub input_start: InTag,
    pub input_length: u64,
    pub clut_start: InTag,
    pub clut_length: u64,
    pub output_start: InTag,
    pub output_length: u64,
}

// All that such a tag says: its tables, and the nine numbers of its matrix, signed words in two's complement.
#[derive(Clone, Copy)]
pub struct Mft {
    pub table: MftTable,
    pub matrix: [u32; 9],
}
