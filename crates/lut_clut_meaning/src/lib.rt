// The colour table of an `mAB ` or `mBA ` tag: the type here, what each call must answer in specs/, and what follows from it in proofs/. Its
// reader answers `Result<ColourTable, Refusal>`. No function: the code is in the crate `lut_clut`.
#![tactic(auto)]

use fields::InTag;

// A table: its grid points, where its data start in the tag, their length in bytes, and the bytes of an entry.
#[derive(Clone, Copy)]
pub struct ColourTable {
    pub points: u32,
    pub start: InTag,
    pub length: u32,
    pub entry_size: u8,
}
