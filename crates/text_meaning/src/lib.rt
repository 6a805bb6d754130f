// What the reader of text answers: the types here, what each call must answer in specs/, and what follows from it in proofs/. No function:
// the code is in the crates `text_mluc` and `text`.
#![tactic(auto)]

use fields::InTag;

// A range of the tag, in bytes.
#[derive(Clone, Copy)]
pub struct Range {
    pub start: InTag,
    pub length: u32,
}

// The ASCII string of `desc`, and its Unicode string with the language.
#[derive(Clone, Copy)]
pub struct Description {
    pub ascii: Range,
    pub language: u32,
    pub unicode: Range,
}

// What is read of a tag of text. The records of `mluc` are in the slots.
#[derive(Clone, Copy)]
pub enum TextValue {
    Text(Range),
    Desc(Description),
    Mluc { records: u32 },
}
