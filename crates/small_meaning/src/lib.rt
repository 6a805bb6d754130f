// What the small readers answer: the types here, what each call must answer in specs/, and what follows from it in proofs/. No function: the
// code is in the crates `small_chad`, `small_order`, `small_raw` and `small_xyz`.
#![tactic(auto)]

// Why no tag is found: its size is too small, it lies past the profile, or it is of another type.
#[derive(Clone, Copy, Debug, PartialEq, Eq)]
pub enum Unfound {
    Short,
    Past,
    Other,
}

// Three rows of three numbers, named as in the Rust; each is a signed word in two's complement.
#[derive(Clone, Copy, Debug, PartialEq, Eq)]
pub struct ChadMatrix {
    pub e00: u32,
    pub e01: u32,
    pub e02: u32,
    pub e10: u32,
    pub e11: u32,
    pub e12: u32,
    pub e20: u32,
    pub e21: u32,
    pub e22: u32,
}

// Three signed words in two's complement.
#[derive(Clone, Copy, Debug, PartialEq, Eq)]
pub struct XyzNumber {
    pub x: u32,
    pub y: u32,
    pub z: u32,
}

// Observer, backing, geometry, flare and illuminant, as they stand.
#[derive(Clone, Copy, Debug, PartialEq, Eq)]
pub struct Measurement {
    pub observer: u32,
    pub backing: XyzNumber,
    pub geometry: u32,
    pub flare: u32,
    pub illuminant: u32,
}

// Illuminant and surround, and the number at byte 32: the illuminant's type by the standard, which the Rust takes for an observer.
#[derive(Clone, Copy, Debug, PartialEq, Eq)]
pub struct ViewingConditions {
    pub illuminant: XyzNumber,
    pub surround: XyzNumber,
    pub number: u32,
}

// The code points of ITU-T H.273, as they stand: colour primaries, transfer characteristics, matrix coefficients, and the flag of the
// full range.
#[derive(Clone, Copy, Debug, PartialEq, Eq)]
pub struct CicpCodes {
    pub primaries: u8,
    pub transfer: u8,
    pub matrix: u8,
    pub range: u8,
}
