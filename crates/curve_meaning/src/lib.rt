// What the tone-curve readers answer: the types here, what each call must answer in specs/, and what follows from it in proofs/. The
// readers are in the crate `curve`.
#![tactic(auto)]

ghost use Rattle.std.specs.Prelude.{◌≡◌};
ghost use Rattle.curve_meaning.specs.Answer.{words};
ghost use Rattle.curve_meaning.specs.Kinds.{kind_number, TypeIs};

use fields::Refusal;

// The words of a record.
pub const RECORD_WORDS: usize = 10;

// The type of a function, which says how many parameters it has and what it computes.
#[derive(Clone, Copy, Debug, PartialEq, Eq)]
pub enum FunctionType {
    Type0,
    Type1,
    Type2,
    Type3,
    Type4,
}

impl TryFrom<u16> for FunctionType {
    type Error = Refusal;

    ghost try_from_gives = { TypeIs };

    fn try_from(number: u16) -> Result<FunctionType, Refusal> {
        match number {
            0 => Ok(FunctionType::Type0),
            1 => Ok(FunctionType::Type1),
            2 => Ok(FunctionType::Type2),
            3 => Ok(FunctionType::Type3),
            4 => Ok(FunctionType::Type4),
            _ => Err(Refusal::FunctionType),
        }
    }
}

// What a curve is: empty, a table, or a function of a type.
#[derive(Clone, Copy, Debug, PartialEq, Eq)]
pub enum CurveKind {
    Empty,
    Table,
    Function(FunctionType),
}

// The number of a kind in a record's words: 0, 1, and from 2 on the functions by their type.
impl From<CurveKind> for u32 {
    ghost from_gives = { λ kind n. n ≡ kind_number kind };

    fn from(kind: CurveKind) -> u32 {
        match kind {
            CurveKind::Empty => 0,
            CurveKind::Table => 1,
            CurveKind::Function(function) => 2 + function as u32,
        }
    }
}

// How a run of curves steps over an empty one: by nothing, as the Rust does, or by its 12 bytes, as the standard lays it out.
#[derive(Clone, Copy, Debug, PartialEq, Eq)]
pub enum Walk {
    Crate,
    Book,
}

// A curve: its kind, where its data start in the tag, how many entries or parameters it
// has, and the parameters by their names in the standard, each a signed word in two's complement, those unused 0.
#[derive(Clone, Copy, Debug, PartialEq, Eq)]
pub struct CurveRecord {
    pub kind: CurveKind,
    pub start: u32,
    pub count: u32,
    pub g: u32,
    pub a: u32,
    pub b: u32,
    pub c: u32,
    pub d: u32,
    pub e: u32,
    pub f: u32,
}

// The words of a record, in their order.
impl From<CurveRecord> for [u32; RECORD_WORDS] {
    ghost from_gives = { λ curve ten. ten ≡ words curve };

    fn from(curve: CurveRecord) -> [u32; RECORD_WORDS] {
        [
            u32::from(curve.kind),
            curve.start,
            curve.count,
            curve.g,
            curve.a,
            curve.b,
            curve.c,
            curve.d,
            curve.e,
            curve.f,
        ]
    }
}

// What a tone-curve reader read. `consumed` is how far the walk goes on behind the curve.
#[derive(Clone, Copy, Debug, PartialEq, Eq)]
pub struct CurveRead {
    pub curve: CurveRecord,
    pub consumed: u64,
}
