// The tone curve, `curv` and `para`: read_trc_tag of moxcms.
#![tactic(auto)]

ghost use Rattle.std.specs.Prelude.{◌≡◌, cond, ◌&&◌, [], ltb, leb, eqb, get_or, map};
ghost use Rattle.fields.specs.House.{tag_size};
ghost use Rattle.curve_meaning.specs.Answer.{words, in_numbers, read_in_numbers, answer_of, step_checked, step_in_numbers, in_slot, StepAndSlot};
ghost use Rattle.curve_meaning.specs.Curve.{trc_of, curve_of, divides};
ghost use Rattle.curve_meaning.specs.Kinds.{kind_number, type_number};
ghost use Rattle.curve_meaning.specs.Layout.{parameter_count, parameters_end};
ghost use Rattle.curve_meaning.specs.Shape.{step_of, record_of, words_of};
ghost use Rattle.curve.specs.Found.{number_of, shape_of, found_checked};

use curve_meaning::{CurveKind, FunctionType};
pub use curve_meaning::{CurveRead, CurveRecord, RECORD_WORDS, Walk};
use fields::{Entry, InTag, Kind, Refusal, TAG_SIZE};

// curveType, 'curv'                      parametricCurveType, 'para'
//  0 to  3  signature                     0 to  3  signature
//  4 to  7  reserved                      4 to  7  reserved
//  8 to 11  count of entries              8 to  9  function type
// 12 on     the entries, 2 bytes each    10 to 11  reserved
//                                        12 on     the parameters, 4 bytes each
const SIGNATURE: u64 = 0;

const SIGNATURE_END: u64 = 4;

const ENTRY_COUNT: u64 = 8;

const FUNCTION_TYPE: u64 = 8;

const DATA: u32 = 12;

const ENTRY_BYTES: u64 = 2;

const PARAMETER_BYTES: u32 = 4;

// Parameters by function type.
const COUNT_TO_LENGTH: [u32; 5] = [1, 3, 4, 5, 7];

// What a curve is, as its bytes say it: a table has so many entries, and a function a type and its parameters, four bytes each.
#[derive(Clone, Copy)]
enum Found<'a> {
    Empty,
    Table(u32),
    Function(FunctionType, &'a [[u8; 4]]),
}

// How many parameters a function has.
#[tactic(auto, unfolding(curve_meaning::specs::Layout::parameter_count))]
fn parameter_count(function: FunctionType) -> u32
    ensures { result ≡ parameter_count (type_number function) }
{
    COUNT_TO_LENGTH[function as usize]
}

// Where a function's parameters end in its bytes: 40 at most.
#[tactic(auto, using(crate::proofs::Laws::few))]
fn parameters_end(function: FunctionType) -> u32
    ensures { result ≡ parameters_end (parameter_count (type_number function)) }
{
    DATA + PARAMETER_BYTES * parameter_count(function)
}

// Whether a function divides by its parameter a.
#[tactic(auto, unfolding(curve_meaning::specs::Curve::divides))]
fn divides(function: FunctionType) -> bool
    ensures { result ≡ divides (type_number function) }
{
    matches!(function, FunctionType::Type1 | FunctionType::Type2)
}

// Parameter i, and 0 behind the last.
fn parameter(parameters: &[[u8; 4]], i: usize) -> u32
    ensures { result ≡ get_or (map number_of parameters.now) i 0 }
{
    match parameters.get(i) {
        Some(four) => u32::from_be_bytes(*four),
        None => 0,
    }
}

// The curve at the front of `bytes`, or why it is refused.
#[inline(always)]
#[tactic(auto, using(crate::proofs::Laws::same_test), unfolding(curve_meaning::specs::Curve::curve_of, curve_meaning::specs::Curve::curv_of, curve_meaning::specs::Curve::para_of, fields::specs::Tag::signature_of))]
fn find_curve(bytes: &[u8], limit: u64) -> Result<Found<'_>, Refusal>
    ensures { found_checked result ≡ curve_of limit bytes.now }
{
    if bytes.len() < TAG_SIZE as usize {
        return Err(Refusal::CurveRunsOut);
    }
    match fields::u32_at(bytes, InTag(SIGNATURE)) {
        Kind::CURV => {
            let entries = fields::u32_at(bytes, InTag(ENTRY_COUNT));
            if entries == 0 {
                return Ok(Found::Empty);
            }
            if limit < entries as u64 {
                return Err(Refusal::TooManyEntries);
            }
            // Half of what is behind the head is compared, because the entries' end can be a number of 34 bits.
            let room = (bytes.len() - DATA as usize) / 2;
            if room < entries as usize {
                return Err(Refusal::CurveRunsOut);
            }
            Ok(Found::Table(entries))
        }
        Kind::PARA => {
            let function = FunctionType::try_from(fields::u16_at(bytes, InTag(FUNCTION_TYPE)))?;
            let end = parameters_end(function) as usize;
            if bytes.len() < end {
                return Err(Refusal::CurveRunsOut);
            }
            let (parameters, _) = bytes[DATA as usize..end].as_chunks();
            if divides(function) && parameter(parameters, 1) == 0 {
                return Err(Refusal::ZeroDivision);
            }
            Ok(Found::Function(function, parameters))
        }
        _ => Err(Refusal::OtherCurve),
    }
}

// The record of a curve that is no function.
fn without_parameters(kind: CurveKind, start: u32, count: u32) -> CurveRecord
    ensures { words result ≡ record_of (kind_number kind) start count [] }
{
    CurveRecord {
        kind,
        start,
        count,
        g: 0,
        a: 0,
        b: 0,
        c: 0,
        d: 0,
        e: 0,
        f: 0,
    }
}

impl Found<'_> {
    // How far a walk goes on behind the curve.
    #[inline(always)]
    #[tactic(auto, unfolding(curve_meaning::specs::Shape::step_of, curve_meaning::specs::Shape::size_of))]
    fn step(self, walk: Walk) -> u64
        ensures { result ≡ step_of walk (shape_of self.entry) }
    {
        match self {
            Found::Empty => match walk {
                Walk::Crate => 0,
                Walk::Book => u64::from(DATA),
            },
            Found::Table(entries) => u64::from(DATA) + ENTRY_BYTES * u64::from(entries),
            Found::Function(function, _) => u64::from(parameters_end(function)),
        }
    }

    // The curve's record, whose data start there in the tag.
    #[inline(always)]
    #[tactic(auto, unfolding(curve_meaning::specs::Shape::words_of))]
    fn record(self, start: u32) -> CurveRecord
        ensures { words result ≡ words_of start (shape_of self.entry) }
    {
        match self {
            Found::Empty => without_parameters(CurveKind::Empty, start, 0),
            Found::Table(entries) => without_parameters(CurveKind::Table, start, entries),
            Found::Function(function, parameters) => CurveRecord {
                kind: CurveKind::Function(function),
                start,
                count: parameter_count(function),
                g: parameter(parameters, 0),
                a: parameter(parameters, 1),
                b: parameter(parameters, 2),
                c: parameter(parameters, 3),
                d: parameter(parameters, 4),
                e: parameter(parameters, 5),
                f: parameter(parameters, 6),
            },
        }
    }
}

// The curve at the front of `bytes`, which may hold more behind it: how far a walk goes on, and nothing else of it.
#[tactic(auto, unfolding(curve_meaning::specs::Answer::step_checked))]
pub fn judge_curve(bytes: &[u8], limit: u64, walk: Walk) -> Result<u64, Refusal>
    ensures { step_in_numbers result ≡ step_checked walk (curve_of limit bytes.now) }
{
    Ok(find_curve(bytes, limit)?.step(walk))
}

// The curve at the front of `bytes`, which may hold more behind it. `start` is where its data start in the tag, for the record.
#[tactic(auto, unfolding(curve_meaning::specs::Answer::answer_of))]
pub fn read_curve(bytes: &[u8], start: u32, limit: u64, walk: Walk) -> Result<CurveRead, Refusal>
    ensures { read_in_numbers result ≡ answer_of walk start (curve_of limit bytes.now) }
{
    let found = find_curve(bytes, limit)?;
    let consumed = found.step(walk);
    Ok(CurveRead {
        curve: found.record(start),
        consumed,
    })
}

// The curve at the front of `bytes`, as `read_curve` has it: its record goes in front of `slot`, and how far the walk goes on is answered.
// A slot of fewer than RECORD_WORDS words is refused.
#[tactic(auto, unfolding(curve_meaning::specs::Answer::step_checked, curve_meaning::specs::Answer::slot_with, curve_meaning::specs::Answer::in_slot))]
pub fn write_curve(
    bytes: &[u8],
    start: u32,
    limit: u64,
    walk: Walk,
    slot: &mut [u32],
) -> Result<u64, Refusal>
    ensures { StepAndSlot walk start (in_slot slot.old (curve_of limit bytes.now)) result slot.old slot.new }
{
    let Some(front) = slot.first_chunk_mut::<RECORD_WORDS>() else {
        return Err(Refusal::TooFewSlots);
    };
    let found = find_curve(bytes, limit)?;
    let step = found.step(walk);
    *front = <[u32; RECORD_WORDS]>::from(found.record(start));
    Ok(step)
}

// Whether a size is given and holds no curve.
fn is_too_small(size: u32) -> bool
    ensures { result ≡ leb 1 size && ltb size tag_size }
{
    0 < size && size < TAG_SIZE
}

// How many bytes a tag has: as its size says, or all that are left where that is 0.
fn tag_bytes(left: usize, size: u32) -> u64
    ensures { result ≡ cond (eqb size 0) left size }
{
    if size == 0 { left as u64 } else { size as u64 }
}

// The tone curve whose tag stands at `entry`, of `size` bytes, or up to the profile's end where the size is 0; a table may have
// `limit` entries. The Rust's read_trc_tag, whose read_size is `consumed` here.
pub fn read_trc_tag(
    profile: &[u8],
    entry: Entry,
    size: u32,
    limit: u64,
    walk: Walk,
) -> Result<Option<CurveRead>, Refusal>
    ensures { in_numbers result ≡ trc_of walk limit profile.now entry.0 size }
{
    let Some(signature) = fields::locate(profile, entry, InTag(SIGNATURE_END)) else {
        return Ok(None);
    };
    if is_too_small(size) {
        return Ok(None);
    }
    let bytes = tag_bytes(profile.len() - signature.start, size);
    let tag = fields::locate(profile, entry, InTag(bytes)).ok_or(Refusal::CurveRunsOut)?;
    let read = read_curve(&profile[tag.start..tag.end], TAG_SIZE, limit, walk)?;
    Ok(Some(read))
}
