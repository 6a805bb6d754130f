// What every reader stands on: big-endian numbers in a lent slice, the kinds of tag, the two kinds of offset, the refusals and
// the house defaults. Carries over tag.rs and helpers.rs of moxcms.
#![tactic(auto)]

ghost use Rattle.std.specs.Prelude.{◌≡◌, ◌+◌, ◌^◌, ◌<◌, ◌≤◌, ◌↔◌, length, get_or, IsSome, IfSome};
ghost use Rattle.fields.specs.Bytes.{u16_at, u32_at, words_at};
ghost use Rattle.fields.specs.House.{house_limits};
ghost use Rattle.fields.specs.Place.{place_of, counted_size, counted_tag};
ghost use Rattle.fields.specs.Refusals.{refusal_number};
ghost use Rattle.fields.specs.Tag.{kind_of};

// The shortest tag: a type signature, four reserved bytes and four more. The Rust's TAG_SIZE.
pub const TAG_SIZE: u32 = 12;

// House default: the entries that a tone curve may have.
pub const MAX_ALLOWED_TRC_SIZE: u64 = 4_096;

// House default: the grid points that a colour table of `mft1` or `mft2` may have.
pub const MAX_ALLOWED_CLUT_SIZE: u64 = 1_000_000;

// Limits of curve entries and of grid points.
#[derive(Clone, Copy)]
pub struct Limits {
    pub entries: u64,
    pub points: u64,
}

// An offset from the profile's first byte, as the tag table has it.
#[derive(Clone, Copy)]
pub struct Entry(pub u32);

// An offset from the tag's first byte. It has 64 bits, because the next multiple of 4 can pass 2^32.
#[derive(Clone, Copy)]
pub struct InTag(pub u64);

// Why a call is refused, each under the number by which users know it.
#[derive(Clone, Copy, Debug, PartialEq, Eq)]
pub enum Refusal {
    PastProfile = 1,
    TagTooShort = 2,
    OtherLut = 3,
    GridOverflow = 4,
    GridZero = 5,
    GridTooLarge = 6,
    GridDimension = 7,
    EntrySize = 8,
    OtherCurve = 9,
    TooManyEntries = 10,
    CurveRunsOut = 11,
    FunctionType = 12,
    ZeroDivision = 13,
    TooFewSlots = 14,
    BadTable = 15,
    GridOverLimit = 16,
    BadChad = 17,
    NoColourTable = 19,
}

impl From<Refusal> for u32 {
    ghost from_gives = { λ why n. n ≡ refusal_number why };

    fn from(why: Refusal) -> u32 {
        why as u32
    }
}

// The kind of a tag, by its type signature. The Rust's TagTypeDefinition.
#[derive(Clone, Copy, Debug, PartialEq, Eq)]
pub enum Kind {
    Curv,
    Para,
    Mft1,
    Mft2,
    Mab,
    Mba,
    Mluc,
    Desc,
    Text,
    Xyz,
    Sf32,
    Meas,
    View,
    Cicp,
    Sig,
    Dtim,
    Other,
}

impl Kind {
    pub const CURV: u32 = 0x63757276;

    pub const PARA: u32 = 0x70617261;

    pub const MFT1: u32 = 0x6d667431;

    pub const MFT2: u32 = 0x6d667432;

    pub const MAB: u32 = 0x6d414220;

    pub const MBA: u32 = 0x6d424120;

    pub const MLUC: u32 = 0x6d6c7563;

    pub const DESC: u32 = 0x64657363;

    pub const TEXT: u32 = 0x74657874;

    pub const XYZ: u32 = 0x58595a20;

    pub const SF32: u32 = 0x73663332;

    pub const MEAS: u32 = 0x6d656173;

    pub const VIEW: u32 = 0x76696577;

    pub const CICP: u32 = 0x63696370;

    pub const SIG: u32 = 0x73696720;

    pub const DTIM: u32 = 0x6474696d;
}

// The kind that four bytes name.
impl From<[u8; 4]> for Kind {
    ghost from_gives = { λ four kind. kind ≡ kind_of (u32_at four 0) };

    #[tactic(auto, using(crate::proofs::Signatures::named), unfolding(crate::specs::Tag::kind_of, crate::specs::Tag::kind_in, crate::specs::Tag::signature_of))]
    fn from(four: [u8; 4]) -> Kind {
        match u32::from_be_bytes(four) {
            Kind::CURV => Kind::Curv,
            Kind::PARA => Kind::Para,
            Kind::MFT1 => Kind::Mft1,
            Kind::MFT2 => Kind::Mft2,
            Kind::MAB => Kind::Mab,
            Kind::MBA => Kind::Mba,
            Kind::MLUC => Kind::Mluc,
            Kind::DESC => Kind::Desc,
            Kind::TEXT => Kind::Text,
            Kind::XYZ => Kind::Xyz,
            Kind::SF32 => Kind::Sf32,
            Kind::MEAS => Kind::Meas,
            Kind::VIEW => Kind::View,
            Kind::CICP => Kind::Cicp,
            Kind::SIG => Kind::Sig,
            Kind::DTIM => Kind::Dtim,
            _ => Kind::Other,
        }
    }
}

// Where the bytes of a tag lie in the profile: from `start`, and up to but not with `end`.
#[derive(Clone, Copy, Debug, PartialEq, Eq)]
pub struct Place {
    pub start: usize,
    pub end: usize,
}

// Where the tag's bytes before `end` lie, if the profile reaches so far. This is the only function that takes both kinds of offset.
pub fn locate(profile: &[u8], entry: Entry, end: InTag) -> Option<Place>
    ensures { result ≡ place_of (length profile.now) entry.0 end.0 }
{
    let from = entry.0 as usize;
    let size = end.0 as usize;
    if from <= profile.len() && size <= profile.len() - from {
        Some(Place {
            start: from,
            end: from + size,
        })
    } else {
        None
    }
}

// A size of 0 counts as 12, in lookup tables and text.
pub fn counted_size(size: u32) -> u32
    ensures { result ≡ counted_size size }
{
    if size == 0 { TAG_SIZE } else { size }
}

// The bytes of a tag. They are fewer than 2^32, since its size has 32 bits.
#[derive(Clone, Copy)]
pub struct Tag<'a> {
    pub bytes: &'a [u8],
    pub ghost short: { length bytes.now < 2 ^ 32 },
}

// The tag at `entry`, of `size` bytes, if the profile reaches so far; a size of 0 counts as 12.
pub fn counted_tag<'a>(profile: &'a [u8], entry: Entry, size: u32) -> Option<Tag<'a>>
    ensures tag { IfSome result (λ tag. tag.bytes.now ≡ counted_tag profile.now entry.0 size) }
    ensures inside { IsSome result ↔ (entry.0 + counted_size size ≤ length profile.now) }
{
    let place = locate(profile, entry, InTag(counted_size(size) as u64))?;
    Some(Tag {
        bytes: &profile[place.start..place.end],
    })
}

// Both house defaults.
pub fn house_limits() -> Limits
    ensures { result ≡ house_limits }
{
    Limits {
        entries: MAX_ALLOWED_TRC_SIZE,
        points: MAX_ALLOWED_CLUT_SIZE,
    }
}

// The byte `k` behind `at`, and 0 past the end. It is inlined, and so are the numbers of 32 bits: where a reader knows the length, no test is left.
#[inline(always)]
fn byte(s: &[u8], at: InTag, k: usize) -> u8
    ensures { result ≡ get_or s.now (at.0 + k) 0 }
{
    match (at.0 as usize).checked_add(k) {
        Some(i) => s.get(i).copied().unwrap_or(0),
        None => 0,
    }
}

// The byte at `at`, and 0 past the end.
pub fn u8_at(s: &[u8], at: InTag) -> u8
    ensures { result ≡ get_or s.now at.0 0 }
{
    s.get(at.0 as usize).copied().unwrap_or(0)
}

// The big-endian 16-bit number at `at`; bytes past the end count as 0.
pub fn u16_at(s: &[u8], at: InTag) -> u16
    ensures { result ≡ u16_at s.now at.0 }
{
    u16::from_be_bytes([byte(s, at, 0), byte(s, at, 1)])
}

// The big-endian 32-bit number `k` bytes behind `at`; bytes past the end count as 0.
#[inline(always)]
fn word(s: &[u8], at: InTag, k: usize) -> u32
    requires { k ≤ 32 }
    ensures { result ≡ u32_at s.now (at.0 + k) }
{
    u32::from_be_bytes([
        byte(s, at, k),
        byte(s, at, k + 1),
        byte(s, at, k + 2),
        byte(s, at, k + 3),
    ])
}

// The big-endian 32-bit number at `at`; bytes past the end count as 0.
#[inline(always)]
pub fn u32_at(s: &[u8], at: InTag) -> u32
    ensures { result ≡ u32_at s.now at.0 }
{
    word(s, at, 0)
}

// Nine numbers, each of 32 bits, all of whose bytes are there.
fn whole_nine(s: &[u8], from: usize) -> [u32; 9]
    requires { from + 36 ≤ length s.now }
    ensures { result ≡ words_at s.now from 9 }
{
    let mut words = [0; 9];
    for k in 0..9 {
        let at = from + 4 * k;
        words[k] = u32::from_be_bytes([s[at], s[at + 1], s[at + 2], s[at + 3]]);
    }
    words
}

// Nine numbers, each of 32 bits, from `at` on; bytes past the end count as 0. One function for both cost a lookup table half as much time again.
fn cut_nine(s: &[u8], at: InTag) -> [u32; 9]
    ensures { result ≡ words_at s.now at.0 9 }
{
    let mut words = [0; 9];
    for i in 0..9 {
        words[i] = word(s, at, 4 * i);
    }
    words
}

// The nine numbers of a matrix, each of 32 bits, from `at` on; bytes past the end count as 0.
pub fn nine_at(s: &[u8], at: InTag) -> [u32; 9]
    ensures { result ≡ words_at s.now at.0 9 }
{
    let from = at.0 as usize;
    if s.len() < from || s.len() - from < 36 {
        cut_nine(s, at)
    } else {
        whole_nine(s, from)
    }
}

// The kind that the four bytes at `at` name.
pub fn kind_at(s: &[u8], at: InTag) -> Kind
    ensures { result ≡ kind_of (u32_at s.now at.0) }
{
    Kind::from([
        byte(s, at, 0),
        byte(s, at, 1),
        byte(s, at, 2),
        byte(s, at, 3),
    ])
}
