// Lookup tables: read_lut_tag of moxcms.
#![tactic(auto)]

mod abm;
mod nested;

ghost use Rattle.std.specs.Prelude.{◌≡◌, length, ◌^◌, ◌<◌};
ghost use Rattle.fields.specs.Place.{counted_tag};
ghost use Rattle.lut_meaning.specs.Lut.{AnswerAndSlots, is_abm, by_type, lut_of};

use curve::Walk;
use fields::{Entry, InTag, Kind, Refusal};
pub use lut_meaning::{Abm, AbmTable, Lut};
pub use nested::RECORD_WORDS;

// The shortest tag of a lookup table.
const SHORTEST: u32 = 48;

// Whether the tag is `mAB ` or `mBA `.
fn is_abm(tag: &[u8]) -> bool
    ensures { result ≡ is_abm tag.now }
{
    let signature = fields::u32_at(tag, InTag(0));
    signature == Kind::MAB || signature == Kind::MBA
}

// By the type of the tag.
fn read_kind(
    tag: &[u8],
    limit: u64,
    points: u64,
    walk: Walk,
    slots: &mut [u32],
) -> Result<Option<Lut>, Refusal>
    requires { length tag.now < 2 ^ 32 }
    ensures { AnswerAndSlots walk limit tag.now (by_type walk limit points tag.now (length slots.old)) result slots.old slots.new }
{
    if lut_mft::is_mft(tag) {
        let mft = lut_mft::read_lut_a_to_b_type(tag, points)?;
        return Ok(Some(Lut::Mft(mft)));
    }
    if is_abm(tag) {
        return abm::read_lut_abm_type(tag, limit, walk, slots);
    }
    Err(Refusal::OtherLut)
}

// The lookup table whose tag stands at `entry`, of `size` bytes; a size of 0 counts as 12. A curve may have `limit` entries, and the grid
// of `mft1` and `mft2` so many `points`. The records of the curves of `mAB ` and `mBA ` go into `slots`, RECORD_WORDS words each, runs A, M
// and B one behind the other; for `mft1` and `mft2` the walk makes no difference.
pub fn read_lut_tag(
    profile: &[u8],
    entry: Entry,
    size: u32,
    limit: u64,
    points: u64,
    walk: Walk,
    slots: &mut [u32],
) -> Result<Option<Lut>, Refusal>
    ensures { AnswerAndSlots walk limit (counted_tag profile.now entry.0 size) (lut_of walk limit points profile.now entry.0 size (length slots.old)) result slots.old slots.new }
{
    let end = fields::counted_size(size);
    let place = fields::locate(profile, entry, InTag(u64::from(end))).ok_or(Refusal::PastProfile)?;
    if end < SHORTEST {
        return Err(Refusal::TagTooShort);
    }
    read_kind(&profile[place.start..place.end], limit, points, walk, slots)
}
