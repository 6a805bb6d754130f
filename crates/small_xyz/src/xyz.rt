// `XYZ `: read_xyz_tag of moxcms, and an XYZNumber.
ghost use Rattle.std.specs.Prelude.{◌≡◌};
ghost use Rattle.fields.specs.Bytes.{words_at};
ghost use Rattle.small_meaning.specs.Answer.{xyz_numbers, xyz_in_numbers};
ghost use Rattle.small_meaning.specs.Small.{xyz_of};

use fields::{Entry, InTag, Kind, Refusal, TAG_SIZE};
use small_meaning::XyzNumber;

// XYZType, 'XYZ '
//  0 to  3  signature
//  4 to  7  reserved
//  8 on     XYZNumbers, 12 bytes each, of which the first is read
const FIRST: u32 = 8;

const FIRST_END: usize = 20;

// The three numbers from `at` on.
#[tactic(auto, using(crate::proofs::Laws::triple_is))]
pub(crate) fn xyz_at(tag: &[u8], at: u32) -> XyzNumber
    ensures { xyz_numbers result ≡ words_at tag.now at 3 }
{
    XyzNumber {
        x: fields::u32_at(tag, InTag(at as u64)),
        y: fields::u32_at(tag, InTag(at as u64 + 4)),
        z: fields::u32_at(tag, InTag(at as u64 + 8)),
    }
}

// The first XYZNumber of the tag at `entry`, of `size` bytes. Without a value three zeros are meant, which are not read from the profile.
#[tactic(auto, using(crate::proofs::Laws::xyz_laws), unfolding(fields::specs::Tag::signature_of))]
pub fn read_xyz_tag(profile: &[u8], entry: Entry, size: u32) -> Result<Option<XyzNumber>, Refusal>
    ensures { xyz_in_numbers result ≡ xyz_of profile.now entry.0 size }
{
    match small_order::find(profile, entry, size, TAG_SIZE, size, Kind::XYZ) {
        Ok(place) => {
            let tag = &profile[place.start..place.end];
            if tag.len() < FIRST_END {
                return Err(Refusal::TagTooShort);
            }
            Ok(Some(xyz_at(tag, FIRST)))
        }
        Err(why) => small_order::unfound(why),
    }
}
