// `view`: read_viewing_conditions of moxcms.
ghost use Rattle.std.specs.Prelude.{◌≡◌};
ghost use Rattle.small_meaning.specs.Answer.{viewing_numbers, view_in_numbers};
ghost use Rattle.small_meaning.specs.Layout.{conditions};
ghost use Rattle.small_meaning.specs.Small.{view_of};

use crate::xyz::xyz_at;
use fields::{Entry, InTag, Kind, Refusal};
use small_meaning::ViewingConditions;

// viewingConditionsType, 'view'
//  0 to  3  signature
//  4 to  7  reserved
//  8 to 19  illuminant, an XYZNumber
// 20 to 31  surround, an XYZNumber
// 32 to 35  illuminant type
const ILLUMINANT: u32 = 8;

const SURROUND: u32 = 20;

const ILLUMINANT_TYPE: u64 = 32;

const END: u32 = 36;

#[tactic(auto, using(crate::proofs::Laws::conditions_are))]
fn conditions_at(bytes: &[u8]) -> ViewingConditions
    ensures { viewing_numbers result ≡ conditions bytes.now }
{
    ViewingConditions {
        illuminant: xyz_at(bytes, ILLUMINANT),
        surround: xyz_at(bytes, SURROUND),
        number: fields::u32_at(bytes, InTag(ILLUMINANT_TYPE)),
    }
}

// The viewing conditions whose tag stands at `entry`. Its first 36 bytes are read; where `size` says that it ends is not looked at.
#[tactic(auto, using(small_meaning::proofs::Order::reader_laws), unfolding(fields::specs::Tag::signature_of))]
pub fn read_viewing_conditions(
    profile: &[u8],
    entry: Entry,
    size: u32,
) -> Result<Option<ViewingConditions>, Refusal>
    ensures { view_in_numbers result ≡ view_of profile.now entry.0 size }
{
    match small_order::find(profile, entry, size, END, END, Kind::VIEW) {
        Ok(place) => Ok(Some(conditions_at(&profile[place.start..place.end]))),
        Err(why) => small_order::unfound(why),
    }
}
