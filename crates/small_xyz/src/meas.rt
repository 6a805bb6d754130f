// `meas`: read_meas_tag of moxcms.
ghost use Rattle.std.specs.Prelude.{◌≡◌};
ghost use Rattle.small_meaning.specs.Answer.{measurement_numbers, meas_in_numbers};
ghost use Rattle.small_meaning.specs.Layout.{measurement};
ghost use Rattle.small_meaning.specs.Small.{meas_of};

use crate::xyz::xyz_at;
use fields::{Entry, InTag, Kind, Refusal, TAG_SIZE};
use small_meaning::Measurement;

// measurementType, 'meas'
//  0 to  3  signature
//  4 to  7  reserved
//  8 to 11  standard observer
// 12 to 23  backing, an XYZNumber
// 24 to 27  geometry
// 28 to 31  flare
// 32 to 35  standard illuminant
const OBSERVER: u64 = 8;

const BACKING: u32 = 12;

const GEOMETRY: u64 = 24;

const FLARE: u64 = 28;

const ILLUMINANT: u64 = 32;

const END: u64 = 36;

#[tactic(auto, using(crate::proofs::Laws::measurement_is))]
fn measurement_at(bytes: &[u8]) -> Measurement
    ensures { measurement_numbers result ≡ measurement bytes.now }
{
    Measurement {
        observer: fields::u32_at(bytes, InTag(OBSERVER)),
        backing: xyz_at(bytes, BACKING),
        geometry: fields::u32_at(bytes, InTag(GEOMETRY)),
        flare: fields::u32_at(bytes, InTag(FLARE)),
        illuminant: fields::u32_at(bytes, InTag(ILLUMINANT)),
    }
}

// The measurement whose tag stands at `entry`, of `size` bytes. As in the Rust 36 bytes are read, those of a tag of 12 to 35 bytes past its
// size.
#[tactic(auto, using(crate::proofs::Laws::meas_laws), unfolding(fields::specs::Tag::signature_of))]
pub fn read_meas_tag(
    profile: &[u8],
    entry: Entry,
    size: u32,
) -> Result<Option<Measurement>, Refusal>
    ensures { meas_in_numbers result ≡ meas_of profile.now entry.0 size }
{
    match small_order::find(profile, entry, size, TAG_SIZE, size, Kind::MEAS) {
        Ok(_) => {
            let Some(place) = fields::locate(profile, entry, InTag(END)) else {
                return Err(Refusal::PastProfile);
            };
            Ok(Some(measurement_at(&profile[place.start..place.end])))
        }
        Err(why) => small_order::unfound(why),
    }
}
