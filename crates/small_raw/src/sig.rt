// `sig `: read_tech_tag of moxcms.
ghost use Rattle.std.specs.Prelude.{◌≡◌};
ghost use Rattle.small_meaning.specs.Answer.{sig_in_numbers};
ghost use Rattle.small_meaning.specs.Small.{sig_of};

use fields::{Entry, InTag, Kind, Refusal, TAG_SIZE};
use small_meaning::Unfound;

// signatureType, 'sig '
//  0 to  3  signature of the type
//  4 to  7  reserved
//  8 to 11  the signature
const VALUE: u64 = 8;

// The signature in the tag at `entry`, of `size` bytes. Too short comes before past the profile.
#[tactic(auto, using(small_meaning::proofs::Order::reader_laws), unfolding(fields::specs::Tag::signature_of, small_meaning::specs::Layout::signature_in))]
pub fn read_tech_tag(profile: &[u8], entry: Entry, size: u32) -> Result<Option<u32>, Refusal>
    ensures { sig_in_numbers result ≡ sig_of profile.now entry.0 size }
{
    match small_order::find(profile, entry, size, TAG_SIZE, size, Kind::SIG) {
        Ok(place) => Ok(Some(fields::u32_at(&profile[place.start..place.end], InTag(VALUE)))),
        Err(Unfound::Short) => Err(Refusal::TagTooShort),
        Err(Unfound::Past) => Err(Refusal::PastProfile),
        Err(Unfound::Other) => Ok(None),
    }
}
