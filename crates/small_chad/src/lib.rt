// `chad`: read_chad_tag of moxcms, the small reader whose order of checks is its own. A size of 0 is an ordinary size.
// Profile, entry and size are handed in one by one, as moxcms does and docs/SCOPE.md says.
#![tactic(auto)]

ghost use Rattle.std.specs.Prelude.{◌≡◌};
ghost use Rattle.small_meaning.specs.Answer.{matrix_numbers, chad_in_numbers};
ghost use Rattle.small_meaning.specs.Layout.{nine_numbers};
ghost use Rattle.small_meaning.specs.Small.{chad_of};

use fields::{Entry, InTag, Kind, Refusal};
pub use small_meaning::ChadMatrix;

// s15Fixed16ArrayType, 'sf32'
//  0 to  3  signature
//  4 to  7  reserved
//  8 to 43  nine numbers, row by row
const SIGNATURE: u64 = 0;

const NUMBERS: u32 = 8;

const END: usize = 44;

#[tactic(auto, unfolding(small_meaning::specs::Layout::nine_numbers))]
fn matrix_at(tag: &[u8]) -> ChadMatrix
    ensures { matrix_numbers result ≡ nine_numbers tag.now }
{
    let [e00, e01, e02, e10, e11, e12, e20, e21, e22] = fields::nine_at(tag, InTag(NUMBERS as u64));
    ChadMatrix {
        e00,
        e01,
        e02,
        e10,
        e11,
        e12,
        e20,
        e21,
        e22,
    }
}

// The chromatic adaptation matrix whose tag stands at `entry`, of `size` bytes. Of 44 to 47 bytes only 44 are no refusal.
#[tactic(auto, using(crate::proofs::Laws::chad_laws), unfolding(fields::specs::Tag::signature_of))]
pub fn read_chad_tag(profile: &[u8], entry: Entry, size: u32) -> Result<Option<ChadMatrix>, Refusal>
    ensures { chad_in_numbers result ≡ chad_of profile.now entry.0 size }
{
    let Some(place) = fields::locate(profile, entry, InTag(size as u64)) else {
        return Err(Refusal::PastProfile);
    };
    let Some(_) = fields::locate(profile, entry, InTag(NUMBERS as u64)) else {
        return Err(Refusal::PastProfile);
    };
    if size < NUMBERS {
        return Ok(None);
    }
    if (size - NUMBERS) / 4 != 9 {
        return Ok(None);
    }
    let tag = &profile[place.start..place.end];
    if fields::u32_at(tag, InTag(SIGNATURE)) != Kind::SF32 {
        return Err(Refusal::BadChad);
    }
    if tag.len() != END {
        return Err(Refusal::BadChad);
    }
    Ok(Some(matrix_at(tag)))
}
