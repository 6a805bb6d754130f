// The order of checks that all small readers but `chad` share, and the bytes that it leads to.
#![tactic(auto)]

ghost use Rattle.std.specs.Prelude.{◌≡◌};
ghost use Rattle.small_meaning.specs.Order.{found_of, unfound_result};

use fields::{Entry, InTag, Place, Refusal};
use small_meaning::Unfound;

// Every tag begins with its signature.
const SIGNATURE: u64 = 0;

// Where the first `end` bytes of a tag of `size` bytes lie. A size under `least` is too short; then the bytes may lie past the profile; then
// the type may be another than `signature`.
#[tactic(auto, using(small_meaning::proofs::Order::find_laws))]
pub fn find(
    profile: &[u8],
    entry: Entry,
    size: u32,
    least: u32,
    end: u32,
    signature: u32,
) -> Result<Place, Unfound>
    ensures { result ≡ found_of least end signature profile.now entry.0 size }
{
    if size < least {
        return Err(Unfound::Short);
    }
    let Some(place) = fields::locate(profile, entry, InTag(end as u64)) else {
        return Err(Unfound::Past);
    };
    if fields::u32_at(&profile[place.start..place.end], InTag(SIGNATURE)) != signature {
        return Err(Unfound::Other);
    }
    Ok(place)
}

// What most readers answer where no tag is found: past the profile is a refusal, and else there is nothing to read.
pub fn unfound<T>(why: Unfound) -> Result<Option<T>, Refusal>
    ensures { result ≡ unfound_result why }
{
    match why {
        Unfound::Past => Err(Refusal::PastProfile),
        Unfound::Short | Unfound::Other => Ok(None),
    }
}
