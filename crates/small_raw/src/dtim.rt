// `dtim`: read_date_time_tag of moxcms.
ghost use Rattle.std.specs.Prelude.{◌≡◌};
ghost use Rattle.small_meaning.specs.Answer.{date_in_numbers};
ghost use Rattle.small_meaning.specs.Layout.{date_bytes};
ghost use Rattle.small_meaning.specs.Small.{date_of};

use fields::{Entry, InTag, Kind, Refusal};

// dateTimeType, 'dtim'
//  0 to  3  signature
//  4 to  7  reserved
//  8 to 19  the date and time, six numbers of 2 bytes each
const END: u32 = 20;

// Tried as a copy of the part: 13.0 ns a call for 10.2.
#[tactic(auto, unfolding(small_meaning::specs::Layout::date_bytes, fields::specs::Bytes::bytes_at))]
fn bytes_at(tag: &[u8]) -> [u8; 12]
    ensures { result ≡ date_bytes tag.now }
{
    [
        fields::u8_at(tag, InTag(8)),
        fields::u8_at(tag, InTag(9)),
        fields::u8_at(tag, InTag(10)),
        fields::u8_at(tag, InTag(11)),
        fields::u8_at(tag, InTag(12)),
        fields::u8_at(tag, InTag(13)),
        fields::u8_at(tag, InTag(14)),
        fields::u8_at(tag, InTag(15)),
        fields::u8_at(tag, InTag(16)),
        fields::u8_at(tag, InTag(17)),
        fields::u8_at(tag, InTag(18)),
        fields::u8_at(tag, InTag(19)),
    ]
}

// For a date tag at `entry`, of `size` bytes, what the Rust takes for its date: bytes 8 to 19 of the profile, as if the tag stood at its front.
#[tactic(auto, using(small_meaning::proofs::Order::reader_laws), unfolding(fields::specs::Tag::signature_of))]
pub fn read_date_time_tag(
    profile: &[u8],
    entry: Entry,
    size: u32,
) -> Result<Option<[u8; 12]>, Refusal>
    ensures { date_in_numbers result ≡ date_of profile.now entry.0 size }
{
    match small_order::find(profile, entry, size, END, size, Kind::DTIM) {
        Ok(_) => Ok(Some(bytes_at(&profile[..END as usize]))),
        Err(why) => small_order::unfound(why),
    }
}
