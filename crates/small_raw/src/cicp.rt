// `cicp`: read_cicp_tag of moxcms.
ghost use Rattle.std.specs.Prelude.{◌≡◌};
ghost use Rattle.small_meaning.specs.Answer.{code_numbers, cicp_in_numbers};
ghost use Rattle.small_meaning.specs.Layout.{code_points, full_range};
ghost use Rattle.small_meaning.specs.Small.{cicp_of};

use fields::{Entry, InTag, Kind, Refusal, TAG_SIZE};
use small_meaning::CicpCodes;

// The flag of the full range.
pub const FULL: u8 = 1;

// Whether the codes say full range. The Rust's full_range.
pub fn full_range(code: CicpCodes) -> bool
    ensures { result ≡ full_range code.range }
{
    code.range == FULL
}

// cicpType, 'cicp'
//  0 to  3  signature
//  4 to  7  reserved
//  8        colour primaries
//  9        transfer characteristics
// 10        matrix coefficients
// 11        video full range flag
const PRIMARIES: u64 = 8;

const TRANSFER: u64 = 9;

const MATRIX: u64 = 10;

const RANGE: u64 = 11;

#[tactic(auto, unfolding(small_meaning::specs::Layout::code_points, fields::specs::Bytes::bytes_at))]
fn codes_at(tag: &[u8]) -> CicpCodes
    ensures { code_numbers result ≡ code_points tag.now }
{
    CicpCodes {
        primaries: fields::u8_at(tag, InTag(PRIMARIES)),
        transfer: fields::u8_at(tag, InTag(TRANSFER)),
        matrix: fields::u8_at(tag, InTag(MATRIX)),
        range: fields::u8_at(tag, InTag(RANGE)),
    }
}

// The four code points of the tag at `entry`, of `size` bytes. No code is refused.
#[tactic(auto, using(small_meaning::proofs::Order::reader_laws), unfolding(fields::specs::Tag::signature_of))]
pub fn read_cicp_tag(profile: &[u8], entry: Entry, size: u32) -> Result<Option<CicpCodes>, Refusal>
    ensures { cicp_in_numbers result ≡ cicp_of profile.now entry.0 size }
{
    match small_order::find(profile, entry, size, TAG_SIZE, size, Kind::CICP) {
        Ok(place) => Ok(Some(codes_at(&profile[place.start..place.end]))),
        Err(why) => small_order::unfound(why),
    }
}
