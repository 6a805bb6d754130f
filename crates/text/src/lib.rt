// Text: read_string_tag of moxcms, for `text`, `desc` and `mluc`. Strings are answered as ranges of the tag, and never decoded.
// Profile, entry and size are handed in one by one, as moxcms does and docs/SCOPE.md says.
#![tactic(auto)]

mod cut;

ghost use Rattle.std.specs.Prelude.{◌≡◌, ◌^◌, ◌≤◌, ◌<◌, length, Some, Ok};
ghost use Rattle.fields.specs.Place.{counted_tag};
ghost use Rattle.text_meaning.specs.Answer.{in_numbers, unicode_from};
ghost use Rattle.text_meaning.specs.Text.{AnswerAndSlots, text_of, unicode_of, desc_of, by_type, string_of};

use fields::{Entry, InTag, Kind, Refusal, TAG_SIZE, Tag};
pub use text_meaning::{Description, Range, TextValue};
pub use text_mluc::TEXT_RECORD_WORDS;

// Every tag begins with its signature and four reserved bytes.
const SIGNATURE: u64 = 0;

const SIGNATURE_END: u32 = 4;

const HEAD_END: u32 = 8;

// textType, 'text'
//  8 on     ASCII string
const TEXT_START: u64 = 8;

// textDescriptionType, 'desc'
//  8 to 11  n, bytes of the ASCII string
// 12 on     ASCII string
// 12 + n    the Unicode part:
//           0 to 3  language
//           4 to 7  m, units of the Unicode string
//           8 on    Unicode string, 2m bytes
const ASCII_COUNT: u64 = 8;

const ASCII_START: u64 = 12;

const UNICODE_COUNT: u64 = 4;

const UNICODE_START: u64 = 8;

// `text`: the rest of the tag.
#[tactic(auto, using(crate::proofs::Laws::text_value))]
fn read_text(tag: Tag) -> TextValue
    requires { 8 ≤ length tag.bytes.now }
    ensures { in_numbers (Ok (Some result)) ≡ text_of tag.entry.bytes.now }
{
    let n = (tag.bytes.len() as u64 - TEXT_START) as u32;
    TextValue::Text(Range {
        start: InTag(TEXT_START),
        length: cut::kept::<cut::Bytes>(tag.bytes, InTag(TEXT_START), n),
    })
}

// A description without a Unicode string: the numbers of one that is not there are 0, as `nowhere` of text_meaning/specs/Answer.antt has them.
fn only_ascii(ascii: Range, language: u32) -> Description
    ensures { (result.ascii ≡ ascii) × (result.language ≡ language) × (result.unicode.start.0 ≡ 0) × (result.unicode.length ≡ 0) }
{
    Description {
        ascii,
        language,
        unicode: Range {
            start: InTag(0),
            length: 0,
        },
    }
}

// The Unicode part of `desc`, which stands at `at`, beside its ASCII string. The Rust's read_desc_unicode.
#[tactic(auto, using(crate::proofs::Laws::unicode_laws))]
fn read_desc_unicode(tag: Tag, at: InTag, ascii: Range) -> Description
    requires { at.0 < 2 ^ 33 }
    ensures { (result.ascii ≡ ascii) × (unicode_from result ≡ unicode_of tag.entry.bytes.now at.0) }
{
    let tag = tag.bytes;
    let n = fields::u32_at(tag, InTag(at.0 + UNICODE_COUNT));
    let start = at.0 + UNICODE_START;
    if (tag.len() as u64) < start + 2 * (n as u64) {
        return only_ascii(ascii, 0);
    }
    let language = fields::u32_at(tag, at);
    if n == 0 {
        return only_ascii(ascii, language);
    }
    let kept = cut::kept::<cut::Halves>(tag, InTag(start), n);
    Description {
        ascii,
        language,
        unicode: Range {
            start: InTag(start),
            length: 2 * kept,
        },
    }
}

// `desc`: an ASCII string, and a Unicode string behind it, which may be missing.
#[tactic(auto, using(crate::proofs::Laws::desc_laws))]
fn read_desc(tag: Tag) -> Result<Option<TextValue>, Refusal>
    ensures { in_numbers result ≡ desc_of tag.entry.bytes.now }
{
    let length = tag.bytes.len() as u64;
    if length < TAG_SIZE as u64 {
        return Err(Refusal::TagTooShort);
    }
    let n = fields::u32_at(tag.bytes, InTag(ASCII_COUNT));
    let end = ASCII_START + n as u64;
    if length < end {
        return Err(Refusal::TagTooShort);
    }
    let ascii = Range {
        start: InTag(ASCII_START),
        length: cut::kept::<cut::Bytes>(tag.bytes, InTag(ASCII_START), n),
    };
    Ok(Some(TextValue::Desc(read_desc_unicode(tag, InTag(end), ascii))))
}

// By the type of the tag.
#[tactic(auto, using(crate::proofs::Laws::kind_laws))]
fn read_kind(tag: Tag, slots: &mut [u32]) -> Result<Option<TextValue>, Refusal>
    requires { 8 ≤ length tag.bytes.now }
    ensures { AnswerAndSlots tag.entry.bytes.now (by_type tag.entry.bytes.now (length slots.old)) result slots.old slots.new }
{
    match fields::kind_at(tag.bytes, InTag(SIGNATURE)) {
        Kind::Text => Ok(Some(read_text(tag))),
        Kind::Mluc => text_mluc::read_mluc(tag.bytes, slots),
        Kind::Desc => read_desc(tag),
        _ => Ok(None),
    }
}

// The text whose tag stands at `entry`, of `size` bytes; a size of 0 counts as 12. The records of `mluc` go into `slots`,
// TEXT_RECORD_WORDS words each.
#[tactic(auto, using(crate::proofs::Laws::string_laws))]
pub fn read_string_tag(
    profile: &[u8],
    entry: Entry,
    size: u32,
    slots: &mut [u32],
) -> Result<Option<TextValue>, Refusal>
    ensures { AnswerAndSlots (counted_tag profile.now entry.0 size) (string_of profile.now entry.0 size (length slots.old)) result slots.old slots.new }
{
    let end = fields::counted_size(size);
    if end < SIGNATURE_END {
        return Ok(None);
    }
    let Some(tag) = fields::counted_tag(profile, entry, size) else {
        return Err(Refusal::PastProfile);
    };
    if end < HEAD_END {
        return Ok(None);
    }
    read_kind(tag, slots)
}
