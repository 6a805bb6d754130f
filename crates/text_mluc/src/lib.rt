// `mluc`: its records are judged first, and written once all are judged. The part of moxcms's read_string_tag for this type.
#![tactic(auto)]

ghost use Rattle.std.specs.Prelude.{◌≡◌, ◌++◌, ◌+◌, ◌*◌, ◌≤◌, length, drop};
ghost use Rattle.std.proofs.lemmas.List.Edits.{sets};
ghost use Rattle.text_meaning.specs.Mluc.{whole, record_at, records_from, records_asked, text_record_words, placed_words, words_in};
ghost use Rattle.text_meaning.specs.Text.{AnswerAndSlots, slotted_of, mluc_of};
ghost use Rattle.text_mluc.specs.Items.{record_from, seen_from, end_from};

use fields::{InTag, Refusal};
use text_meaning::TextValue;

// multiLocalizedUnicodeType, 'mluc'
//  8 to 11  number of records
// 12 to 15  size of a record
// 16 on     the records, 12 bytes each:
//           0 to  1  language
//           2 to  3  country
//           4 to  7  length of the string, in bytes
//           8 to 11  offset of the string in the tag
const RECORD_COUNT: u64 = 8;

const RECORDS: u64 = 16;

const RECORD_SIZE: u64 = 12;

const COUNTRY: u64 = 2;

const STRING_LENGTH: u64 = 4;

const STRING_OFFSET: u64 = 8;

// The words of a record, and so of a slot.
pub const TEXT_RECORD_WORDS: usize = 4;

// A string of `mluc`: language and country, two bytes each, and its range of the tag.
#[derive(Clone, Copy)]
pub(crate) struct TextRecord {
    language: u32,
    country: u32,
    start: u32,
    length: u32,
}

// Why a record cannot be read: its header is past the tag, or its string.
#[derive(Clone, Copy)]
pub(crate) enum Fault {
    Header,
    String,
}

// Record k.
#[tactic(auto, using(crate::proofs::Records::record_laws))]
fn read_record(tag: &[u8], k: u32) -> Result<TextRecord, Fault>
    ensures { seen_from result ≡ record_at tag.now k }
{
    let at = RECORDS + RECORD_SIZE * (k as u64);
    if (tag.len() as u64) < at + RECORD_SIZE {
        return Err(Fault::Header);
    }
    let length = fields::u32_at(tag, InTag(at + STRING_LENGTH));
    let start = fields::u32_at(tag, InTag(at + STRING_OFFSET));
    if (tag.len() as u64) < start as u64 + length as u64 {
        return Err(Fault::String);
    }
    Ok(TextRecord {
        language: fields::u16_at(tag, InTag(at)) as u32,
        country: fields::u16_at(tag, InTag(at + COUNTRY)) as u32,
        start,
        length: length / 2 * 2,
    })
}

// Judges n records, and writes nothing. It ends at the first header past the tag, however many are asked for.
#[tactic(auto, using(crate::proofs::Records::judge_laws))]
fn check_records(tag: &[u8], n: u32) -> Result<(), Fault>
    ensures { end_from result ≡ (records_from tag.now 0 n).end }
{
    for k in 0..n {
        read_record(tag, k)?;
    }
    Ok(())
}

// Writes a record's words from a word on. Tried as an array and copy_from_slice: 500 records took 2,550 ns for 1,734.
fn put(slots: &mut [u32], at: usize, r: TextRecord)
    requires { at + text_record_words ≤ length slots.old }
    ensures { slots.new ≡ sets slots.old at (placed_words (record_from r)) }
{
    slots[at] = r.language;
    slots[at + 1] = r.country;
    slots[at + 2] = r.start;
    slots[at + 3] = r.length;
}

// Writes n records that were judged whole, from the first slot on.
#[tactic(auto, using(crate::proofs::Records::write_laws))]
fn write_records(tag: &[u8], n: u32, slots: &mut [u32])
    requires { ((records_from tag.now 0 n).end ≡ whole) × (n * text_record_words ≤ length slots.old) }
    ensures { slots.new ≡ words_in (records_from tag.now 0 n).records ++ drop (n * text_record_words) slots.old }
{
    for k in 0..n {
        let Ok(record) = read_record(tag, k) else {
            return;
        };
        put(slots, k as usize * TEXT_RECORD_WORDS, record);
    }
}

// How many records are read: the first one always.
#[tactic(auto, using(crate::proofs::Records::asked_one, crate::proofs::Records::asked_count))]
fn records_asked(tag: &[u8]) -> u32
    ensures { result ≡ records_asked tag.now }
{
    let n = fields::u32_at(tag, InTag(RECORD_COUNT));
    if n == 0 { 1 } else { n }
}

// Writes n records that were judged whole, if the slots suffice, and answers.
#[tactic(auto, using(crate::proofs::Laws::mluc_laws))]
fn write_all(tag: &[u8], n: u32, slots: &mut [u32]) -> Result<Option<TextValue>, Refusal>
    requires { (n ≡ records_asked tag.now) × ((records_from tag.now 0 n).end ≡ whole) }
    ensures { AnswerAndSlots tag.now (slotted_of n (length slots.old)) result slots.old slots.new }
{
    if slots.len() / TEXT_RECORD_WORDS < n as usize {
        return Err(Refusal::TooFewSlots);
    }
    write_records(tag, n, slots);
    Ok(Some(TextValue::Mluc { records: n }))
}

// The records of the tag.
#[tactic(auto, using(crate::proofs::Laws::mluc_laws))]
pub fn read_mluc(tag: &[u8], slots: &mut [u32]) -> Result<Option<TextValue>, Refusal>
    ensures { AnswerAndSlots tag.now (mluc_of tag.now (length slots.old)) result slots.old slots.new }
{
    let n = records_asked(tag);
    match check_records(tag, n) {
        Ok(()) => write_all(tag, n, slots),
        Err(Fault::Header) => Err(Refusal::TagTooShort),
        Err(Fault::String) => Ok(None),
    }
}
