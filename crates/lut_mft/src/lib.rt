// `mft1` and `mft2`, the standard's lut8Type and lut16Type: read_lut_a_to_b_type of moxcms.
//
//    0 to  3  'mft1' (lut8Type) or 'mft2' (lut16Type)
//    4 to  7  reserved, 0
//    8        input channels
//    9        output channels
//   10        grid points of each dimension
//   11        reserved, 0
//   12 to 47  the matrix, nine numbers
//
//   lut8Type                             lut16Type
//   48 on     the tables, 1 byte         48 to 49  entries of the input table for each channel
//             an entry                   50 to 51  entries of the output table for each channel
//                                        52 on     the tables, 2 bytes an entry
//
// The tables are the input table, the colour table and the output table, one behind the other.
#![tactic(auto)]

ghost use Rattle.std.specs.Prelude.{◌≡◌, ◌*◌, ◌^◌, ◌≤◌};
ghost use Rattle.lut_clut_meaning.specs.Table.{points_of};
ghost use Rattle.lut_mft_meaning.specs.Answer.{in_numbers, state_from, answer_of};
ghost use Rattle.lut_mft_meaning.specs.Layout.{is_wide, is_mft, entries_at, entry_size_of, tables_start, colour_table};
ghost use Rattle.lut_mft_meaning.specs.Mft.{outside, bad_entries, bad_channels, bad_numbers, tables_of, numbers_of, mft_of};
ghost use Rattle.lut_mft.specs.Sized.{Sized};

use fields::{InTag, Kind, Refusal};
pub use lut_mft_meaning::{Mft, MftTable};

const INPUTS: InTag = InTag(8);

const OUTPUTS: InTag = InTag(9);

const GRID_POINTS: InTag = InTag(10);

const MATRIX: InTag = InTag(12);

const INPUT_ENTRIES: InTag = InTag(48);

const OUTPUT_ENTRIES: InTag = InTag(50);

const NARROW_TABLES: u32 = 48;

const WIDE_TABLES: u32 = 52;

// The shortest tag.
const SHORTEST: usize = 48;

// The entries for each channel of the input table and of the output table: those of `mft1`, and the most that a tag may have.
const NARROW_ENTRIES: u16 = 256;

const MOST_TABLE_ENTRIES: u16 = 4_096;

// Whether the tag is `mft2`.
fn is_wide(tag: &[u8]) -> bool
    ensures { result ≡ is_wide tag.now }
{
    fields::u32_at(tag, InTag(0)) == Kind::MFT2
}

// Whether the tag is `mft1` or `mft2`.
pub fn is_mft(tag: &[u8]) -> bool
    ensures { result ≡ is_mft tag.now }
{
    fields::u32_at(tag, InTag(0)) == Kind::MFT1 || is_wide(tag)
}

// How many entries a channel has in the table whose number of them stands at `at`; 256 in `mft1`.
fn entries(tag: &[u8], at: InTag) -> u16
    ensures { result ≡ entries_at tag.now at.0 }
{
    if is_wide(tag) {
        fields::u16_at(tag, at)
    } else {
        NARROW_ENTRIES
    }
}

fn entry_size(tag: &[u8]) -> u8
    ensures { result ≡ entry_size_of tag.now }
{
    if is_wide(tag) { 2 } else { 1 }
}

fn tables_start(tag: &[u8]) -> u32
    ensures { result ≡ tables_start tag.now }
{
    if is_wide(tag) {
        WIDE_TABLES
    } else {
        NARROW_TABLES
    }
}

// Two comparisons: with `contains` of a range the goal did not close.
fn is_outside(x: u16, low: u16, high: u16) -> bool
    ensures { result ≡ outside low x high }
{
    x < low || high < x
}

fn has_bad_entries(tag: &[u8]) -> bool
    ensures { result ≡ bad_entries tag.now }
{
    is_outside(entries(tag, INPUT_ENTRIES), 2, MOST_TABLE_ENTRIES)
        || is_outside(entries(tag, OUTPUT_ENTRIES), 2, MOST_TABLE_ENTRIES)
}

fn has_bad_channels(tag: &[u8]) -> bool
    ensures { result ≡ bad_channels tag.now }
{
    let inputs = fields::u8_at(tag, INPUTS);
    let outputs = fields::u8_at(tag, OUTPUTS);
    is_outside(u16::from(inputs), 1, 4)
        || is_outside(u16::from(outputs), 1, 4)
        || (inputs != 3 && outputs != 3)
}

// Whether a number is one that no table has: of entries, of channels or of grid points.
fn has_bad_numbers(tag: &[u8]) -> bool
    ensures { result ≡ bad_numbers tag.now }
{
    has_bad_entries(tag) || has_bad_channels(tag) || fields::u8_at(tag, GRID_POINTS) < 2
}

// The bytes of a table of so many values for each channel. Those of 255^4 points need 35 bits.
fn table_length(values: u32, channels: u8, size: u8) -> u64
    ensures { Sized (values * channels * size) result }
{
    u64::from(values) * u64::from(channels) * u64::from(size)
}

// The three tables of a tag with so many grid points, one behind the other.
fn find_tables(tag: &[u8], points: u32) -> Result<MftTable, Refusal>
    requires { points ≡ points_of (colour_table tag.now) }
    ensures { state_from result ≡ tables_of tag.now }
{
    let entry_size = entry_size(tag);
    let inputs = fields::u8_at(tag, INPUTS);
    let outputs = fields::u8_at(tag, OUTPUTS);
    let input_entries = entries(tag, INPUT_ENTRIES);
    let output_entries = entries(tag, OUTPUT_ENTRIES);
    let input_start = u64::from(tables_start(tag));
    let input_length = table_length(u32::from(input_entries), inputs, entry_size);
    let clut_length = table_length(points, outputs, entry_size);
    let output_length = table_length(u32::from(output_entries), outputs, entry_size);
    let clut_start = input_start + input_length;
    let output_start = clut_start + clut_length;
    if (tag.len() as u64) < output_start + output_length {
        return Err(Refusal::TagTooShort);
    }
    Ok(MftTable {
        entry_size,
        inputs,
        outputs,
        grid: fields::u8_at(tag, GRID_POINTS),
        input_entries,
        output_entries,
        input_start: InTag(input_start),
        input_length,
        clut_start: InTag(clut_start),
        clut_length,
        output_start: InTag(output_start),
        output_length,
    })
}

// The numbers of a tag long enough to hold them, then its tables. A grid byte to the power of at most four channels fits 32 bits.
fn read_numbers(tag: &[u8], limit: u64) -> Result<MftTable, Refusal>
    ensures { state_from result ≡ numbers_of limit tag.now }
{
    if has_bad_numbers(tag) {
        return Err(Refusal::BadTable);
    }
    let inputs = fields::u8_at(tag, INPUTS);
    let points = u32::from(fields::u8_at(tag, GRID_POINTS)).pow(u32::from(inputs));
    if limit < u64::from(points) {
        return Err(Refusal::GridOverLimit);
    }
    find_tables(tag, points)
}

fn read_type(tag: &[u8], limit: u64) -> Result<MftTable, Refusal>
    ensures { state_from result ≡ mft_of limit tag.now }
{
    if tag.len() < SHORTEST {
        return Err(Refusal::TagTooShort);
    }
    if !is_mft(tag) {
        return Err(Refusal::OtherLut);
    }
    if tag.len() < tables_start(tag) as usize {
        return Err(Refusal::TagTooShort);
    }
    read_numbers(tag, limit)
}

// The `mft1` or `mft2` tag whose bytes these are; its colour table may have `limit` grid points.
pub fn read_lut_a_to_b_type(tag: &[u8], limit: u64) -> Result<Mft, Refusal>
    ensures { in_numbers result ≡ answer_of tag.now (mft_of limit tag.now) }
{
    let table = read_type(tag, limit)?;
    let matrix = fields::nine_at(tag, MATRIX);
    Ok(Mft { table, matrix })
}
