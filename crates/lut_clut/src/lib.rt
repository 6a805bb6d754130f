// The colour table of an `mAB ` or `mBA ` tag: its shape. Carries over the CLUT part of read_lut_abm_type of moxcms. From its first byte it has
//
//    0 to 15  the grid points of each dimension, a byte each
//   16        the bytes of an entry, 1 or 2
//   17 to 19  reserved, 0
//   20 on     the entries
#![tactic(auto)]

ghost use Rattle.std.specs.Prelude.{◌≡◌, ◌*◌, min};
ghost use Rattle.lut_clut_meaning.specs.Answer.{in_numbers, answer_of};
ghost use Rattle.fields.specs.Some.{some};
ghost use Rattle.lut_clut_meaning.specs.Clut.{is_flat, clut_of};
ghost use Rattle.lut_clut.specs.Counts.{counts_of, Counted, DataRead};

use fields::{InTag, Refusal};
pub use lut_clut_meaning::ColourTable;

const GRID_BYTES: u8 = 16;

const ENTRY_SIZE: u64 = 16;

const ENTRIES: u64 = 20;

// The entries that a table may have, its output channels counted.
const MOST_ENTRIES: u32 = 10_000_000;

// The points of a grid and the entries on it.
#[derive(Clone, Copy)]
struct Counts {
    points: u32,
    entries: u32,
}

// How many of the sixteen grid bytes are in use: one for each input channel.
pub fn dimensions(inputs: u8) -> usize
    ensures { result ≡ min inputs 16 }
{
    usize::from(inputs.min(GRID_BYTES))
}

// The product of the grid bytes, in order, then the output channels, unless one on the way passes 32 bits.
fn count(grid: &[u8], outputs: u8) -> Option<Counts>
    ensures { result ≡ counts_of grid.now outputs }
{
    let mut points: u32 = 1;
    for &dimension in grid {
        points = points.checked_mul(u32::from(dimension))?;
    }
    let entries = points.checked_mul(u32::from(outputs))?;
    Some(Counts { points, entries })
}

// Whether a dimension is below 2.
fn has_flat(grid: &[u8]) -> bool
    ensures { result ≡ some is_flat grid.now }
{
    grid.iter().any(|&points| points < 2)
}

// The table of a grid that passed its checks: the bytes of an entry and the data. That the last point lies in it needs no
// check (`last_below` of `lut_clut_meaning`).
fn read_data(tag: &[u8], at: InTag, counts: Counts) -> Result<ColourTable, Refusal>
    requires { Counted tag.now at.0 counts.entries }
    ensures { DataRead tag.now at.0 counts (in_numbers result) }
{
    let entry_size = fields::u8_at(tag, InTag(at.0 + ENTRY_SIZE));
    if !(1..=2).contains(&entry_size) {
        return Err(Refusal::EntrySize);
    }
    let start = at.0 + ENTRIES;
    let length = counts.entries * u32::from(entry_size);
    if (tag.len() as u64) - start < u64::from(length) {
        return Err(Refusal::TagTooShort);
    }
    Ok(ColourTable {
        points: counts.points,
        start: InTag(start),
        length,
        entry_size,
    })
}

// The colour table at `at` of a tag with so many input and output channels. No sum wraps, whatever `at` is: the bytes in front of
// the entries are taken off the tag's length first.
pub fn read_clut(tag: &[u8], at: InTag, inputs: u8, outputs: u8) -> Result<ColourTable, Refusal>
    ensures { in_numbers result ≡ answer_of (clut_of tag.now at.0 inputs outputs) }
{
    let len = tag.len() as u64;
    if len < ENTRIES || len - ENTRIES < at.0 {
        return Err(Refusal::TagTooShort);
    }
    let from = at.0 as usize;
    let grid = &tag[from..from + dimensions(inputs)];
    let counts = count(grid, outputs).ok_or(Refusal::GridOverflow)?;
    if counts.entries == 0 {
        return Err(Refusal::GridZero);
    }
    if MOST_ENTRIES < counts.entries {
        return Err(Refusal::GridTooLarge);
    }
    if has_flat(grid) {
        return Err(Refusal::GridDimension);
    }
    read_data(tag, at, counts)
}
