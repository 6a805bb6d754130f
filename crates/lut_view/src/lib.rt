// A view of the colour table of a lookup table: it keeps the lent tag and plain numbers, and one entry is read at a grid index. The work
// is in `entry_at`, which takes the tag and the numbers apart from each other. Where the grid bytes stand:
//
//   mft1, mft2   byte 10 is the grid points of every dimension, so each next grid byte is the same one
//   mAB , mBA    16 grid bytes, one a dimension, the bytes of an entry and 3 reserved, then the entries
#![tactic(auto)]

ghost use Rattle.std.specs.Prelude.{◌≡◌, ◌+◌, ◌*◌, ◌-◌};
ghost use Rattle.lut_meaning.specs.Answer.{state_from};
ghost use Rattle.lut_view_meaning.specs.Answer.{in_numbers};
ghost use Rattle.lut_view_meaning.specs.View.{clut_head, numbers_of, grid_from, table_by, entry_from, entry_of};
ghost use Rattle.lut_view.specs.Point.{point_at};

use fields::{InTag, Refusal};
use lut_meaning::Lut;
use lut_view_meaning::NO_NUMBERS;
pub use lut_view_meaning::{TableNumbers, TableView};

// Where the one grid byte of `mft1` and `mft2` stands, and the step from it to the next.
const MFT_GRID: u64 = 10;

const MFT_STEP: u8 = 0;

// How far before the entries those of `mAB ` and `mBA ` stand, and their step.
const CLUT_HEAD: u64 = 20;

const CLUT_STEP: u8 = 1;

// The grid bytes of a colour table of `mAB ` and `mBA `, by where its entries start.
fn grid_before(start: InTag) -> InTag
    ensures { result.0 ≡ start.0 - clut_head }
{
    InTag(start.0.saturating_sub(CLUT_HEAD))
}

// The numbers of the colour table of an answer.
#[tactic(auto, using(crate::proofs::Laws::number_laws))]
pub fn numbers_of(answer: Result<Option<Lut>, Refusal>) -> TableNumbers
    ensures { result ≡ numbers_of (state_from answer) }
{
    match answer {
        Ok(Some(Lut::Mft(mft))) => {
            let table = mft.table;
            TableNumbers {
                start: table.clut_start,
                entry_size: table.entry_size,
                inputs: table.inputs,
                outputs: table.outputs,
                grid_at: InTag(MFT_GRID),
                grid_step: MFT_STEP,
            }
        }
        Ok(Some(Lut::Abm(abm))) => {
            let table = abm.table;
            TableNumbers {
                start: table.clut_start,
                entry_size: table.entry_size,
                inputs: table.inputs,
                outputs: table.outputs,
                grid_at: grid_before(table.clut_start),
                grid_step: CLUT_STEP,
            }
        }
        Ok(None) => NO_NUMBERS,
        Err(_) => NO_NUMBERS,
    }
}

// The point that an index names, the first coordinate the slowest, on a grid of n bytes. No table has 2^32 points.
fn point_at(tag: &[u8], at: InTag, step: u8, n: usize, index: &[u8]) -> Option<u32>
    ensures { result ≡ point_at (grid_from tag.now at.0 step n) index.now }
{
    if index.len() != n {
        return None;
    }
    let mut point: u32 = 0;
    let mut next = at.0;
    for &coordinate in index {
        let points = fields::u8_at(tag, InTag(next));
        if points <= coordinate {
            return None;
        }
        let before = point.checked_mul(u32::from(points))?;
        point = before.checked_add(u32::from(coordinate))?;
        next += u64::from(step);
    }
    Some(point)
}

// Entry `number` of those of the table that the numbers tell of, if an entry has one byte or two and this one lies in the tag.
pub fn entry_by_number(tag: &[u8], numbers: TableNumbers, number: u64) -> Option<u16>
    ensures { in_numbers result ≡ entry_from tag.now numbers.start.0 numbers.entry_size number }
{
    let start = numbers.start;
    let size = numbers.entry_size;
    if !(1..=2).contains(&size) {
        return None;
    }
    let room = (tag.len() as u64).checked_sub(start.0)?;
    let before = number.checked_mul(u64::from(size))?;
    if room < before.checked_add(u64::from(size))? {
        return None;
    }
    let at = InTag(start.0 + before);
    if size == 1 {
        return Some(u16::from(fields::u8_at(tag, at)));
    }
    Some(fields::u16_at(tag, at))
}

// The entry of a grid index and an output channel, of the table that the numbers tell of.
pub fn entry_at(tag: &[u8], numbers: TableNumbers, index: &[u8], channel: u8) -> Option<u16>
    ensures { in_numbers result ≡ entry_of tag.now (table_by tag.now numbers) index.now channel }
{
    let n = lut_clut::dimensions(numbers.inputs);
    let point = point_at(tag, numbers.grid_at, numbers.grid_step, n, index)?;
    if numbers.outputs <= channel {
        return None;
    }
    let number = u64::from(point) * u64::from(numbers.outputs) + u64::from(channel);
    entry_by_number(tag, numbers, number)
}

// The view of a tag and of the numbers of its answer. This and `look_up` stay functions, and not methods of the view: the pages and the
// cited clauses name them.
pub fn view_of<'a>(tag: &'a [u8], numbers: TableNumbers) -> TableView<'a>
    ensures { (result.tag ≡ tag.entry) × (result.numbers ≡ numbers) }
{
    TableView { tag, numbers }
}

// The entry of a grid index and an output channel, of the table that the view shows.
pub fn look_up<'a, 'b>(view: TableView<'a>, index: &'b [u8], channel: u8) -> Option<u16>
    ensures { in_numbers result ≡ entry_of view.entry.tag.now (table_by view.entry.tag.now view.entry.numbers) index.now channel }
{
    entry_at(view.tag, view.numbers, index, channel)
}
