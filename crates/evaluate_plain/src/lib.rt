// The colour of one pixel by the plain rule, which calls itself dimension by dimension. It reads the table by the promises of the view alone.
//
// Numbers are widened by `as`: what `From` answers is a name of its own, and the proofs of the products and sums did not close on it.
#![tactic(auto)]

ghost use Rattle.std.specs.Prelude.{◌≡◌, ◌≤◌};
ghost use Rattle.lut_view_meaning.specs.View.{grid_from, table_by};
ghost use Rattle.evaluate_meaning.specs.Colour.{blend};
ghost use Rattle.evaluate_meaning.specs.Evaluate.{outside, Evaluated};
ghost use Rattle.evaluate_plain.specs.Parts.{Points, Placed, sample_of, InTable, grid_for, value_of, Room};

use fields::{InTag, Refusal};
use lut_view_meaning::TableNumbers;

// The greatest coordinate, and the parts of the way from point to point in which positions are told.
const WHOLE: u32 = 65535;

// What rounds a quotient by it to the nearest.
const HALF: u32 = 32767;

// What one byte is widened by: 255 becomes 65535.
const WIDENED: u16 = 257;

// The points of the dimensions that are left, and 0 where one is below 2.
fn points(tag: &[u8], at: InTag, step: u8, left: u8) -> u64
    requires { left ≤ 4 }
    ensures { Points (grid_from tag.now at.0 step left) left result }
{
    if left == 0 {
        return 1;
    }
    let here = fields::u8_at(tag, at);
    if here < 2 {
        return 0;
    }
    let behind = points(tag, InTag(at.0 + step as u64), step, left - 1);
    here as u64 * behind
}

// Whether a dimension is below 2, or the entries pass the tag.
fn passes(tag: &[u8], numbers: TableNumbers) -> bool
    requires { numbers.inputs ≤ 4 }
    ensures { result ≡ outside tag.now (table_by tag.now numbers) }
{
    let start = numbers.start;
    let grid_at = numbers.grid_at;
    let points = points(tag, grid_at, numbers.grid_step, numbers.inputs);
    if points == 0 {
        return true;
    }
    let len = tag.len() as u64;
    if len < start.0 {
        return true;
    }
    len - start.0 < points * numbers.outputs as u64 * numbers.entry_size as u64
}

// The point of a dimension at a position or below it, and the rest of the way to the next one.
#[derive(Clone, Copy)]
struct Cell {
    lower: u64,
    rest: u16,
}

// Where a coordinate lies in a dimension of so many points.
fn cell_of(points: u8, coordinate: u16) -> Cell
    requires { 2 ≤ points }
    ensures { Placed points coordinate result.lower result.rest }
{
    let position = coordinate as u32 * (points as u32 - 1);
    Cell {
        lower: (position / WHOLE) as u64,
        rest: (position % WHOLE) as u16,
    }
}

// Two neighbours and a rest, rounded to the nearest.
fn blended(low: u16, high: u16, rest: u16) -> u16
    ensures { result ≡ blend low high rest }
{
    let sum = low as u32 * (WHOLE - rest as u32) + high as u32 * rest as u32;
    ((sum + HALF) / WHOLE) as u16
}

// The entry of a number, one of one byte widened.
fn corner(tag: &[u8], numbers: TableNumbers, number: u64) -> u16
    requires { InTable tag.now numbers number }
    ensures { result ≡ sample_of tag.now numbers number }
{
    let Some(entry) = lut_view::entry_by_number(tag, numbers, number) else {
        return 0;
    };
    if numbers.entry_size == 1 {
        return entry * WIDENED;
    }
    entry
}

// The colour behind a grid point of the dimensions before: with a coordinate for each dimension that is left, the blend of the colours behind
// the two points of the next one that the coordinate lies between, or the colour behind the lower one alone where the rest is 0.
fn value(
    tag: &[u8],
    numbers: TableNumbers,
    at: InTag,
    coordinates: &[u16],
    point: u64,
    channel: u8,
) -> u16
    requires { Room tag.now numbers at.0 coordinates.now point channel }
    ensures { result ≡ value_of tag.now numbers (grid_for tag.now numbers at.0 coordinates.now) coordinates.now point channel }
{
    if coordinates.len() == 0 {
        return corner(
            tag,
            numbers,
            point * numbers.outputs as u64 + channel as u64,
        );
    }
    let points = fields::u8_at(tag, at);
    let cell = cell_of(points, coordinates[0]);
    let lower = point * points as u64 + cell.lower;
    let next = InTag(at.0 + numbers.grid_step as u64);
    let behind = &coordinates[1..];
    let low = value(tag, numbers, next, behind, lower, channel);
    if cell.rest == 0 {
        return low;
    }
    let high = value(tag, numbers, next, behind, lower + 1, channel);
    blended(low, high, cell.rest)
}

// The colour of one pixel, dimension by dimension: a result for each output channel, in front of the lent buffer. Refused without a table of 1
// to 4 inputs in the tag and a coordinate for each of them, and then with too small a buffer, which stays as it was.
pub fn evaluate_by_recursion(
    tag: &[u8],
    numbers: TableNumbers,
    coordinates: &[u16],
    results: &mut [u16],
) -> Result<usize, Refusal>
    ensures { Evaluated tag.now numbers coordinates.now results.old result results.new }
{
    if evaluate_parts::odd(numbers) {
        return Err(Refusal::NoColourTable);
    }
    if passes(tag, numbers) {
        return Err(Refusal::NoColourTable);
    }
    if coordinates.len() != numbers.inputs as usize {
        return Err(Refusal::NoColourTable);
    }
    let outputs = numbers.outputs as usize;
    if results.len() < outputs {
        return Err(Refusal::TooFewSlots);
    }
    let grid_at = numbers.grid_at;
    for channel in 0..numbers.outputs {
        results[channel as usize] = value(tag, numbers, grid_at, coordinates, 0, channel);
    }
    Ok(outputs)
}
