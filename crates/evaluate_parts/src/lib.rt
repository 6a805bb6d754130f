// What an evaluation stands on, on numbers and lengths alone: the tests before it, and small parts.
#![tactic(auto)]

ghost use Rattle.std.specs.Prelude.{◌≡◌, ◌*◌, ltb, length};
ghost use Rattle.evaluate_meaning.specs.Evaluate.{odd_numbers};
ghost use Rattle.evaluate_parts.specs.Tests.{past_of, count_of, lift_of};

use lut_view_meaning::TableNumbers;

// Whether the numbers are of no table that can be evaluated.
#[tactic(auto, unfolding(evaluate_meaning::specs::Evaluate::odd_numbers))]
pub fn odd(numbers: TableNumbers) -> bool
    ensures { result ≡ odd_numbers numbers }
{
    numbers.inputs < 1
        || 4 < numbers.inputs
        || numbers.outputs < 1
        || numbers.entry_size < 1
        || 2 < numbers.entry_size
}

// Whether there are no entries, or they pass the tag.
#[tactic(auto, unfolding(crate::specs::Tests::past_of))]
pub fn past(tag: &[u8], start: u64, bytes: usize) -> bool
    ensures { result ≡ past_of bytes start (length tag.now) }
{
    let end = start.checked_add(bytes as u64);
    bytes == 0 || end.is_none_or(|end| (tag.len() as u64) < end)
}

// How many pixels of `inputs` coordinates, 1 to 4, so many coordinates are: by constants, since a 32-bit core has no division of 64-bit numbers.
#[tactic(auto, unfolding(crate::specs::Tests::count_of))]
pub fn pixels_in(coordinates: usize, inputs: u8) -> usize
    ensures { result ≡ count_of coordinates inputs }
{
    match inputs {
        1 => coordinates,
        2 => coordinates / 2,
        3 => coordinates / 3,
        4 => coordinates / 4,
        _ => 0,
    }
}

// Whether so many words are too few for the results of `count` pixels, a number that may pass 64 bits.
pub fn too_few(words: usize, count: usize, outputs: u8) -> bool
    ensures { result ≡ ltb words (count * outputs) }
{
    match count.checked_mul(outputs as usize) {
        Some(results) => words < results,
        None => true,
    }
}

// The bytes to the upper neighbour: none where the rest is 0.
#[tactic(auto, unfolding(crate::specs::Tests::lift_of))]
pub fn lift(rest: u32, stride: usize) -> usize
    ensures { result ≡ lift_of rest stride }
{
    if rest == 0 { 0 } else { stride }
}
