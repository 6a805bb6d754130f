// Colours between the points of a colour table: of one pixel, and of a row.
ghost use Rattle.std.specs.Prelude.{length};
ghost use Rattle.evaluate_meaning.specs.Evaluate.{pixel_answer, pixel_after, row_answer, row_after};
ghost use Rattle.export_lut.specs.Layout.{numbers_in};
ghost use Rattle.export_evaluate.specs.Told.{GaveResults};

use crate::NO_ROOM;

// evaluate::evaluate, of the tag's own bytes and the words of its lookup table, as khalyksor_read_lut_tag gave them: `lut` is that `out`, with room
// for 37 words. A coordinate for each input channel, and a result for each output channel, in front of `results`; the rest of it stays. 19 without
// a colour table of as many inputs, 1 to 4, as there are coordinates, then 14 where `results` is too short, and 102 before both where `lut` is: all of
// `results` stays.
pub fn khalyksor_evaluate(tag: &[u8], lut: &[u64], coordinates: &[u16], results: &mut [u16]) -> u32
    ensures { GaveResults lut.now (pixel_answer tag.now (numbers_in lut.now) coordinates.now (length results.old)) (pixel_after tag.now (numbers_in lut.now) coordinates.now results.old) result results.old results.new }
{
    if lut.len() < export_lut::ABM.words {
        return NO_ROOM;
    }
    let numbers = export_lut::numbers_in(lut);
    let got = evaluate::evaluate(tag, numbers, coordinates, results);
    export_evaluate::tell_evaluation(got)
}

// evaluate::evaluate_row, the same of a row of pixels, whose coordinates and results stand pixel after pixel. 19 also where the coordinates are no
// whole number of pixels.
pub fn khalyksor_evaluate_row(
    tag: &[u8],
    lut: &[u64],
    coordinates: &[u16],
    results: &mut [u16],
) -> u32
    ensures { GaveResults lut.now (row_answer tag.now (numbers_in lut.now) coordinates.now (length results.old)) (row_after tag.now (numbers_in lut.now) coordinates.now results.old) result results.old results.new }
{
    if lut.len() < export_lut::ABM.words {
        return NO_ROOM;
    }
    let numbers = export_lut::numbers_in(lut);
    let got = evaluate::evaluate_row(tag, numbers, coordinates, results);
    export_evaluate::tell_evaluation(got)
}
