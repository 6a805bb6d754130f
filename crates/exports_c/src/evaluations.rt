// Colours between the points of a colour table: of one pixel, and of a row.
ghost use Rattle.std.specs.Prelude.{length};
ghost use Rattle.evaluate_meaning.specs.Evaluate.{pixel_answer, pixel_after, row_answer, row_after};
ghost use Rattle.export_lut.specs.Layout.{numbers_in};
ghost use Rattle.export_evaluate.specs.Told.{GaveResults};

// exports::khalyksor_evaluate.
#[unsafe(no_mangle)]
pub extern "C" fn khalyksor_evaluate(
    tag: &[u8],
    lut: &[u64],
    coordinates: &[u16],
    results: &mut [u16],
) -> u32
    ensures { GaveResults lut.now (pixel_answer tag.now (numbers_in lut.now) coordinates.now (length results.old)) (pixel_after tag.now (numbers_in lut.now) coordinates.now results.old) result results.old results.new }
{
    exports::khalyksor_evaluate(tag, lut, coordinates, results)
}

// exports::khalyksor_evaluate_row.
#[unsafe(no_mangle)]
pub extern "C" fn khalyksor_evaluate_row(
    tag: &[u8],
    lut: &[u64],
    coordinates: &[u16],
    results: &mut [u16],
) -> u32
    ensures { GaveResults lut.now (row_answer tag.now (numbers_in lut.now) coordinates.now (length results.old)) (row_after tag.now (numbers_in lut.now) coordinates.now results.old) result results.old results.new }
{
    exports::khalyksor_evaluate_row(tag, lut, coordinates, results)
}
