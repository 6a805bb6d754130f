// The evaluation: the line of a pixel, whose table is read.
ghost use Rattle.std.specs.Prelude.{◌≤◌, ◌≡◌, ◌++◌, length, take};
ghost use Rattle.lines.specs.Text.{Wrote, number, numbers};
ghost use Rattle.answers_meaning.specs.Pixel.{numbered, coordinates_in, pixel_text};
ghost use Rattle.answers_meaning.specs.Text.{value_word, lent_text};

use export_words::VALUE;
use fields::InTag;

// Sets the buffer: number i to 0xA500 + i.
fn number_buffer(buffer: &mut [u16])
    ensures { buffer.new ≡ numbered (length buffer.old) }
{
    for i in 0..buffer.len() {
        buffer[i] = 0xA500 + (i % 512) as u16;
    }
}

// Puts how many results there are, and these, which stand in front of the buffer.
fn put_results(line: &mut [u8], count: usize, buffer: &[u16]) -> usize
    requires { count ≤ length buffer.now }
    ensures { Wrote line.old line.new 0 result (value_word ++ number 0x20 count ++ numbers (take count buffer.now)) }
{
    let word = lines::put(line, 0, b"value");
    let counted = lines::put_number(line, word, b' ', count as u64);
    lines::put_short_numbers(line, counted, &buffer[..count])
}

// Puts the buffer behind a bar.
fn put_buffer(line: &mut [u8], at: usize, buffer: &[u16]) -> usize
    ensures { Wrote line.old line.new at result (lent_text buffer.now) }
{
    let bar = lines::put(line, at, b" |");
    lines::put_short_numbers(line, bar, buffer)
}

// Evaluates the table whose words these are, in the lent buffer, and puts what came of it at the start of the line.
fn put_pixel(
    tag: &[u8],
    table: &[u64; 37],
    coordinates: &[u16],
    buffer: &mut [u16],
    line: &mut [u8],
) -> usize
    ensures { Wrote line.old line.new 0 result (pixel_text table.now tag.now coordinates.now (numbered (length buffer.old))) }
{
    number_buffer(buffer);
    let status = exports::khalyksor_evaluate(tag, table, coordinates, buffer);
    if status == VALUE {
        let numbers = export_lut::numbers_in(table);
        let told = put_results(line, numbers.outputs as usize, buffer);
        return put_buffer(line, told, buffer);
    }
    let word = lines::put(line, 0, b"refused");
    let told = lines::put_number(line, word, b' ', status as u64);
    put_buffer(line, told, buffer)
}

// The same at the first coordinates behind the profile.
pub(crate) fn put_pixel_behind(
    tag: &[u8],
    table: &[u64; 37],
    behind: &[u8],
    count: usize,
    buffer: &mut [u16],
    line: &mut [u8],
) -> usize
    requires { count ≤ 8 }
    ensures { Wrote line.old line.new 0 result (pixel_text table.now tag.now (take count (coordinates_in behind.now)) (numbered (length buffer.old))) }
{
    let coordinates = [
        fields::u16_at(behind, InTag(1)),
        fields::u16_at(behind, InTag(3)),
        fields::u16_at(behind, InTag(5)),
        fields::u16_at(behind, InTag(7)),
        fields::u16_at(behind, InTag(9)),
        fields::u16_at(behind, InTag(11)),
        fields::u16_at(behind, InTag(13)),
        fields::u16_at(behind, InTag(15)),
    ];
    put_pixel(tag, table, &coordinates[..count], buffer, line)
}
