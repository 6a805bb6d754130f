// The lines of the program `answers`: a job whose bytes are read is answered in a lent buffer. The answer is asked of the exported functions, as
// a user of theirs asks it, and its line is printed from the words that they tell.
#![tactic(auto)]

mod pixel;

ghost use Rattle.std.specs.Prelude.{◌%◌, ◌≡◌, cond, [], length};
ghost use Rattle.answers_jobs.specs.Stream.{tail_of};
ghost use Rattle.lines.specs.Text.{Wrote};
ghost use Rattle.export_words.specs.Exported.{always, Gave};
ghost use Rattle.export_lut.specs.Layout.{entry_layout};
ghost use Rattle.answers_meaning.specs.Line.{marked, entry_exported_at, layout_for, several as Line·several, line_to, line_of, ExportedAndWords, LineAndWords};
ghost use Rattle.answers_meaning.specs.Text.{name_text, words_text, exported_text, lent_text};
ghost use Rattle.answers_lines.specs.View.{ViewAndWords};

use answers_jobs::{Reader, StreamIndex, StreamJob, StreamTail};
use export_words::{ABSENT, DEFAULT, Layout, VALUE};
use fields::{Entry, InTag};

// Sets the words lent: word i to 0xA5A50000 + i.
fn mark(words: &mut [u32])
    ensures { words.new ≡ marked (length words.old) }
{
    for i in 0..words.len() {
        words[i] = 0xA5A5_0000 + (i % 0x1_0000) as u32;
    }
}

// The entry at a grid index of the lookup table whose words these are; an index of more than sixteen coordinates is nowhere.
#[tactic(auto, unfolding(answers_meaning::specs::Line::entry_exported_at))]
fn entry(
    tag: &[u8],
    table: &[u64; 37],
    reader: u8,
    behind: &[u8],
    index: StreamIndex,
    out: &mut [u64; 37],
) -> u32
    requires { tail_of reader behind.now ≡ Some (StreamTail.Index index) }
    ensures { Gave (always entry_layout) (entry_exported_at table.now tag.now behind.now index) result out.old out.new }
{
    match index {
        StreamIndex::At {
            coordinates,
            channel,
        } => {
            let end = 1 + coordinates as usize;
            exports::khalyksor_entry_at(tag, table, &behind[1..end], channel, out)
        }
        StreamIndex::TooMany | StreamIndex::Nothing => ABSENT,
    }
}

// The lookup table is read on the crate walk, and then the entry. The words lent are those of the table's reader.
fn view(
    profile: &[u8],
    job: StreamJob,
    behind: &[u8],
    index: StreamIndex,
    words: &mut [u32],
    out: &mut [u64; 37],
) -> u32
    requires { tail_of job.reader behind.now ≡ Some (StreamTail.Index index) }
    ensures { ViewAndWords job profile.now words.old behind.now index result out.old out.new words.new }
{
    let mut table = [0u64; 37];
    let status = exports::khalyksor_read_lut_tag(
        profile,
        job.offset,
        job.size,
        job.entries,
        job.points,
        0,
        words,
        &mut table,
    );
    if status != VALUE {
        return status;
    }
    let size = fields::counted_size(job.size);
    let Some(place) = fields::locate(profile, Entry(job.offset), InTag(size as u64)) else {
        return ABSENT;
    };
    entry(
        &profile[place.start..place.end],
        &table,
        job.reader,
        behind,
        index,
        out,
    )
}

// Asks the exported function of the reader that the job names.
fn ask(
    profile: &[u8],
    job: StreamJob,
    behind: &[u8],
    index: StreamIndex,
    words: &mut [u32],
    out: &mut [u64; 37],
) -> u32
    requires { tail_of job.reader behind.now ≡ Some (StreamTail.Index index) }
    ensures { ExportedAndWords job profile.now words.old behind.now index result out.old out.new words.new }
{
    let offset = job.offset;
    let size = job.size;
    let limit = job.entries;
    let points = job.points;
    match Reader::try_from(job.reader) {
        Ok(Reader::LookupTable) => {
            exports::khalyksor_read_lut_tag(profile, offset, size, limit, points, 0, words, out)
        }
        Ok(Reader::ToneCurve) => {
            exports::khalyksor_read_trc_tag(profile, offset, size, limit, 0, out)
        }
        Ok(Reader::String) => exports::khalyksor_read_string_tag(profile, offset, size, words, out),
        Ok(Reader::Chad) => exports::khalyksor_read_chad_tag(profile, offset, size, out),
        Ok(Reader::Tech) => exports::khalyksor_read_tech_tag(profile, offset, size, out),
        Ok(Reader::DateTime) => exports::khalyksor_read_date_time_tag(profile, offset, size, out),
        Ok(Reader::Meas) => exports::khalyksor_read_meas_tag(profile, offset, size, out),
        Ok(Reader::View) => exports::khalyksor_read_viewing_conditions(profile, offset, size, out),
        Ok(Reader::Xyz) => exports::khalyksor_read_xyz_tag(profile, offset, size, out),
        Ok(Reader::Cicp) => exports::khalyksor_read_cicp_tag(profile, offset, size, out),
        Ok(Reader::LookupTableByBook) => {
            exports::khalyksor_read_lut_tag(profile, offset, size, limit, points, 1, words, out)
        }
        Ok(Reader::ToneCurveByBook) => {
            exports::khalyksor_read_trc_tag(profile, offset, size, limit, 1, out)
        }
        Ok(Reader::TableView) => view(profile, job, behind, index, words, out),
        Ok(Reader::Evaluation) => ABSENT,
        Err(_) => ABSENT,
    }
}

// How the words of a reader are laid out, by the first of them.
#[tactic(auto, unfolding(answers_meaning::specs::Line::layout_for))]
fn layout_of(reader: u8, first: u64) -> Layout
    ensures { result ≡ layout_for reader first }
{
    match Reader::try_from(reader) {
        Ok(Reader::LookupTable | Reader::LookupTableByBook) => export_lut::layout_of(first),
        Ok(Reader::ToneCurve | Reader::ToneCurveByBook) => export_curve::CURVE,
        Ok(Reader::String) => export_text::layout_of(first),
        Ok(Reader::Chad) => export_small::CHAD,
        Ok(Reader::Tech) => export_small::SIG,
        Ok(Reader::DateTime) => export_small::DATE,
        Ok(Reader::Meas) => export_small::MEAS,
        Ok(Reader::View) => export_small::VIEW,
        Ok(Reader::Xyz) => export_small::XYZ,
        Ok(Reader::Cicp) => export_small::CICP,
        Ok(Reader::TableView | Reader::Evaluation) | Err(_) => export_lut::ENTRY,
    }
}

// Whether a reader serves several types. Of those the line shows the lent words.
fn several(reader: u8) -> bool
    ensures { result ≡ Line·several reader }
{
    matches!(
        Reader::try_from(reader),
        Ok(Reader::LookupTable | Reader::String | Reader::LookupTableByBook)
    )
}

// Puts the name of a type: the letters of its signature behind a space, a trailing space left out.
fn put_name(line: &mut [u8], at: usize, signature: u64) -> usize
    ensures { Wrote line.old line.new at result (name_text signature) }
{
    let letters = [
        b' ',
        export_words::low_byte(signature / 0x100_0000),
        export_words::low_byte(signature / 0x1_0000),
        export_words::low_byte(signature / 0x100),
        export_words::low_byte(signature),
    ];
    if signature % 256 == 0x20 {
        return lines::put(line, at, &letters[..4]);
    }
    lines::put(line, at, &letters)
}

// Puts the words of a value, the type's name for the first where the reader serves several.
fn put_value(
    line: &mut [u8],
    at: usize,
    named: bool,
    layout: Layout,
    first: u64,
    words: &[u64],
) -> usize
    ensures { Wrote line.old line.new at result (words_text named layout first words.now) }
{
    if named {
        let name = put_name(line, at, first);
        return lines::put_words(line, name, words, 1, layout.from, layout.to);
    }
    lines::put_words(line, at, words, 0, layout.from, layout.to)
}

// Puts what was told, at the start of the line.
fn put_answer(line: &mut [u8], reader: u8, status: u32, out: &[u64]) -> usize
    requires { length out.now ≡ 37 }
    ensures { Wrote line.old line.new 0 result (exported_text (Line·several reader) (layout_for reader) record { status = status; words = out.now }) }
{
    if status == VALUE {
        let word = lines::put(line, 0, b"value");
        let first = out[0];
        let layout = layout_of(reader, first);
        let n = layout.words;
        return put_value(line, word, several(reader), layout, first, &out[..n]);
    }
    if status == ABSENT {
        return lines::put(line, 0, b"absent");
    }
    if status == DEFAULT {
        return lines::put(line, 0, b"default");
    }
    let word = lines::put(line, 0, b"refused");
    lines::put_number(line, word, b' ', status as u64)
}

// Puts the lent words behind a bar, as they are after the call, if the line shows them.
fn put_lent(line: &mut [u8], at: usize, shown: bool, words: &[u32]) -> usize
    ensures { Wrote line.old line.new at result (cond shown (lent_text words.now) []) }
{
    if shown {
        let bar = lines::put(line, at, b" |");
        return lines::put_numbers(line, bar, words);
    }
    at
}

// Puts the line of a job of a reader.
fn answer_reader(
    profile: &[u8],
    job: StreamJob,
    behind: &[u8],
    index: StreamIndex,
    words: &mut [u32],
    line: &mut [u8],
) -> usize
    requires { tail_of job.reader behind.now ≡ Some (StreamTail.Index index) }
    ensures { LineAndWords (line_to (Some (StreamTail.Index index)) job profile.now words.old behind.now) line.old line.new words.new result }
{
    let mut out = [0u64; 37];
    let status = ask(profile, job, behind, index, words, &mut out);
    let told = put_answer(line, job.reader, status, &out);
    let shown = put_lent(line, told, several(job.reader), words);
    lines::put(line, shown, b"\n")
}

// Puts the line of a job of the evaluation: the lookup table is read on the crate walk, and then the pixel evaluated.
fn answer_pixel(
    profile: &[u8],
    job: StreamJob,
    behind: &[u8],
    coordinates: u8,
    room: u16,
    words: &mut [u32],
    line: &mut [u8],
) -> usize
    requires { tail_of job.reader behind.now ≡ Some (StreamTail.Pixel coordinates room) }
    ensures { LineAndWords (line_to (Some (StreamTail.Pixel coordinates room)) job profile.now words.old behind.now) line.old line.new words.new result }
{
    let mut table = [0u64; 37];
    let status = exports::khalyksor_read_lut_tag(
        profile,
        job.offset,
        job.size,
        job.entries,
        job.points,
        0,
        words,
        &mut table,
    );
    if status != VALUE {
        let told = put_answer(line, Reader::Evaluation as u8, status, &table);
        return lines::put(line, told, b"\n");
    }
    let size = fields::counted_size(job.size);
    let Some(place) = fields::locate(profile, Entry(job.offset), InTag(size as u64)) else {
        return 0;
    };
    let mut buffer = [0u16; 512];
    let told = pixel::put_pixel_behind(
        &profile[place.start..place.end],
        &table,
        behind,
        coordinates as usize,
        &mut buffer[..room as usize],
        line,
    );
    lines::put(line, told, b"\n")
}

// Puts the line of a job at the start of `line`, as far as there is room, and answers where it ends. The job's profile and the bytes
// behind it are read, and the words are those lent to its reader. A job that names no reader, has too few bytes behind its profile, or a buffer past
// its bound, has no line: then the answer is 0, the end of an empty line, as `line_of` has it.
pub fn answer_job(
    profile: &[u8],
    job: StreamJob,
    behind: &[u8],
    words: &mut [u32],
    line: &mut [u8],
) -> usize
    ensures { LineAndWords (line_of job profile.now behind.now (length words.old)) line.old line.new words.new result }
{
    mark(words);
    match answers_jobs::read_tail(job.reader, behind) {
        Some(StreamTail::Index(index)) => answer_reader(profile, job, behind, index, words, line),
        Some(StreamTail::Pixel { coordinates, room }) => {
            answer_pixel(profile, job, behind, coordinates, room, words, line)
        }
        None => 0,
    }
}
