// The jobs of `answers`, taken apart.
#![tactic(auto)]

ghost use Rattle.std.specs.Prelude.{◌≡◌};
ghost use Rattle.answers_jobs.specs.Stream.{u64_at, Names, head_of, bytes_behind, at_most_eight, pixel_in, index_in, tail_of};

use fields::InTag;

// A job of `answers`: the number of its reader, where its tag stands, the limits, the words lent, and how long the profile behind it is. The
// number is any byte: whether it names a reader is asked behind the profile (`tail_of`).
#[derive(Clone, Copy, Debug, PartialEq, Eq)]
pub struct StreamJob {
    pub reader: u8,
    pub offset: u32,
    pub size: u32,
    pub entries: u64,
    pub points: u64,
    pub words: u32,
    pub length: u32,
}

// The readers of `answers`, each under its number in a job: ten of them on the crate walk, two on the book walk, and at last an entry of a
// lookup table and the evaluation.
#[derive(Clone, Copy, Debug, PartialEq, Eq)]
pub enum Reader {
    LookupTable = 1,
    ToneCurve = 2,
    String = 3,
    Chad = 4,
    Tech = 5,
    DateTime = 6,
    Meas = 7,
    View = 8,
    Xyz = 9,
    Cicp = 10,
    LookupTableByBook = 11,
    ToneCurveByBook = 12,
    TableView = 13,
    Evaluation = 14,
}

// A job that names no reader.
#[derive(Clone, Copy, Debug, PartialEq, Eq)]
pub struct BadJob;

impl TryFrom<u8> for Reader {
    type Error = BadJob;

    ghost try_from_gives = { Names };

    fn try_from(number: u8) -> Result<Reader, BadJob> {
        match number {
            1 => Ok(Reader::LookupTable),
            2 => Ok(Reader::ToneCurve),
            3 => Ok(Reader::String),
            4 => Ok(Reader::Chad),
            5 => Ok(Reader::Tech),
            6 => Ok(Reader::DateTime),
            7 => Ok(Reader::Meas),
            8 => Ok(Reader::View),
            9 => Ok(Reader::Xyz),
            10 => Ok(Reader::Cicp),
            11 => Ok(Reader::LookupTableByBook),
            12 => Ok(Reader::ToneCurveByBook),
            13 => Ok(Reader::TableView),
            14 => Ok(Reader::Evaluation),
            _ => Err(BadJob),
        }
    }
}

// The bounds of a job of `answers`.
pub const MAX_WORDS: u32 = 8_192;

pub const MAX_PROFILE: u32 = 1_048_576;

fn u64_at(s: &[u8], i: u32) -> u64
    ensures { result ≡ u64_at s.now i }
{
    let high = fields::u32_at(s, InTag(i as u64));
    let low = fields::u32_at(s, InTag(i as u64 + 4));
    (high as u64) * 0x1_0000_0000 + low as u64
}

// Takes the head of a job of `answers` apart, if it is whole and passes no bound.
#[tactic(auto, unfolding(crate::specs::Stream::head_of))]
pub fn read_head(head: &[u8]) -> Option<StreamJob>
    ensures { result ≡ head_of head.now }
{
    if head.len() < 33 {
        return None;
    }
    let words = fields::u32_at(head, InTag(25));
    if MAX_WORDS < words {
        return None;
    }
    let length = fields::u32_at(head, InTag(29));
    if MAX_PROFILE < length {
        return None;
    }
    Some(StreamJob {
        reader: fields::u8_at(head, InTag(0)),
        offset: fields::u32_at(head, InTag(1)),
        size: fields::u32_at(head, InTag(5)),
        entries: u64_at(head, 9),
        points: u64_at(head, 17),
        words,
        length,
    })
}

// What a job of `answers` asks for behind its profile: nothing; the entry at a grid index, whose coordinates are so many bytes from byte 1
// on, and at an output channel; an index of more than sixteen coordinates, which `tail_of` keeps apart from none.
#[derive(Clone, Copy, Debug, PartialEq, Eq)]
pub enum StreamIndex {
    Nothing,
    At { coordinates: u8, channel: u8 },
    TooMany,
}

// What stands behind the profile: an index, if any; of an evaluation, so many coordinates of two bytes from byte 1 on, and how many numbers the lent
// buffer has.
#[derive(Clone, Copy, Debug, PartialEq, Eq)]
pub enum StreamTail {
    Index(StreamIndex),
    Pixel { coordinates: u8, room: u16 },
}

// The bounds of an evaluation: coordinates that count, and numbers of its buffer.
const MAX_COORDINATES: u8 = 8;

const MAX_ROOM: u16 = 512;

// How many bytes stand behind the profile in a job of a reader.
#[tactic(auto, unfolding(crate::specs::Stream::bytes_behind))]
pub fn bytes_behind(reader: u8) -> usize
    ensures { result ≡ bytes_behind reader }
{
    match Reader::try_from(reader) {
        Ok(Reader::TableView) => 18,
        Ok(Reader::Evaluation) => 19,
        _ => 0,
    }
}

fn at_most_eight(n: u8) -> u8
    ensures { result ≡ at_most_eight n }
{
    n.min(MAX_COORDINATES)
}

// Takes apart what stands behind the profile in a job of the table view.
#[tactic(auto, unfolding(crate::specs::Stream::index_in))]
fn read_index(bytes: &[u8]) -> StreamIndex
    ensures { result ≡ index_in bytes.now }
{
    let coordinates = fields::u8_at(bytes, InTag(0));
    if 16 < coordinates {
        return StreamIndex::TooMany;
    }
    let channel = fields::u8_at(bytes, InTag(17));
    StreamIndex::At {
        coordinates,
        channel,
    }
}

// Takes apart what stands behind the profile in a job of the evaluation. A longer buffer than is allowed is none.
#[tactic(auto, unfolding(crate::specs::Stream::pixel_in))]
fn read_pixel(bytes: &[u8]) -> Option<StreamTail>
    ensures { result ≡ pixel_in bytes.now }
{
    let room = fields::u16_at(bytes, InTag(17));
    if MAX_ROOM < room {
        return None;
    }
    let coordinates = at_most_eight(fields::u8_at(bytes, InTag(0)));
    Some(StreamTail::Pixel { coordinates, room })
}

// Takes apart what stands behind the profile in a job of a reader. A job that names no reader, has fewer bytes behind its profile than its reader
// asks, or a longer buffer than is allowed, is bad.
#[tactic(auto, unfolding(crate::specs::Stream::tail_of, crate::specs::Stream::bytes_behind))]
pub fn read_tail(reader: u8, behind: &[u8]) -> Option<StreamTail>
    ensures { result ≡ tail_of reader behind.now }
{
    let named = Reader::try_from(reader).ok()?;
    if behind.len() < bytes_behind(reader) {
        return None;
    }
    match named {
        Reader::TableView => Some(StreamTail::Index(read_index(behind))),
        Reader::Evaluation => read_pixel(behind),
        _ => Some(StreamTail::Index(StreamIndex::Nothing)),
    }
}
