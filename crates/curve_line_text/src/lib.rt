// A job of `curve-line` taken apart, and the text that the program prints for it. The curve is asked of the exported function, as a user of
// the library asks it, and the text is printed from the words that it tells.
#![tactic(auto)]

ghost use Rattle.std.specs.Prelude.{◌≡◌};
ghost use Rattle.lines.specs.Text.{Wrote};
ghost use Rattle.curve_line_text.specs.CurveLine.{job_of, exported_text, text_of};

use curve_meaning::RECORD_WORDS;
use export_curve::CURVE;
use export_words::{ABSENT, VALUE};
use fields::InTag;

// What a job of `curve-line` asks for: the tag of that size at that offset of the profile, which stands behind the head.
#[derive(Clone, Copy, Debug, PartialEq, Eq)]
pub struct CurveJob {
    pub offset: u32,
    pub size: u32,
}

// The longest job of `curve-line`.
pub const MAX_CURVE_JOB: usize = 65_536;

// Takes a job of `curve-line` apart, if it is one.
#[tactic(auto, unfolding(crate::specs::CurveLine::job_of))]
pub fn read_curve_job(job: &[u8]) -> Option<CurveJob>
    ensures { result ≡ job_of job.now }
{
    if job.len() < 13 {
        return None;
    }
    if MAX_CURVE_JOB < job.len() {
        return None;
    }
    let version = fields::u8_at(job, InTag(0));
    if version != 1 {
        return None;
    }
    let length = fields::u32_at(job, InTag(1));
    if length as usize != job.len() - 13 {
        return None;
    }
    let offset = fields::u32_at(job, InTag(5));
    let size = fields::u32_at(job, InTag(9));
    Some(CurveJob { offset, size })
}

// Writes the text of what was told from the start of `out` on.
fn put_exported(out: &mut [u8], status: u32, words: &[u64; 11]) -> usize
    ensures { Wrote out.old out.new 0 result (exported_text record { status = status; words = words.now }) }
{
    match status {
        VALUE => {
            let word = lines::put(out, 0, b"curve value");
            let first = lines::put_number(out, word, b'\n', words[0]);
            let record = &words[..RECORD_WORDS];
            let rest = lines::put_words(out, first, record, 1, CURVE.from, CURVE.to);
            lines::put(out, rest, b"\n")
        }
        ABSENT => lines::put(out, 0, b"curve absent\n"),
        _ => {
            let word = lines::put(out, 0, b"curve refused");
            let number = lines::put_number(out, word, b' ', status as u64);
            lines::put(out, number, b"\n")
        }
    }
}

// Writes what `curve-line` prints for a job from the start of `out` on, as far as there is room, and answers where it ends. The curve is
// read on the crate walk and with the house default.
pub fn curve_line(job: &[u8], out: &mut [u8]) -> usize
    ensures { Wrote out.old out.new 0 result (text_of job.now) }
{
    let Some(asked) = read_curve_job(job) else {
        return lines::put(out, 0, b"bad job\n");
    };
    let mut words = [0u64; 11];
    let status = exports::khalyksor_read_trc_tag(
        &job[13..],
        asked.offset,
        asked.size,
        fields::MAX_ALLOWED_TRC_SIZE,
        0,
        &mut words,
    );
    put_exported(out, status, &words)
}
