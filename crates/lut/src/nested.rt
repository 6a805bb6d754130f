// A run of curves in a tag: read_nested_tone_curves of moxcms. It is judged first, and written once everything is judged.
ghost use Rattle.std.specs.Prelude.{◌≡◌, ◌++◌, ◌+◌, ◌*◌, ◌^◌, ◌≤◌, ◌<◌, length, drop};
ghost use Rattle.curve_meaning.specs.Answer.{step_in_numbers, step_checked};
ghost use Rattle.curve_meaning.specs.Shape.{record_words};
ghost use Rattle.lut_run_meaning.specs.Run.{whole, aligned, curve_at_offset, run_at, records_of};
ghost use Rattle.lut_meaning.specs.Parts.{ended};
ghost use Rattle.lut.specs.Verdict.{verdict_in_numbers};

pub use curve::RECORD_WORDS;
use curve::Walk;
use fields::{InTag, Refusal};

// The bytes of a curve in front of its entries or parameters.
const CURVE_HEAD: usize = 12;

// Where a run starts, and how many curves it has.
#[derive(Clone, Copy)]
pub(crate) struct Run {
    pub(crate) at: InTag,
    pub(crate) curves: u32,
}

// The curve at an offset of the tag; past the tag is 2.
fn judge_at(tag: &[u8], at: InTag, limit: u64, walk: Walk) -> Result<u64, Refusal>
    ensures { step_in_numbers result ≡ step_checked walk (curve_at_offset limit tag.now at.0) }
{
    let from = at.0 as usize;
    if tag.len() < from || tag.len() - from < CURVE_HEAD {
        return Err(Refusal::TagTooShort);
    }
    curve::judge_curve(&tag[from..], limit, walk)
}

// Where the next curve starts.
fn next_curve(at: InTag, consumed: u64) -> InTag
    requires { at.0 + consumed < 2 ^ 33 }
    ensures { result.0 ≡ aligned (at.0 + consumed) }
{
    InTag((at.0 + consumed + 3) / 4 * 4)
}

// Judges a run, and writes nothing.
pub(crate) fn check_run(tag: &[u8], run: Run, limit: u64, walk: Walk) -> Result<(), Refusal>
    requires { length tag.now < 2 ^ 32 }
    ensures { verdict_in_numbers result ≡ ended (run_at walk limit tag.now run.at.0 run.curves).end }
{
    let mut next = run.at;
    for i in 0..run.curves {
        let consumed = judge_at(tag, next, limit, walk)?;
        next = next_curve(next, consumed);
    }
    Ok(())
}

// Writes the records of a run that was judged good, from the first slot on.
pub(crate) fn write_run(tag: &[u8], run: Run, limit: u64, walk: Walk, slots: &mut [u32])
    requires { (length tag.now < 2 ^ 32) × ((run_at walk limit tag.now run.at.0 run.curves).end ≡ whole) × (run.curves * record_words ≤ length slots.old) }
    ensures { slots.new ≡ records_of (run_at walk limit tag.now run.at.0 run.curves).curves ++ drop (run.curves * record_words) slots.old }
{
    let mut next = run.at;
    for i in 0..run.curves {
        let from = next.0 as usize;
        let slot = i as usize * RECORD_WORDS;
        let written = curve::write_curve(
            &tag[from..],
            (from + CURVE_HEAD) as u32,
            limit,
            walk,
            &mut slots[slot..slot + RECORD_WORDS],
        );
        let Ok(consumed) = written else {
            return;
        };
        next = next_curve(next, consumed);
    }
}
