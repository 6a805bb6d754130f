// A tone curve: the walk of a number, and what is told of a value.
#![tactic(auto)]

ghost use Rattle.std.specs.Prelude.{◌≡◌};
ghost use Rattle.export_words.specs.Exported.{always, Gave};
ghost use Rattle.export_curve.specs.Layout.{walk_of, curve_words, in_a_row, answer_in_words, curve_exported, curve_layout};

use curve_meaning::{CurveRead, RECORD_WORDS, Walk};
use export_words::{Layout, Missing, Tells};
use fields::Refusal;

// How the words are laid out: kind, start, count, the seven parameters, which are signed, and the consumed size.
pub const CURVE: Layout = Layout {
    words: 11,
    from: 3,
    to: 10,
};

// The walk of a number: 0 is the crate walk, any other the book walk. C has a number for it, and each call an answer.
pub fn walk_of(number: u32) -> Walk
    ensures { result ≡ walk_of number }
{
    if number == 0 { Walk::Crate } else { Walk::Book }
}

// A curve in words: those of a record, of which the first may be any number, and the consumed size.
#[derive(Clone, Copy, Debug, PartialEq, Eq)]
pub struct CurveInWords {
    pub record: [u32; RECORD_WORDS],
    pub consumed: u64,
}

impl From<CurveRead> for CurveInWords {
    ghost from_gives = { λ read words. in_a_row words ≡ curve_words read };

    fn from(read: CurveRead) -> CurveInWords {
        CurveInWords {
            record: read.curve.into(),
            consumed: read.consumed,
        }
    }
}

impl Tells for CurveInWords {
    type Value = CurveInWords;

    ghost layout = { always curve_layout };

    ghost words = { in_a_row };

    #[tactic(auto, using(export_words::proofs::Rows::two_rows))]
    fn put(value: CurveInWords, out: &mut [u64]) {
        export_words::put_words(out, 0, &value.record);
        export_words::put_numbers(out, RECORD_WORDS, &[value.consumed]);
    }
}

// How a tone curve is told.
pub struct ToneCurve;

impl Tells for ToneCurve {
    type Value = CurveRead;

    ghost layout = { always curve_layout };

    ghost words = { curve_words };

    fn put(value: CurveRead, out: &mut [u64]) {
        CurveInWords::put(CurveInWords::from(value), out);
    }
}

// Tells a tone curve in words, whatever number its kind is: a status, and the words in front of `out`.
pub fn tell_curve(got: Result<Option<CurveInWords>, Refusal>, out: &mut [u64]) -> u32
    ensures { Gave (always curve_layout) (curve_exported (answer_in_words got)) result out.old out.new }
{
    export_words::tell::<CurveInWords>(got, Missing::Absent, out)
}
