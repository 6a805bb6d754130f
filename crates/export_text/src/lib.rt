// What is told of the answer of the reader of text.
#![tactic(auto)]

ghost use Rattle.std.specs.Prelude.{◌≡◌};
ghost use Rattle.text_meaning.specs.Answer.{in_numbers};
ghost use Rattle.export_words.specs.Exported.{Gave};
ghost use Rattle.export_text.specs.Layout.{value_words, text_exported, string_layout};

use export_words::{Layout, Missing, Tells};
use fields::{Kind, Refusal};
use text_meaning::TextValue;

// How the words of each type are laid out; `desc` has the most.
const TEXT: Layout = Layout {
    words: 3,
    from: 0,
    to: 0,
};

pub const DESC: Layout = Layout {
    words: 6,
    from: 0,
    to: 0,
};

const MLUC: Layout = Layout {
    words: 2,
    from: 0,
    to: 0,
};

// By the first word, the type's signature.
pub fn layout_of(first: u64) -> Layout
    ensures { result ≡ string_layout first }
{
    if first == Kind::TEXT as u64 {
        return TEXT;
    }
    if first == Kind::DESC as u64 {
        return DESC;
    }
    MLUC
}

// Of `text` 3 words, of `desc` 6, of `mluc` 2, in the order of specs/Layout.antt.
struct TextTold;

impl Tells for TextTold {
    type Value = TextValue;

    ghost layout = { string_layout };

    ghost words = { value_words };

    #[tactic(auto, unfolding(crate::specs::Layout::string_layout, fields::specs::Tag::signature_of))]
    fn put(value: TextValue, out: &mut [u64]) {
        match value {
            TextValue::Text(range) => {
                let words = [Kind::TEXT as u64, range.start.0, range.length as u64];
                export_words::put_numbers(out, 0, &words);
            }
            TextValue::Desc(both) => {
                let words = [
                    Kind::DESC as u64,
                    both.ascii.start.0,
                    both.ascii.length as u64,
                    both.language as u64,
                    both.unicode.start.0,
                    both.unicode.length as u64,
                ];
                export_words::put_numbers(out, 0, &words);
            }
            TextValue::Mluc { records } => {
                let words = [Kind::MLUC, records];
                export_words::put_words(out, 0, &words);
            }
        }
    }
}

pub fn tell_text(got: Result<Option<TextValue>, Refusal>, out: &mut [u64]) -> u32
    ensures { Gave string_layout (text_exported (in_numbers got)) result out.old out.new }
{
    export_words::tell::<TextTold>(got, Missing::Absent, out)
}
