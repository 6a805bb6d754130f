// Text.
ghost use Rattle.std.specs.Prelude.{length};
ghost use Rattle.text_meaning.specs.Text.{string_of, slots_after};
ghost use Rattle.export_words.specs.Exported.{GaveWith};
ghost use Rattle.export_text.specs.Layout.{text_exported, string_layout, desc_layout};

use crate::NO_ROOM;
use fields::Entry;

// text::read_string_tag. The type's signature, and then: `text` start and length; `desc` the ASCII string's start and length, the language,
// the Unicode string's start and length; `mluc` the number of records, whose words are in `slots`. `out` has room for six words.
pub fn khalyksor_read_string_tag(
    profile: &[u8],
    offset: u32,
    size: u32,
    slots: &mut [u32],
    out: &mut [u64],
) -> u32
    ensures { GaveWith string_layout desc_layout.words (text_exported (string_of profile.now offset size (length slots.old))) (slots_after profile.now offset size slots.old) result out.old out.new slots.old slots.new }
{
    if out.len() < export_text::DESC.words {
        return NO_ROOM;
    }
    let got = text::read_string_tag(profile, Entry(offset), size, slots);
    export_text::tell_text(got, out)
}
