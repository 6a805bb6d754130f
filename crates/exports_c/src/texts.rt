// Text.
ghost use Rattle.std.specs.Prelude.{length};
ghost use Rattle.text_meaning.specs.Text.{string_of, slots_after};
ghost use Rattle.export_words.specs.Exported.{GaveWith};
ghost use Rattle.export_text.specs.Layout.{text_exported, string_layout, desc_layout};

// exports::khalyksor_read_string_tag.
#[unsafe(no_mangle)]
pub extern "C" fn khalyksor_read_string_tag(
    profile: &[u8],
    offset: u32,
    size: u32,
    slots: &mut [u32],
    out: &mut [u64],
) -> u32
    ensures { GaveWith string_layout desc_layout.words (text_exported (string_of profile.now offset size (length slots.old))) (slots_after profile.now offset size slots.old) result out.old out.new slots.old slots.new }
{
    exports::khalyksor_read_string_tag(profile, offset, size, slots, out)
}
