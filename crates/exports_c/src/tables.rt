// Lookup tables, and an entry of a colour table.
ghost use Rattle.std.specs.Prelude.{length};
ghost use Rattle.export_curve.specs.Layout.{walk_of};
ghost use Rattle.lut_meaning.specs.Lut.{lut_of, slots_after};
ghost use Rattle.lut_view_meaning.specs.View.{entry_of, table_by};
ghost use Rattle.export_words.specs.Exported.{always, within, Gave, GaveWith};
ghost use Rattle.export_lut.specs.Layout.{lut_exported, entry_exported, lut_layout, abm_layout, entry_layout, numbers_in};

// exports::khalyksor_read_lut_tag.
#[unsafe(no_mangle)]
pub extern "C" fn khalyksor_read_lut_tag(
    profile: &[u8],
    offset: u32,
    size: u32,
    limit: u64,
    points: u64,
    walk: u32,
    slots: &mut [u32],
    out: &mut [u64],
) -> u32
    ensures { GaveWith lut_layout abm_layout.words (lut_exported (lut_of (walk_of walk) limit points profile.now offset size (length slots.old))) (slots_after (walk_of walk) limit points profile.now offset size slots.old) result out.old out.new slots.old slots.new }
{
    exports::khalyksor_read_lut_tag(profile, offset, size, limit, points, walk, slots, out)
}

// exports::khalyksor_entry_at.
#[unsafe(no_mangle)]
pub extern "C" fn khalyksor_entry_at(
    tag: &[u8],
    lut: &[u64],
    index: &[u8],
    channel: u8,
    out: &mut [u64],
) -> u32
    ensures { Gave (always entry_layout) (within entry_layout.words out.old (within abm_layout.words lut.now (entry_exported (entry_of tag.now (table_by tag.now (numbers_in lut.now)) index.now channel)))) result out.old out.new }
{
    exports::khalyksor_entry_at(tag, lut, index, channel, out)
}
