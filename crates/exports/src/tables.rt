// Lookup tables, and an entry of a colour table.
ghost use Rattle.std.specs.Prelude.{length};
ghost use Rattle.export_curve.specs.Layout.{walk_of};
ghost use Rattle.lut_meaning.specs.Lut.{lut_of, slots_after};
ghost use Rattle.lut_view_meaning.specs.View.{entry_of, table_by};
ghost use Rattle.export_words.specs.Exported.{always, within, Gave, GaveWith};
ghost use Rattle.export_lut.specs.Layout.{lut_exported, entry_exported, lut_layout, abm_layout, entry_layout, numbers_in};

use crate::NO_ROOM;
use fields::Entry;

// lut::read_lut_tag. Walk 0 is the crate walk, any other number the book walk. The type's signature, and then: `mft1`, `mft2` input and output
// channels, grid points, input and output entries, nine matrix numbers, start and length of the input table, the colour table and the
// output table (21 words); `mAB `, `mBA ` input and output channels, sixteen grid bytes, nine matrix and three bias numbers, start and length of
// the colour table's data, the bytes of an entry, the curves of the runs A, M and B (37 words), whose records are in `slots`. `out` has room
// for 37 words.
pub fn khalyksor_read_lut_tag(
    profile: &[u8],
    offset: u32,
    size: u32,
    limit: u64,
    points: u64,
    walk: u32,
    slots: &mut [u32],
    out: &mut [u64],
) -> u32
    ensures { GaveWith lut_layout abm_layout.words (lut_exported (lut_of (walk_of walk) limit points profile.now offset size (length slots.old))) (slots_after (walk_of walk) limit points profile.now offset size slots.old) result out.old out.new slots.old slots.new }
{
    if out.len() < export_lut::ABM.words {
        return NO_ROOM;
    }
    let got = lut::read_lut_tag(
        profile,
        Entry(offset),
        size,
        limit,
        points,
        export_curve::walk_of(walk),
        slots,
    );
    export_lut::tell_lut(got, out)
}

// lut_view::entry_at, of the tag's own bytes and the words of its lookup table, as khalyksor_read_lut_tag gave them: `lut` is that `out`, with room
// for 37 words. One word: the entry.
pub fn khalyksor_entry_at(
    tag: &[u8],
    lut: &[u64],
    index: &[u8],
    channel: u8,
    out: &mut [u64],
) -> u32
    ensures { Gave (always entry_layout) (within entry_layout.words out.old (within abm_layout.words lut.now (entry_exported (entry_of tag.now (table_by tag.now (numbers_in lut.now)) index.now channel)))) result out.old out.new }
{
    if out.len() < export_lut::ENTRY.words {
        return NO_ROOM;
    }
    if lut.len() < export_lut::ABM.words {
        return NO_ROOM;
    }
    let numbers = export_lut::numbers_in(lut);
    let got = lut_view::entry_at(tag, numbers, index, channel);
    export_lut::tell_entry(got, out)
}
