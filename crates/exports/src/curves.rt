// The tone curve.
ghost use Rattle.curve_meaning.specs.Curve.{trc_of};
ghost use Rattle.export_words.specs.Exported.{always, within, Gave};
ghost use Rattle.export_curve.specs.Layout.{walk_of, curve_exported, curve_layout};

use crate::NO_ROOM;
use export_curve::ToneCurve;
use export_words::Missing;
use fields::Entry;

// curve::read_trc_tag. Walk 0 is the crate walk, any other number the book walk. Eleven words: kind, start, count, the seven parameters
// g a b c d e f, and the consumed size.
pub fn khalyksor_read_trc_tag(
    profile: &[u8],
    offset: u32,
    size: u32,
    limit: u64,
    walk: u32,
    out: &mut [u64],
) -> u32
    ensures { Gave (always curve_layout) (within curve_layout.words out.old (curve_exported (trc_of (walk_of walk) limit profile.now offset size))) result out.old out.new }
{
    if out.len() < export_curve::CURVE.words {
        return NO_ROOM;
    }
    let got = curve::read_trc_tag(
        profile,
        Entry(offset),
        size,
        limit,
        export_curve::walk_of(walk),
    );
    export_words::tell::<ToneCurve>(got, Missing::Absent, out)
}
