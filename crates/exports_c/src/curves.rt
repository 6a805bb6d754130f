// The tone curve.
ghost use Rattle.curve_meaning.specs.Curve.{trc_of};
ghost use Rattle.export_words.specs.Exported.{always, within, Gave};
ghost use Rattle.export_curve.specs.Layout.{walk_of, curve_exported, curve_layout};

// exports::khalyksor_read_trc_tag.
#[unsafe(no_mangle)]
pub extern "C" fn khalyksor_read_trc_tag(
    profile: &[u8],
    offset: u32,
    size: u32,
    limit: u64,
    walk: u32,
    out: &mut [u64],
) -> u32
    ensures { Gave (always curve_layout) (within curve_layout.words out.old (curve_exported (trc_of (walk_of walk) limit profile.now offset size))) result out.old out.new }
{
    exports::khalyksor_read_trc_tag(profile, offset, size, limit, walk, out)
}
