// The small readers. A size of 0 is an ordinary size.
ghost use Rattle.std.specs.Prelude.{◌≡◌, cond};
ghost use Rattle.small_meaning.specs.Layout.{full_range};
ghost use Rattle.small_meaning.specs.Small.{chad_of, sig_of, date_of, meas_of, view_of, xyz_of, cicp_of};
ghost use Rattle.export_words.specs.Exported.{always, within, Gave};
ghost use Rattle.export_small.specs.Layout.{small_exported, chad_layout, sig_layout, date_layout, meas_layout, view_layout, xyz_layout, cicp_layout};

use crate::NO_ROOM;
use fields::Entry;

// small_chad::read_chad_tag. Nine words: the matrix, row by row.
pub fn khalyksor_read_chad_tag(profile: &[u8], offset: u32, size: u32, out: &mut [u64]) -> u32
    ensures { Gave (always chad_layout) (within chad_layout.words out.old (small_exported (chad_of profile.now offset size))) result out.old out.new }
{
    if out.len() < export_small::CHAD.words {
        return NO_ROOM;
    }
    let got = small_chad::read_chad_tag(profile, Entry(offset), size);
    export_small::tell_chad(got, out)
}

// small_raw::read_tech_tag. One word: the signature.
pub fn khalyksor_read_tech_tag(profile: &[u8], offset: u32, size: u32, out: &mut [u64]) -> u32
    ensures { Gave (always sig_layout) (within sig_layout.words out.old (small_exported (sig_of profile.now offset size))) result out.old out.new }
{
    if out.len() < export_small::SIG.words {
        return NO_ROOM;
    }
    let got = small_raw::read_tech_tag(profile, Entry(offset), size);
    export_small::tell_sig(got, out)
}

// small_raw::read_date_time_tag. Twelve words: the bytes 8 to 19 of the profile.
pub fn khalyksor_read_date_time_tag(profile: &[u8], offset: u32, size: u32, out: &mut [u64]) -> u32
    ensures { Gave (always date_layout) (within date_layout.words out.old (small_exported (date_of profile.now offset size))) result out.old out.new }
{
    if out.len() < export_small::DATE.words {
        return NO_ROOM;
    }
    let got = small_raw::read_date_time_tag(profile, Entry(offset), size);
    export_small::tell_date(got, out)
}

// small_xyz::read_meas_tag. Seven words: observer, backing X Y Z, geometry, flare, illuminant.
pub fn khalyksor_read_meas_tag(profile: &[u8], offset: u32, size: u32, out: &mut [u64]) -> u32
    ensures { Gave (always meas_layout) (within meas_layout.words out.old (small_exported (meas_of profile.now offset size))) result out.old out.new }
{
    if out.len() < export_small::MEAS.words {
        return NO_ROOM;
    }
    let got = small_xyz::read_meas_tag(profile, Entry(offset), size);
    export_small::tell_meas(got, out)
}

// small_xyz::read_viewing_conditions. Seven words: illuminant X Y Z, surround X Y Z, the number at byte 32.
pub fn khalyksor_read_viewing_conditions(
    profile: &[u8],
    offset: u32,
    size: u32,
    out: &mut [u64],
) -> u32
    ensures { Gave (always view_layout) (within view_layout.words out.old (small_exported (view_of profile.now offset size))) result out.old out.new }
{
    if out.len() < export_small::VIEW.words {
        return NO_ROOM;
    }
    let got = small_xyz::read_viewing_conditions(profile, Entry(offset), size);
    export_small::tell_view(got, out)
}

// small_xyz::read_xyz_tag. Three words: X Y Z. On the default, which stands for three zeros, `out` stays.
pub fn khalyksor_read_xyz_tag(profile: &[u8], offset: u32, size: u32, out: &mut [u64]) -> u32
    ensures { Gave (always xyz_layout) (within xyz_layout.words out.old (small_exported (xyz_of profile.now offset size))) result out.old out.new }
{
    if out.len() < export_small::XYZ.words {
        return NO_ROOM;
    }
    let got = small_xyz::read_xyz_tag(profile, Entry(offset), size);
    export_small::tell_xyz(got, out)
}

// small_raw::read_cicp_tag. Four words: primaries, transfer, matrix, the flag of the full range.
pub fn khalyksor_read_cicp_tag(profile: &[u8], offset: u32, size: u32, out: &mut [u64]) -> u32
    ensures { Gave (always cicp_layout) (within cicp_layout.words out.old (small_exported (cicp_of profile.now offset size))) result out.old out.new }
{
    if out.len() < export_small::CICP.words {
        return NO_ROOM;
    }
    let got = small_raw::read_cicp_tag(profile, Entry(offset), size);
    export_small::tell_cicp(got, out)
}

// small_raw::full_range, of the last word of `cicp`: 1 if it says full range, else 0. No status.
pub fn khalyksor_full_range(range: u64) -> u32
    ensures { result ≡ cond (full_range range) 1 0 }
{
    if range == small_raw::FULL as u64 {
        1
    } else {
        0
    }
}
