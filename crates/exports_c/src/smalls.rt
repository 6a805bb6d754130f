// The small readers. A size of 0 is an ordinary size.
ghost use Rattle.std.specs.Prelude.{◌≡◌, cond};
ghost use Rattle.small_meaning.specs.Layout.{full_range};
ghost use Rattle.small_meaning.specs.Small.{chad_of, sig_of, date_of, meas_of, view_of, xyz_of, cicp_of};
ghost use Rattle.export_words.specs.Exported.{always, within, Gave};
ghost use Rattle.export_small.specs.Layout.{small_exported, chad_layout, sig_layout, date_layout, meas_layout, view_layout, xyz_layout, cicp_layout};

// exports::khalyksor_read_chad_tag.
#[unsafe(no_mangle)]
pub extern "C" fn khalyksor_read_chad_tag(
    profile: &[u8],
    offset: u32,
    size: u32,
    out: &mut [u64],
) -> u32
    ensures { Gave (always chad_layout) (within chad_layout.words out.old (small_exported (chad_of profile.now offset size))) result out.old out.new }
{
    exports::khalyksor_read_chad_tag(profile, offset, size, out)
}

// exports::khalyksor_read_tech_tag.
#[unsafe(no_mangle)]
pub extern "C" fn khalyksor_read_tech_tag(
    profile: &[u8],
    offset: u32,
    size: u32,
    out: &mut [u64],
) -> u32
    ensures { Gave (always sig_layout) (within sig_layout.words out.old (small_exported (sig_of profile.now offset size))) result out.old out.new }
{
    exports::khalyksor_read_tech_tag(profile, offset, size, out)
}

// exports::khalyksor_read_date_time_tag.
#[unsafe(no_mangle)]
pub extern "C" fn khalyksor_read_date_time_tag(
    profile: &[u8],
    offset: u32,
    size: u32,
    out: &mut [u64],
) -> u32
    ensures { Gave (always date_layout) (within date_layout.words out.old (small_exported (date_of profile.now offset size))) result out.old out.new }
{
    exports::khalyksor_read_date_time_tag(profile, offset, size, out)
}

// exports::khalyksor_read_meas_tag.
#[unsafe(no_mangle)]
pub extern "C" fn khalyksor_read_meas_tag(
    profile: &[u8],
    offset: u32,
    size: u32,
    out: &mut [u64],
) -> u32
    ensures { Gave (always meas_layout) (within meas_layout.words out.old (small_exported (meas_of profile.now offset size))) result out.old out.new }
{
    exports::khalyksor_read_meas_tag(profile, offset, size, out)
}

// exports::khalyksor_read_viewing_conditions.
#[unsafe(no_mangle)]
pub extern "C" fn khalyksor_read_viewing_conditions(
    profile: &[u8],
    offset: u32,
    size: u32,
    out: &mut [u64],
) -> u32
    ensures { Gave (always view_layout) (within view_layout.words out.old (small_exported (view_of profile.now offset size))) result out.old out.new }
{
    exports::khalyksor_read_viewing_conditions(profile, offset, size, out)
}

// exports::khalyksor_read_xyz_tag.
#[unsafe(no_mangle)]
pub extern "C" fn khalyksor_read_xyz_tag(
    profile: &[u8],
    offset: u32,
    size: u32,
    out: &mut [u64],
) -> u32
    ensures { Gave (always xyz_layout) (within xyz_layout.words out.old (small_exported (xyz_of profile.now offset size))) result out.old out.new }
{
    exports::khalyksor_read_xyz_tag(profile, offset, size, out)
}

// exports::khalyksor_read_cicp_tag.
#[unsafe(no_mangle)]
pub extern "C" fn khalyksor_read_cicp_tag(
    profile: &[u8],
    offset: u32,
    size: u32,
    out: &mut [u64],
) -> u32
    ensures { Gave (always cicp_layout) (within cicp_layout.words out.old (small_exported (cicp_of profile.now offset size))) result out.old out.new }
{
    exports::khalyksor_read_cicp_tag(profile, offset, size, out)
}

// exports::khalyksor_full_range.
#[unsafe(no_mangle)]
pub extern "C" fn khalyksor_full_range(range: u64) -> u32
    ensures { result ≡ cond (full_range range) 1 0 }
{
    exports::khalyksor_full_range(range)
}
