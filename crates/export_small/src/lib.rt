// What is told of the small readers' answers: a status, and the words of a value.
#![tactic(auto)]

ghost use Rattle.small_meaning.specs.Answer.{matrix_numbers, signature_numbers, date_numbers, measurement_numbers, viewing_numbers, xyz_numbers, code_numbers, chad_in_numbers, sig_in_numbers, date_in_numbers, meas_in_numbers, view_in_numbers, xyz_in_numbers, cicp_in_numbers};
ghost use Rattle.export_words.specs.Exported.{always, Gave};
ghost use Rattle.export_small.specs.Layout.{small_exported, chad_layout, sig_layout, date_layout, meas_layout, view_layout, xyz_layout, cicp_layout};

use export_words::{Layout, Missing, Tells};
use fields::Refusal;
use small_meaning::{ChadMatrix, CicpCodes, Measurement, ViewingConditions, XyzNumber};

// How the words of each are laid out.
pub const CHAD: Layout = Layout {
    words: 9,
    from: 0,
    to: 9,
};

pub const SIG: Layout = Layout {
    words: 1,
    from: 0,
    to: 0,
};

pub const DATE: Layout = Layout {
    words: 12,
    from: 0,
    to: 0,
};

pub const MEAS: Layout = Layout {
    words: 7,
    from: 1,
    to: 4,
};

pub const VIEW: Layout = Layout {
    words: 7,
    from: 0,
    to: 6,
};

pub const XYZ: Layout = Layout {
    words: 3,
    from: 0,
    to: 3,
};

pub const CICP: Layout = Layout {
    words: 4,
    from: 0,
    to: 0,
};

// `chad`: the matrix, row by row.
struct ChadTold;

impl Tells for ChadTold {
    type Value = ChadMatrix;

    ghost layout = { always chad_layout };

    ghost words = { matrix_numbers };

    fn put(m: ChadMatrix, out: &mut [u64]) {
        let words = [
            m.e00, m.e01, m.e02, m.e10, m.e11, m.e12, m.e20, m.e21, m.e22,
        ];
        export_words::put_words(out, 0, &words);
    }
}

pub fn tell_chad(got: Result<Option<ChadMatrix>, Refusal>, out: &mut [u64]) -> u32
    ensures { Gave (always chad_layout) (small_exported (chad_in_numbers got)) result out.old out.new }
{
    export_words::tell::<ChadTold>(got, Missing::Absent, out)
}

// `sig `: the signature.
struct SigTold;

impl Tells for SigTold {
    type Value = u32;

    ghost layout = { always sig_layout };

    ghost words = { signature_numbers };

    fn put(signature: u32, out: &mut [u64]) {
        export_words::put_words(out, 0, &[signature]);
    }
}

pub fn tell_sig(got: Result<Option<u32>, Refusal>, out: &mut [u64]) -> u32
    ensures { Gave (always sig_layout) (small_exported (sig_in_numbers got)) result out.old out.new }
{
    export_words::tell::<SigTold>(got, Missing::Absent, out)
}

// `dtim`: the twelve bytes.
struct DateTold;

impl Tells for DateTold {
    type Value = [u8; 12];

    ghost layout = { always date_layout };

    ghost words = { date_numbers };

    fn put(bytes: [u8; 12], out: &mut [u64]) {
        export_words::put_bytes(out, 0, &bytes);
    }
}

pub fn tell_date(got: Result<Option<[u8; 12]>, Refusal>, out: &mut [u64]) -> u32
    ensures { Gave (always date_layout) (small_exported (date_in_numbers got)) result out.old out.new }
{
    export_words::tell::<DateTold>(got, Missing::Absent, out)
}

// `meas`: observer, backing, geometry, flare, illuminant.
struct MeasTold;

impl Tells for MeasTold {
    type Value = Measurement;

    ghost layout = { always meas_layout };

    ghost words = { measurement_numbers };

    fn put(m: Measurement, out: &mut [u64]) {
        let b = m.backing;
        let words = [m.observer, b.x, b.y, b.z, m.geometry, m.flare, m.illuminant];
        export_words::put_words(out, 0, &words);
    }
}

pub fn tell_meas(got: Result<Option<Measurement>, Refusal>, out: &mut [u64]) -> u32
    ensures { Gave (always meas_layout) (small_exported (meas_in_numbers got)) result out.old out.new }
{
    export_words::tell::<MeasTold>(got, Missing::Absent, out)
}

// `view`: illuminant, surround, the number.
struct ViewTold;

impl Tells for ViewTold {
    type Value = ViewingConditions;

    ghost layout = { always view_layout };

    ghost words = { viewing_numbers };

    fn put(v: ViewingConditions, out: &mut [u64]) {
        let i = v.illuminant;
        let s = v.surround;
        let words = [i.x, i.y, i.z, s.x, s.y, s.z, v.number];
        export_words::put_words(out, 0, &words);
    }
}

pub fn tell_view(got: Result<Option<ViewingConditions>, Refusal>, out: &mut [u64]) -> u32
    ensures { Gave (always view_layout) (small_exported (view_in_numbers got)) result out.old out.new }
{
    export_words::tell::<ViewTold>(got, Missing::Absent, out)
}

// `XYZ `: X, Y and Z. On the default, which stands for three zeros, `out` stays.
struct XyzTold;

impl Tells for XyzTold {
    type Value = XyzNumber;

    ghost layout = { always xyz_layout };

    ghost words = { xyz_numbers };

    fn put(n: XyzNumber, out: &mut [u64]) {
        let words = [n.x, n.y, n.z];
        export_words::put_words(out, 0, &words);
    }
}

pub fn tell_xyz(got: Result<Option<XyzNumber>, Refusal>, out: &mut [u64]) -> u32
    ensures { Gave (always xyz_layout) (small_exported (xyz_in_numbers got)) result out.old out.new }
{
    export_words::tell::<XyzTold>(got, Missing::Default, out)
}

// `cicp`: primaries, transfer, matrix, the flag of the full range.
struct CicpTold;

impl Tells for CicpTold {
    type Value = CicpCodes;

    ghost layout = { always cicp_layout };

    ghost words = { code_numbers };

    fn put(c: CicpCodes, out: &mut [u64]) {
        let words = [c.primaries, c.transfer, c.matrix, c.range];
        export_words::put_bytes(out, 0, &words);
    }
}

pub fn tell_cicp(got: Result<Option<CicpCodes>, Refusal>, out: &mut [u64]) -> u32
    ensures { Gave (always cicp_layout) (small_exported (cicp_in_numbers got)) result out.old out.new }
{
    export_words::tell::<CicpTold>(got, Missing::Absent, out)
}
