// The blends of the corners around a pixel, from the place of the lowest on, in as many dimensions as there are axes, the last dimension first. `hop` is
// the bytes of an entry less 1: with one byte, which stands for both, 0, and with two 1.
//
// Three or four channels are written out, so that no loop stands around them, and where there are three dimensions or more the size of an entry is a
// constant, so that the compiler knows it: docs/FIGURES.md has what that is worth. They are inlined, since an axis that is handed to a function goes by
// memory, which costs a row of three outputs a twentieth and one of four a fifth.
ghost use Rattle.std.specs.Prelude.{◌≡◌, ◌+◌, ◌*◌, ◌≤◌, ◌<◌, length};
ghost use Rattle.std.proofs.lemmas.List.Edits.{sets};
ghost use Rattle.evaluate_meaning.specs.Colour.{sample_at, blend};
ghost use Rattle.evaluate.specs.Corners.{line_of, plane_of, cube_of, four_of, channels_of, Reach, Wrote};

use crate::Axis;

// Two neighbours and a rest, rounded to the nearest: t over 65535 is t + t / 65536 over 65536.
fn mix(low: u16, high: u16, rest: u16) -> u16
    ensures { result ≡ blend low high rest }
{
    let t = low as u32 * (65535 - rest as u32) + high as u32 * rest as u32 + 32768;
    ((t + t / 65536) / 65536) as u16
}

// The entry at a place, one of one byte widened.
fn sample(tag: &[u8], hop: usize, at: usize) -> u16
    requires { (at + hop < length tag.now) × (hop ≤ 1) }
    ensures { result ≡ sample_at tag.now at (hop + 1) }
{
    tag[at] as u16 * 256 + tag[at + hop] as u16
}

fn line(tag: &[u8], hop: usize, at: usize, x0: Axis) -> u16
    requires { (at + x0.up + hop < length tag.now) × (hop ≤ 1) }
    ensures { result ≡ line_of tag.now (hop + 1) at x0.up x0.rest }
{
    let low = sample(tag, hop, at);
    let high = sample(tag, hop, at + x0.up);
    mix(low, high, x0.rest)
}

fn plane(tag: &[u8], hop: usize, at: usize, x0: Axis, x1: Axis) -> u16
    requires { (at + x0.up + x1.up + hop < length tag.now) × (hop ≤ 1) }
    ensures { result ≡ plane_of tag.now (hop + 1) at x0.up x0.rest x1.up x1.rest }
{
    let low = line(tag, hop, at, x0);
    let high = line(tag, hop, at + x1.up, x0);
    mix(low, high, x1.rest)
}

fn cube(tag: &[u8], hop: usize, at: usize, x0: Axis, x1: Axis, x2: Axis) -> u16
    requires { (at + x0.up + x1.up + x2.up + hop < length tag.now) × (hop ≤ 1) }
    ensures { result ≡ cube_of tag.now (hop + 1) at x0.up x0.rest x1.up x1.rest x2.up x2.rest }
{
    let low = plane(tag, hop, at, x0, x1);
    let high = plane(tag, hop, at + x2.up, x0, x1);
    mix(low, high, x2.rest)
}

#[inline(always)]
fn four(tag: &[u8], hop: usize, at: usize, x0: Axis, x1: Axis, x2: Axis, x3: Axis) -> u16
    requires { (at + x0.up + x1.up + x2.up + x3.up + hop < length tag.now) × (hop ≤ 1) }
    ensures { result ≡ four_of tag.now (hop + 1) at x0.up x0.rest x1.up x1.rest x2.up x2.rest x3.up x3.rest }
{
    let low = cube(tag, hop, at, x0, x1, x2);
    let high = cube(tag, hop, at + x3.up, x0, x1, x2);
    mix(low, high, x3.rest)
}

// Three channels of a table with one dimension.
pub(crate) fn three_lines(tag: &[u8], hop: usize, at: usize, x0: Axis, out: &mut [u16], to: usize)
    requires { (at + x0.up + 3 * (hop + 1) ≤ length tag.now) × (to + 3 ≤ length out.old) × (hop ≤ 1) }
    ensures { out.new ≡ sets out.old to (channels_of tag.now (hop + 1) at x0.up x0.rest 0 0 0 0 0 0 3) }
{
    let a = line(tag, hop, at, x0);
    let b = line(tag, hop, at + (hop + 1), x0);
    let c = line(tag, hop, at + (hop + 1) + (hop + 1), x0);
    out[to] = a;
    out[to + 1] = b;
    out[to + 2] = c;
}

// With two.
pub(crate) fn three_planes(
    tag: &[u8],
    hop: usize,
    at: usize,
    x0: Axis,
    x1: Axis,
    out: &mut [u16],
    to: usize,
)
    requires { (at + x0.up + x1.up + 3 * (hop + 1) ≤ length tag.now) × (to + 3 ≤ length out.old) × (hop ≤ 1) }
    ensures { out.new ≡ sets out.old to (channels_of tag.now (hop + 1) at x0.up x0.rest x1.up x1.rest 0 0 0 0 3) }
{
    let a = plane(tag, hop, at, x0, x1);
    let b = plane(tag, hop, at + (hop + 1), x0, x1);
    let c = plane(tag, hop, at + (hop + 1) + (hop + 1), x0, x1);
    out[to] = a;
    out[to + 1] = b;
    out[to + 2] = c;
}

// With three, by the size of an entry.
#[inline(always)]
fn three_cubes_by<const HOP: usize>(
    tag: &[u8],
    at: usize,
    x0: Axis,
    x1: Axis,
    x2: Axis,
    out: &mut [u16],
    to: usize,
)
    requires { (at + x0.up + x1.up + x2.up + 3 * (HOP + 1) ≤ length tag.now) × (to + 3 ≤ length out.old) × (HOP ≤ 1) }
    ensures { out.new ≡ sets out.old to (channels_of tag.now (HOP + 1) at x0.up x0.rest x1.up x1.rest x2.up x2.rest 0 0 3) }
{
    let a = cube(tag, HOP, at, x0, x1, x2);
    let b = cube(tag, HOP, at + (HOP + 1), x0, x1, x2);
    let c = cube(tag, HOP, at + (HOP + 1) + (HOP + 1), x0, x1, x2);
    out[to] = a;
    out[to + 1] = b;
    out[to + 2] = c;
}

// Four channels of these.
#[inline(always)]
fn four_cubes_by<const HOP: usize>(
    tag: &[u8],
    at: usize,
    x0: Axis,
    x1: Axis,
    x2: Axis,
    out: &mut [u16],
    to: usize,
)
    requires { (at + x0.up + x1.up + x2.up + 4 * (HOP + 1) ≤ length tag.now) × (to + 4 ≤ length out.old) × (HOP ≤ 1) }
    ensures { out.new ≡ sets out.old to (channels_of tag.now (HOP + 1) at x0.up x0.rest x1.up x1.rest x2.up x2.rest 0 0 4) }
{
    let a = cube(tag, HOP, at, x0, x1, x2);
    let b = cube(tag, HOP, at + (HOP + 1), x0, x1, x2);
    let c = cube(tag, HOP, at + (HOP + 1) + (HOP + 1), x0, x1, x2);
    let d = cube(tag, HOP, at + (HOP + 1) + (HOP + 1) + (HOP + 1), x0, x1, x2);
    out[to] = a;
    out[to + 1] = b;
    out[to + 2] = c;
    out[to + 3] = d;
}

// Three channels of a table with four dimensions.
#[inline(always)]
fn three_fours_by<const HOP: usize>(
    tag: &[u8],
    at: usize,
    x0: Axis,
    x1: Axis,
    x2: Axis,
    x3: Axis,
    out: &mut [u16],
    to: usize,
)
    requires { (at + x0.up + x1.up + x2.up + x3.up + 3 * (HOP + 1) ≤ length tag.now) × (to + 3 ≤ length out.old) × (HOP ≤ 1) }
    ensures { out.new ≡ sets out.old to (channels_of tag.now (HOP + 1) at x0.up x0.rest x1.up x1.rest x2.up x2.rest x3.up x3.rest 3) }
{
    out[to] = four(tag, HOP, at, x0, x1, x2, x3);
    out[to + 1] = four(tag, HOP, at + (HOP + 1), x0, x1, x2, x3);
    out[to + 2] = four(tag, HOP, at + (HOP + 1) + (HOP + 1), x0, x1, x2, x3);
}

// The same with the size of an entry as a number.
#[inline(always)]
pub(crate) fn three_cubes(
    tag: &[u8],
    hop: usize,
    at: usize,
    x0: Axis,
    x1: Axis,
    x2: Axis,
    out: &mut [u16],
    to: usize,
)
    requires { (at + x0.up + x1.up + x2.up + 3 * (hop + 1) ≤ length tag.now) × (to + 3 ≤ length out.old) × (hop ≤ 1) }
    ensures { out.new ≡ sets out.old to (channels_of tag.now (hop + 1) at x0.up x0.rest x1.up x1.rest x2.up x2.rest 0 0 3) }
{
    if hop == 1 {
        three_cubes_by::<1>(tag, at, x0, x1, x2, out, to)
    } else {
        three_cubes_by::<0>(tag, at, x0, x1, x2, out, to)
    }
}

#[inline(always)]
fn four_cubes(
    tag: &[u8],
    hop: usize,
    at: usize,
    x0: Axis,
    x1: Axis,
    x2: Axis,
    out: &mut [u16],
    to: usize,
)
    requires { (at + x0.up + x1.up + x2.up + 4 * (hop + 1) ≤ length tag.now) × (to + 4 ≤ length out.old) × (hop ≤ 1) }
    ensures { out.new ≡ sets out.old to (channels_of tag.now (hop + 1) at x0.up x0.rest x1.up x1.rest x2.up x2.rest 0 0 4) }
{
    if hop == 1 {
        four_cubes_by::<1>(tag, at, x0, x1, x2, out, to)
    } else {
        four_cubes_by::<0>(tag, at, x0, x1, x2, out, to)
    }
}

#[inline(always)]
pub(crate) fn three_fours(
    tag: &[u8],
    hop: usize,
    at: usize,
    x0: Axis,
    x1: Axis,
    x2: Axis,
    x3: Axis,
    out: &mut [u16],
    to: usize,
)
    requires { (at + x0.up + x1.up + x2.up + x3.up + 3 * (hop + 1) ≤ length tag.now) × (to + 3 ≤ length out.old) × (hop ≤ 1) }
    ensures { out.new ≡ sets out.old to (channels_of tag.now (hop + 1) at x0.up x0.rest x1.up x1.rest x2.up x2.rest x3.up x3.rest 3) }
{
    if hop == 1 {
        three_fours_by::<1>(tag, at, x0, x1, x2, x3, out, to)
    } else {
        three_fours_by::<0>(tag, at, x0, x1, x2, x3, out, to)
    }
}

// With a rest of 0 in the first dimension three are enough.
fn three(
    tag: &[u8],
    hop: usize,
    at: usize,
    x0: Axis,
    x1: Axis,
    x2: Axis,
    x3: Axis,
    out: &mut [u16],
    to: usize,
)
    requires { (at + x0.up + x1.up + x2.up + x3.up + 3 * (hop + 1) ≤ length tag.now) × (to + 3 ≤ length out.old) × (hop ≤ 1) }
    ensures { out.new ≡ sets out.old to (channels_of tag.now (hop + 1) at x0.up x0.rest x1.up x1.rest x2.up x2.rest x3.up x3.rest 3) }
{
    if x3.rest == 0 {
        three_cubes(tag, hop, at, x0, x1, x2, out, to)
    } else {
        three_fours(tag, hop, at, x0, x1, x2, x3, out, to)
    }
}

// The next channels of those that are left: four, three or one. Answers how many.
fn some(
    tag: &[u8],
    hop: usize,
    at: usize,
    x0: Axis,
    x1: Axis,
    x2: Axis,
    x3: Axis,
    left: usize,
    out: &mut [u16],
    to: usize,
) -> usize
    requires { Reach tag.now hop at x0.up x1.up x2.up x3.up left out.old to }
    ensures { Wrote tag.now (hop + 1) at x0.up x0.rest x1.up x1.rest x2.up x2.rest x3.up x3.rest left result out.old to out.new }
{
    if x3.rest == 0 {
        if 4 <= left {
            four_cubes(tag, hop, at, x0, x1, x2, out, to);
            return 4;
        }
    }
    if 3 <= left {
        three(tag, hop, at, x0, x1, x2, x3, out, to);
        return 3;
    }
    out[to] = four(tag, hop, at, x0, x1, x2, x3);
    1
}

// Any number of channels: so many at a time that no `for` counts them.
pub(crate) fn paint(
    tag: &[u8],
    hop: usize,
    at: usize,
    x0: Axis,
    x1: Axis,
    x2: Axis,
    x3: Axis,
    outs: usize,
    out: &mut [u16],
    to: usize,
)
    requires { Reach tag.now hop at x0.up x1.up x2.up x3.up outs out.old to }
    ensures { out.new ≡ sets out.old to (channels_of tag.now (hop + 1) at x0.up x0.rest x1.up x1.rest x2.up x2.rest x3.up x3.rest outs) }
{
    let mut place = at;
    let mut channel = 0;
    while channel < outs {
        let n = some(
            tag,
            hop,
            place,
            x0,
            x1,
            x2,
            x3,
            outs - channel,
            out,
            to + channel,
        );
        place += n * (hop + 1);
        channel += n;
    }
}
