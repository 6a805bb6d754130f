// Colours between the points of a colour table, in integers: of one pixel, and of a row of them. The table is judged once, then the corners around
// each pixel are found, and blended (src/corners.rt). `evaluate_plain` has the same for one pixel as a function that calls itself.
#![tactic(auto)]

mod corners;

ghost use Rattle.std.specs.Prelude.{◌≡◌, false, ℕ, ◌+◌, ◌≤◌, ◌<◌, ◌^◌, length, drop};
ghost use Rattle.std.proofs.lemmas.List.Edits.{sets};
ghost use Rattle.lut_view_meaning.specs.View.{table_by};
ghost use Rattle.evaluate_meaning.specs.Colour.{colour};
ghost use Rattle.evaluate_meaning.specs.Evaluate.{odd_numbers, colours_of, Evaluated, RowEvaluated};
ghost use Rattle.evaluate.specs.Parts.{dim_of, pick_of, ShapeOf, JudgedAs, AxisIn, AxisOf, Spot, Three, Any, Row};

use fields::Refusal;
pub use lut_view_meaning::TableNumbers;

// A dimension of a table: its points, 0 where the tag has less than two, and the bytes from one to the next.
#[derive(Clone, Copy)]
struct Dimension {
    points: u32,
    stride: usize,
}

// A table that is judged: its dimensions, the last one first, one of a single point where there is none; the bytes of all entries, 0 where a dimension is
// below 2; where the entries start; and the bytes of one less 1.
#[derive(Clone, Copy)]
struct Shape {
    dimensions: [Dimension; 4],
    bytes: usize,
    start: usize,
    hop: usize,
}

// A coordinate in its dimension: the bytes to its cell, from there to the upper neighbour, none where the rest is 0, and the rest.
#[derive(Clone, Copy)]
struct Axis {
    off: usize,
    up: usize,
    rest: u16,
}

// Coordinate `k` of the `n` of the pixel at `i`, the last one being 0; 0 where there is none.
fn pick(xs: &[u16], i: usize, n: usize, k: usize) -> u16
    requires { i + n ≤ length xs.now }
    ensures { result ≡ pick_of xs.now i n k }
{
    if n <= k {
        return 0;
    }
    xs[i + (n - 1 - k)]
}

// The same in its dimension.
fn along(xs: &[u16], i: usize, n: usize, k: usize, d: Dimension) -> Axis
    requires { AxisIn xs.now i n d.points d.stride }
    ensures { AxisOf xs.now i n k d.points d.stride result }
{
    let position = pick(xs, i, n, k) as u32 * (d.points - 1);
    let cell = position / 65535;
    let rest = position % 65535;
    Axis {
        off: cell as usize * d.stride,
        up: evaluate_parts::lift(rest, d.stride),
        rest: rest as u16,
    }
}

fn place(start: usize, o0: usize, o1: usize, o2: usize, o3: usize) -> usize
    requires { start + o0 + o1 + o2 + o3 < 2 ^ 64 }
    ensures { result ≡ start + o0 + o1 + o2 + o3 }
{
    start + o0 + o1 + o2 + o3
}

// A form of the code for the tables of some numbers of inputs and outputs: the colour of the pixel whose coordinates stand from `i` on, written from
// `to` on.
trait Form {
    ghost suits: { ℕ → ℕ → Type 0 };

    fn paint(
        tag: &[u8],
        b: TableNumbers,
        h: Shape,
        xs: &[u16],
        i: usize,
        out: &mut [u16],
        to: usize,
    )
        requires { (Spot tag.now b h xs.now i out.old to) × suits b.inputs b.outputs }
        ensures { out.new ≡ sets out.old to (colour tag.now (table_by tag.now b) (drop i xs.now)) };
}

// Three outputs with one input, with two, with three and with four; and any table.
struct Lines;

struct Planes;

struct Cubes;

struct Fours;

struct Tables;

impl Form for Lines {
    ghost suits = { Three 1 };

    fn paint(
        tag: &[u8],
        b: TableNumbers,
        h: Shape,
        xs: &[u16],
        i: usize,
        out: &mut [u16],
        to: usize,
    ) {
        let x0 = along(xs, i, 1, 0, h.dimensions[0]);
        let at = place(h.start, x0.off, 0, 0, 0);
        corners::three_lines(tag, h.hop, at, x0, out, to);
    }
}

impl Form for Planes {
    ghost suits = { Three 2 };

    fn paint(
        tag: &[u8],
        b: TableNumbers,
        h: Shape,
        xs: &[u16],
        i: usize,
        out: &mut [u16],
        to: usize,
    ) {
        let x0 = along(xs, i, 2, 0, h.dimensions[0]);
        let x1 = along(xs, i, 2, 1, h.dimensions[1]);
        let at = place(h.start, x0.off, x1.off, 0, 0);
        corners::three_planes(tag, h.hop, at, x0, x1, out, to);
    }
}

impl Form for Cubes {
    ghost suits = { Three 3 };

    fn paint(
        tag: &[u8],
        b: TableNumbers,
        h: Shape,
        xs: &[u16],
        i: usize,
        out: &mut [u16],
        to: usize,
    ) {
        let x0 = along(xs, i, 3, 0, h.dimensions[0]);
        let x1 = along(xs, i, 3, 1, h.dimensions[1]);
        let x2 = along(xs, i, 3, 2, h.dimensions[2]);
        let at = place(h.start, x0.off, x1.off, x2.off, 0);
        corners::three_cubes(tag, h.hop, at, x0, x1, x2, out, to);
    }
}

impl Form for Fours {
    ghost suits = { Three 4 };

    fn paint(
        tag: &[u8],
        b: TableNumbers,
        h: Shape,
        xs: &[u16],
        i: usize,
        out: &mut [u16],
        to: usize,
    ) {
        let x0 = along(xs, i, 4, 0, h.dimensions[0]);
        let x1 = along(xs, i, 4, 1, h.dimensions[1]);
        let x2 = along(xs, i, 4, 2, h.dimensions[2]);
        let x3 = along(xs, i, 4, 3, h.dimensions[3]);
        let at = place(h.start, x0.off, x1.off, x2.off, x3.off);
        corners::three_fours(tag, h.hop, at, x0, x1, x2, x3, out, to);
    }
}

impl Form for Tables {
    ghost suits = { Any };

    fn paint(
        tag: &[u8],
        b: TableNumbers,
        h: Shape,
        xs: &[u16],
        i: usize,
        out: &mut [u16],
        to: usize,
    ) {
        let n = b.inputs as usize;
        let x0 = along(xs, i, n, 0, h.dimensions[0]);
        let x1 = along(xs, i, n, 1, h.dimensions[1]);
        let x2 = along(xs, i, n, 2, h.dimensions[2]);
        let x3 = along(xs, i, n, 3, h.dimensions[3]);
        let at = place(h.start, x0.off, x1.off, x2.off, x3.off);
        corners::paint(tag, h.hop, at, x0, x1, x2, x3, b.outputs as usize, out, to);
    }
}

// The pixels of a row one after the other.
fn row<F: Form>(tag: &[u8], b: TableNumbers, h: Shape, xs: &[u16], count: usize, out: &mut [u16])
    requires { (Row tag.now b h xs.now count out.old) × F.suits b.inputs b.outputs }
    ensures { out.new ≡ sets out.old 0 (colours_of tag.now b xs.now count) }
{
    for k in 0..count {
        F::paint(
            tag,
            b,
            h,
            xs,
            k * b.inputs as usize,
            out,
            k * b.outputs as usize,
        );
    }
}

// One pixel by the form that suits the table, and a row.
fn one(tag: &[u8], b: TableNumbers, h: Shape, xs: &[u16], out: &mut [u16])
    requires { Spot tag.now b h xs.now 0 out.old 0 }
    ensures { out.new ≡ sets out.old 0 (colour tag.now (table_by tag.now b) (drop 0 xs.now)) }
{
    match (b.inputs, b.outputs) {
        (1, 3) => Lines::paint(tag, b, h, xs, 0, out, 0),
        (2, 3) => Planes::paint(tag, b, h, xs, 0, out, 0),
        (3, 3) => Cubes::paint(tag, b, h, xs, 0, out, 0),
        (4, 3) => Fours::paint(tag, b, h, xs, 0, out, 0),
        _ => Tables::paint(tag, b, h, xs, 0, out, 0),
    }
}

fn all(tag: &[u8], b: TableNumbers, h: Shape, xs: &[u16], count: usize, out: &mut [u16])
    requires { Row tag.now b h xs.now count out.old }
    ensures { out.new ≡ sets out.old 0 (colours_of tag.now b xs.now count) }
{
    match (b.inputs, b.outputs) {
        (1, 3) => row::<Lines>(tag, b, h, xs, count, out),
        (2, 3) => row::<Planes>(tag, b, h, xs, count, out),
        (3, 3) => row::<Cubes>(tag, b, h, xs, count, out),
        (4, 3) => row::<Fours>(tag, b, h, xs, count, out),
        _ => row::<Tables>(tag, b, h, xs, count, out),
    }
}

// The points of a dimension, the last one being 0: 1 where there is none, and 0 where it is below 2.
fn dim(tag: &[u8], at: usize, step: usize, n: usize, k: usize) -> u32
    requires { (at < length tag.now) × (step < 256) × (n ≤ 4) }
    ensures { (result ≡ dim_of tag.now at step n k) × (result < 256) }
{
    if n <= k {
        return 1;
    }
    let i = at + (n - 1 - k) * step;
    if tag.len() <= i {
        return 0;
    }
    let g = tag[i] as u32;
    if g < 2 {
        return 0;
    }
    g
}

// The shape of a table of numbers that are not odd.
#[inline(always)]
fn measure(tag: &[u8], b: TableNumbers) -> Shape
    requires { (odd_numbers b ≡ false) × (b.grid_at.0 < length tag.now) }
    ensures { ShapeOf tag.now b result }
{
    let at = b.grid_at.0 as usize;
    let n = b.inputs as usize;
    let step = b.grid_step as usize;
    let hop = b.entry_size as usize - 1;
    let s0 = b.outputs as usize * (hop + 1);
    let g0 = dim(tag, at, step, n, 0);
    let g1 = dim(tag, at, step, n, 1);
    let g2 = dim(tag, at, step, n, 2);
    let g3 = dim(tag, at, step, n, 3);
    let s1 = s0 * g0 as usize;
    let s2 = s1 * g1 as usize;
    let s3 = s2 * g2 as usize;
    let bytes = s3 * g3 as usize;
    Shape {
        dimensions: [
            Dimension {
                points: g0,
                stride: s0,
            },
            Dimension {
                points: g1,
                stride: s1,
            },
            Dimension {
                points: g2,
                stride: s2,
            },
            Dimension {
                points: g3,
                stride: s3,
            },
        ],
        bytes,
        start: b.start.0 as usize,
        hop,
    }
}

// The same of any numbers, refused where they name no table of 1 to 4 inputs in the tag.
#[inline(always)]
fn judge(tag: &[u8], b: TableNumbers) -> Result<Shape, Refusal>
    ensures { JudgedAs tag.now b result }
{
    if evaluate_parts::odd(b) {
        return Err(Refusal::NoColourTable);
    }
    if tag.len() as u64 <= b.grid_at.0 {
        return Err(Refusal::NoColourTable);
    }
    let h = measure(tag, b);
    if evaluate_parts::past(tag, b.start.0, h.bytes) {
        return Err(Refusal::NoColourTable);
    }
    Ok(h)
}

// The colour of a pixel, at one coordinate for each input of the table, into the front of `results`.
pub fn evaluate(
    tag: &[u8],
    numbers: TableNumbers,
    coordinates: &[u16],
    results: &mut [u16],
) -> Result<usize, Refusal>
    ensures { Evaluated tag.now numbers coordinates.now results.old result results.new }
{
    if coordinates.len() != numbers.inputs as usize {
        return Err(Refusal::NoColourTable);
    }
    let h = judge(tag, numbers)?;
    let outs = numbers.outputs as usize;
    if results.len() < outs {
        return Err(Refusal::TooFewSlots);
    }
    one(tag, numbers, h, coordinates, results);
    Ok(outs)
}

// The colours of a row of pixels, whose coordinates and results stand pixel after pixel.
pub fn evaluate_row(
    tag: &[u8],
    numbers: TableNumbers,
    coordinates: &[u16],
    results: &mut [u16],
) -> Result<usize, Refusal>
    ensures { RowEvaluated tag.now numbers coordinates.now results.old result results.new }
{
    let h = judge(tag, numbers)?;
    let count = evaluate_parts::pixels_in(coordinates.len(), numbers.inputs);
    if count * numbers.inputs as usize != coordinates.len() {
        return Err(Refusal::NoColourTable);
    }
    if evaluate_parts::too_few(results.len(), count, numbers.outputs) {
        return Err(Refusal::TooFewSlots);
    }
    let total = count * numbers.outputs as usize;
    all(tag, numbers, h, coordinates, count, results);
    Ok(total)
}
