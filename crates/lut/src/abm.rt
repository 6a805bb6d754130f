// `mAB ` and `mBA `, the standard's lutAToBType and lutBToAType: read_lut_abm_type of moxcms.
//
//    0 to  3  'mAB ' or 'mBA '
//    4 to  7  reserved, 0
//    8        input channels
//    9        output channels
//   10 to 11  reserved, 0
//   12 to 15  offset of the B curves
//   16 to 19  offset of the matrix: nine numbers, and behind them three bias numbers
//   20 to 23  offset of the M curves
//   24 to 27  offset of the colour table
//   28 to 31  offset of the A curves
//
// Offsets count from the tag's first byte; a part whose offset is 0 is not there.
ghost use Rattle.std.specs.Prelude.{Some, Ok, ◌≡◌, ◌&&◌, ◌++◌, ◌+◌, ◌*◌, ◌^◌, ◌≤◌, ◌<◌, ltb, eqb, length, drop};
ghost use Rattle.fields.specs.Checked.{good};
ghost use Rattle.lut_clut_meaning.specs.Answer.{in_numbers as Clut·inNumbers, answer_of};
ghost use Rattle.fields.specs.Bytes.{bytes_at};
ghost use Rattle.curve_meaning.specs.Shape.{record_words};
ghost use Rattle.lut_run_meaning.specs.Run.{records_of};
ghost use Rattle.lut_meaning.specs.Abm.{value_of, abm_of};
ghost use Rattle.lut_meaning.specs.Lut.{AnswerAndSlots};
ghost use Rattle.lut_meaning.specs.Parts.{matrix_checked, table_in, colour_table_of, RunsWhole, curves_of};
ghost use Rattle.lut_meaning.specs.Answer.{in_numbers};
ghost use Rattle.lut_meaning.specs.Layout.{to_pcs_of, inputs, outputs, device_channels, space_channels, present, grid_of, matrix_of, bias_of};
ghost use Rattle.lut.specs.Passed.{TableGood};
ghost use Rattle.lut.specs.Runs.{Few, RunsOf, runs_checked};
ghost use Rattle.lut.specs.Verdict.{verdict_in_numbers};

use crate::nested::{self, RECORD_WORDS, Run};
use curve::Walk;
use fields::{InTag, Kind, Refusal};
use lut_clut_meaning::ColourTable;
use lut_meaning::{Abm, AbmTable, Lut};

const INPUTS: InTag = InTag(8);

const OUTPUTS: InTag = InTag(9);

const B_OFFSET: InTag = InTag(12);

const MATRIX_OFFSET: InTag = InTag(16);

const M_OFFSET: InTag = InTag(20);

const CLUT_OFFSET: InTag = InTag(24);

const A_OFFSET: InTag = InTag(28);

// The bytes of a matrix and its bias, and where in them the bias starts.
const MATRIX_BYTES: u64 = 48;

const BIAS_FROM: u64 = 36;

// The runs A, M and B: read once, for the checks and the writing.
#[derive(Clone, Copy)]
struct Runs {
    a: Run,
    m: Run,
    b: Run,
}

// Whether the tag leads towards the connection space.
#[inline(always)]
fn to_pcs(tag: &[u8]) -> bool
    ensures { result ≡ to_pcs_of tag.now }
{
    fields::u32_at(tag, InTag(0)) == Kind::MAB
}

// The channels on the device's side, and on the connection space's.
fn device_channels(tag: &[u8]) -> u8
    ensures { result ≡ device_channels tag.now }
{
    if to_pcs(tag) {
        fields::u8_at(tag, INPUTS)
    } else {
        fields::u8_at(tag, OUTPUTS)
    }
}

fn space_channels(tag: &[u8]) -> u8
    ensures { result ≡ space_channels tag.now }
{
    if to_pcs(tag) {
        fields::u8_at(tag, OUTPUTS)
    } else {
        fields::u8_at(tag, INPUTS)
    }
}

// The curves of a run: none where its offset is 0.
fn run_length(offset: u32, channels: u8) -> u32
    ensures { Few (present offset channels) result }
{
    if offset == 0 { 0 } else { u32::from(channels) }
}

// The runs of the tag.
fn find_runs(tag: &[u8]) -> Runs
    ensures { RunsOf tag.now result }
{
    let device = device_channels(tag);
    let space = space_channels(tag);
    let a = fields::u32_at(tag, A_OFFSET);
    let m = fields::u32_at(tag, M_OFFSET);
    let b = fields::u32_at(tag, B_OFFSET);
    Runs {
        a: Run {
            at: InTag(u64::from(a)),
            curves: run_length(a, device),
        },
        m: Run {
            at: InTag(u64::from(m)),
            curves: run_length(m, space),
        },
        b: Run {
            at: InTag(u64::from(b)),
            curves: run_length(b, space),
        },
    }
}

// Judges the three runs in order.
fn check_runs(tag: &[u8], runs: Runs, limit: u64, walk: Walk) -> Result<(), Refusal>
    requires { (length tag.now < 2 ^ 32) × RunsOf tag.now runs }
    ensures { verdict_in_numbers result ≡ runs_checked walk limit tag.now }
{
    nested::check_run(tag, runs.a, limit, walk)?;
    nested::check_run(tag, runs.m, limit, walk)?;
    nested::check_run(tag, runs.b, limit, walk)
}

// Writes the records of the three runs, which were judged good: each from the slot where the one before ended.
fn write_runs(tag: &[u8], runs: Runs, limit: u64, walk: Walk, slots: &mut [u32])
    requires { (length tag.now < 2 ^ 32) × RunsOf tag.now runs × RunsWhole walk limit tag.now × ((runs.a.curves + runs.m.curves + runs.b.curves) * record_words ≤ length slots.old) }
    ensures { slots.new ≡ records_of (curves_of walk limit tag.now) ++ drop ((runs.a.curves + runs.m.curves + runs.b.curves) * record_words) slots.old }
{
    let a_curves = runs.a.curves as usize;
    let m_curves = runs.m.curves as usize;
    nested::write_run(tag, runs.a, limit, walk, slots);
    let first_m = a_curves * RECORD_WORDS;
    nested::write_run(tag, runs.m, limit, walk, &mut slots[first_m..]);
    let first_b = (a_curves + m_curves) * RECORD_WORDS;
    nested::write_run(tag, runs.b, limit, walk, &mut slots[first_b..]);
}

// Whether there are curves B alone, or none.
fn has_b_alone(runs: Runs) -> bool
    ensures { result ≡ eqb runs.a.curves 0 && eqb runs.m.curves 0 }
{
    runs.a.curves == 0 && runs.m.curves == 0
}

// Judges the runs. Many tags have curves B alone, and then there is one run to walk.
fn judge_runs(tag: &[u8], runs: Runs, limit: u64, walk: Walk) -> Result<(), Refusal>
    requires { (length tag.now < 2 ^ 32) × RunsOf tag.now runs }
    ensures { verdict_in_numbers result ≡ runs_checked walk limit tag.now }
{
    if has_b_alone(runs) {
        return nested::check_run(tag, runs.b, limit, walk);
    }
    check_runs(tag, runs, limit, walk)
}

// Writes the records of the runs, which were judged good.
#[inline(always)]
fn record_runs(tag: &[u8], runs: Runs, limit: u64, walk: Walk, slots: &mut [u32])
    requires { (length tag.now < 2 ^ 32) × RunsOf tag.now runs × RunsWhole walk limit tag.now × ((runs.a.curves + runs.m.curves + runs.b.curves) * record_words ≤ length slots.old) }
    ensures { slots.new ≡ records_of (curves_of walk limit tag.now) ++ drop ((runs.a.curves + runs.m.curves + runs.b.curves) * record_words) slots.old }
{
    if has_b_alone(runs) {
        nested::write_run(tag, runs.b, limit, walk, slots);
        return;
    }
    write_runs(tag, runs, limit, walk, slots);
}

// A matrix that is there lies in the tag, its bias with it.
fn check_matrix(tag: &[u8]) -> Result<(), Refusal>
    ensures { verdict_in_numbers result ≡ matrix_checked tag.now }
{
    let at = fields::u32_at(tag, MATRIX_OFFSET);
    if at == 0 {
        return Ok(());
    }
    if (tag.len() as u64) < u64::from(at) + MATRIX_BYTES {
        return Err(Refusal::TagTooShort);
    }
    Ok(())
}

// The colour table; one that is not there has no data, at 0.
fn find_table(tag: &[u8]) -> Result<ColourTable, Refusal>
    ensures { Clut·inNumbers result ≡ answer_of (colour_table_of tag.now) }
{
    let at = fields::u32_at(tag, CLUT_OFFSET);
    if at == 0 {
        return Ok(ColourTable {
            points: 1,
            start: InTag(0),
            length: 0,
            entry_size: 0,
        });
    }
    let inputs = fields::u8_at(tag, INPUTS);
    let outputs = fields::u8_at(tag, OUTPUTS);
    lut_clut::read_clut(tag, InTag(u64::from(at)), inputs, outputs)
}

// Fills `out` with the bytes from `at` on, all of them in the tag.
fn fill_bytes(tag: &[u8], at: InTag, out: &mut [u8])
    requires { at.0 + length out.old ≤ length tag.now }
    ensures { out.new ≡ bytes_at tag.now at.0 (length out.old) }
{
    for i in 0..out.len() {
        out[i] = tag[at.0 as usize + i];
    }
}

// The matrix; one that is not there is the identity.
#[inline(always)]
fn matrix(tag: &[u8]) -> [u32; 9]
    ensures { result ≡ matrix_of tag.now }
{
    let at = fields::u32_at(tag, MATRIX_OFFSET);
    if at == 0 {
        return [65536, 0, 0, 0, 65536, 0, 0, 0, 65536];
    }
    fields::nine_at(tag, InTag(u64::from(at)))
}

#[inline(always)]
fn bias(tag: &[u8]) -> [u32; 3]
    ensures { result ≡ bias_of tag.now }
{
    let at = fields::u32_at(tag, MATRIX_OFFSET);
    if at == 0 {
        return [0; 3];
    }
    let behind = u64::from(at) + BIAS_FROM;
    let x = fields::u32_at(tag, InTag(behind));
    let y = fields::u32_at(tag, InTag(behind + 4));
    let z = fields::u32_at(tag, InTag(behind + 8));
    [x, y, z]
}

// The sixteen grid bytes, zeros without a colour table.
fn grid(tag: &[u8]) -> [u8; 16]
    requires { colour_table_of tag.now ≡ good (table_in tag.now) }
    ensures { result ≡ grid_of tag.now }
{
    let at = fields::u32_at(tag, CLUT_OFFSET);
    let mut bytes = [0u8; 16];
    if at != 0 {
        fill_bytes(tag, InTag(u64::from(at)), &mut bytes);
    }
    bytes
}

// What a good tag says, with its runs and its colour table. It is inlined, with the matrix and the bias: else each byte is sought past the tag's end, and each
// number is stored and read back at once, by which a tag of curves B alone took half as much time again.
#[inline(always)]
fn value(tag: &[u8], runs: Runs, table: ColourTable) -> Abm
    requires { RunsOf tag.now runs × TableGood tag.now table }
    ensures { in_numbers (Ok (Some (Lut.Abm result))) ≡ value_of tag.now }
{
    let table = AbmTable {
        to_pcs: to_pcs(tag),
        inputs: fields::u8_at(tag, INPUTS),
        outputs: fields::u8_at(tag, OUTPUTS),
        clut_start: table.start,
        clut_length: table.length,
        entry_size: table.entry_size,
        a_curves: runs.a.curves,
        m_curves: runs.m.curves,
        b_curves: runs.b.curves,
    };
    let grid = grid(tag);
    let matrix = matrix(tag);
    let bias = bias(tag);
    Abm {
        table,
        grid,
        matrix,
        bias,
    }
}

// Whether both sides have more than four channels.
fn too_many_channels(tag: &[u8]) -> bool
    ensures { result ≡ ltb 4 (inputs tag.now) && ltb 4 (outputs tag.now) }
{
    4 < fields::u8_at(tag, INPUTS) && 4 < fields::u8_at(tag, OUTPUTS)
}

// A tag of 48 bytes or more, of either type. Everything is judged first, and written once nothing can be refused.
pub(crate) fn read_lut_abm_type(
    tag: &[u8],
    limit: u64,
    walk: Walk,
    slots: &mut [u32],
) -> Result<Option<Lut>, Refusal>
    requires { length tag.now < 2 ^ 32 }
    ensures { AnswerAndSlots walk limit tag.now (abm_of walk limit tag.now (length slots.old)) result slots.old slots.new }
{
    if too_many_channels(tag) {
        return Ok(None);
    }
    check_matrix(tag)?;
    let table = find_table(tag)?;
    let runs = find_runs(tag);
    judge_runs(tag, runs, limit, walk)?;
    let needed = runs.a.curves + runs.m.curves + runs.b.curves;
    if slots.len() / RECORD_WORDS < needed as usize {
        return Err(Refusal::TooFewSlots);
    }
    record_runs(tag, runs, limit, walk, slots);
    Ok(Some(Lut::Abm(value(tag, runs, table))))
}
