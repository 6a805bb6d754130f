// Each reader under the contract that the demands build on, `Keeps`, `Reads` and `Evaluates` of demands/specs/Readers.antt: a function a reader, which
// calls it and adds nothing. So a reader that promises less is refused here. What a reader does not take may be anything: limits, and slots, which
// stay.
#![tactic(auto)]

ghost use Rattle.std.specs.Prelude.{ℕ, List};
ghost use Rattle.small_meaning.specs.Readers.{chad, sig, date, meas, view, xyz, cicp};
ghost use Rattle.demands.specs.Readers.{lut, trc, string, small, call, pixel, row, pixels, Keeps, Reads, Evaluates};

use curve::{CurveRead, Walk};
use fields::{Entry, Refusal};
use lut::Lut;
use lut_view::TableNumbers;
use small_meaning::{ChadMatrix, CicpCodes, Measurement, ViewingConditions, XyzNumber};
use text::TextValue;

pub fn lut_tag(
    profile: &[u8],
    entry: Entry,
    size: u32,
    entries: u64,
    points: u64,
    walk: Walk,
    slots: &mut [u32],
) -> Result<Option<Lut>, Refusal>
    ensures { Keeps (lut walk) (call profile.now entry.0 size entries points slots.old) result slots.new }
{
    lut::read_lut_tag(profile, entry, size, entries, points, walk, slots)
}

pub fn trc_tag(
    profile: &[u8],
    entry: Entry,
    size: u32,
    entries: u64,
    walk: Walk,
) -> Result<Option<CurveRead>, Refusal>
    ensures { (points : ℕ) (slots : List ℕ) → Keeps (trc walk) (call profile.now entry.0 size entries points slots) result slots }
{
    curve::read_trc_tag(profile, entry, size, entries, walk)
}

pub fn string_tag(
    profile: &[u8],
    entry: Entry,
    size: u32,
    slots: &mut [u32],
) -> Result<Option<TextValue>, Refusal>
    ensures { (entries points : ℕ) → Keeps string (call profile.now entry.0 size entries points slots.old) result slots.new }
{
    text::read_string_tag(profile, entry, size, slots)
}

pub fn chad_tag(profile: &[u8], entry: Entry, size: u32) -> Result<Option<ChadMatrix>, Refusal>
    ensures { (entries points : ℕ) (slots : List ℕ) → Keeps (small chad) (call profile.now entry.0 size entries points slots) result slots }
{
    small_chad::read_chad_tag(profile, entry, size)
}

pub fn tech_tag(profile: &[u8], entry: Entry, size: u32) -> Result<Option<u32>, Refusal>
    ensures { (entries points : ℕ) (slots : List ℕ) → Keeps (small sig) (call profile.now entry.0 size entries points slots) result slots }
{
    small_raw::read_tech_tag(profile, entry, size)
}

pub fn date_time_tag(profile: &[u8], entry: Entry, size: u32) -> Result<Option<[u8; 12]>, Refusal>
    ensures { (entries points : ℕ) (slots : List ℕ) → Keeps (small date) (call profile.now entry.0 size entries points slots) result slots }
{
    small_raw::read_date_time_tag(profile, entry, size)
}

pub fn meas_tag(profile: &[u8], entry: Entry, size: u32) -> Result<Option<Measurement>, Refusal>
    ensures { (entries points : ℕ) (slots : List ℕ) → Keeps (small meas) (call profile.now entry.0 size entries points slots) result slots }
{
    small_xyz::read_meas_tag(profile, entry, size)
}

pub fn viewing_conditions(
    profile: &[u8],
    entry: Entry,
    size: u32,
) -> Result<Option<ViewingConditions>, Refusal>
    ensures { (entries points : ℕ) (slots : List ℕ) → Keeps (small view) (call profile.now entry.0 size entries points slots) result slots }
{
    small_xyz::read_viewing_conditions(profile, entry, size)
}

pub fn xyz_tag(profile: &[u8], entry: Entry, size: u32) -> Result<Option<XyzNumber>, Refusal>
    ensures { (entries points : ℕ) (slots : List ℕ) → Keeps (small xyz) (call profile.now entry.0 size entries points slots) result slots }
{
    small_xyz::read_xyz_tag(profile, entry, size)
}

pub fn cicp_tag(profile: &[u8], entry: Entry, size: u32) -> Result<Option<CicpCodes>, Refusal>
    ensures { (entries points : ℕ) (slots : List ℕ) → Keeps (small cicp) (call profile.now entry.0 size entries points slots) result slots }
{
    small_raw::read_cicp_tag(profile, entry, size)
}

pub fn entry_at(tag: &[u8], numbers: TableNumbers, index: &[u8], channel: u8) -> Option<u16>
    ensures { Reads tag.now numbers index.now channel result }
{
    lut_view::entry_at(tag, numbers, index, channel)
}

pub fn one_pixel(
    tag: &[u8],
    numbers: TableNumbers,
    coordinates: &[u16],
    results: &mut [u16],
) -> Result<usize, Refusal>
    ensures { Evaluates pixel (pixels tag.now numbers coordinates.now results.old) result results.new }
{
    evaluate::evaluate(tag, numbers, coordinates, results)
}

pub fn pixel_row(
    tag: &[u8],
    numbers: TableNumbers,
    coordinates: &[u16],
    results: &mut [u16],
) -> Result<usize, Refusal>
    ensures { Evaluates row (pixels tag.now numbers coordinates.now results.old) result results.new }
{
    evaluate::evaluate_row(tag, numbers, coordinates, results)
}
