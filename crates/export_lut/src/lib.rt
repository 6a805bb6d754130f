// What is told of a lookup table, and of an entry of a colour table.
#![tactic(auto)]

ghost use Rattle.std.specs.Prelude.{◌-◌, ◌%◌, ◌≡◌, cond, ◌++◌, eqb, length, get_or};
ghost use Rattle.std.proofs.lemmas.List.Edits.{sets};
ghost use Rattle.fields.specs.Tag.{signature_of};
ghost use Rattle.fields.specs.declared.Kind.TheVariants.{Mft1, Mft2, Mab, Mba};
ghost use Rattle.lut_meaning.specs.Answer.{in_numbers, table_from};
ghost use Rattle.lut_mft_meaning.specs.Answer.{fields_from};
ghost use Rattle.lut_view_meaning.specs.Answer.{in_numbers as Entry·inNumbers};
ghost use Rattle.export_words.specs.Exported.{always, Gave};
ghost use Rattle.export_lut.specs.Layout.{lut_words, entry_words, mft_head, mft_ranges, abm_head, abm_parts, lut_exported, entry_exported, lut_layout, entry_layout, mft_numbers, abm_numbers, numbers_in};

use export_words::{Layout, Missing, Tells};
use fields::{InTag, Kind, Refusal};
use lut_meaning::{Abm, AbmTable, Lut};
use lut_mft_meaning::{Mft, MftTable};
use lut_view_meaning::{NO_NUMBERS, TableNumbers};

// How the words of each type are laid out; `mAB ` and `mBA ` have the most.
const MFT: Layout = Layout {
    words: 21,
    from: 6,
    to: 15,
};

pub const ABM: Layout = Layout {
    words: 37,
    from: 19,
    to: 31,
};

pub const ENTRY: Layout = Layout {
    words: 1,
    from: 0,
    to: 0,
};

// By the first word, the type's signature.
pub fn layout_of(first: u64) -> Layout
    ensures { result ≡ lut_layout first }
{
    if first == Kind::MFT1 as u64 {
        return MFT;
    }
    if first == Kind::MFT2 as u64 {
        return MFT;
    }
    ABM
}

// The signature of `mft1` or `mft2`, by the bytes of an entry.
fn mft_type(size: u8) -> u32
    ensures { result ≡ cond (eqb size 1) (signature_of Mft1) (signature_of Mft2) }
{
    if size == 1 { Kind::MFT1 } else { Kind::MFT2 }
}

fn put_mft_head(out: &mut [u64], t: MftTable)
    ensures { out.new ≡ sets out.old 0 (mft_head (fields_from t)) }
{
    let head = [
        mft_type(t.entry_size) as u64,
        t.inputs as u64,
        t.outputs as u64,
        t.grid as u64,
        t.input_entries as u64,
        t.output_entries as u64,
    ];
    export_words::put_numbers(out, 0, &head);
}

fn put_mft_ranges(out: &mut [u64], t: MftTable)
    ensures { out.new ≡ sets out.old 15 (mft_ranges (fields_from t)) }
{
    let ranges = [
        t.input_start.0,
        t.input_length,
        t.clut_start.0,
        t.clut_length,
        t.output_start.0,
        t.output_length,
    ];
    export_words::put_numbers(out, 15, &ranges);
}

fn put_mft(out: &mut [u64], mft: Mft)
    ensures { out.new ≡ sets out.old 0 (lut_words (Lut.Mft mft)) }
{
    put_mft_head(out, mft.table);
    export_words::put_words(out, 6, &mft.matrix);
    put_mft_ranges(out, mft.table);
}

// The signature of `mAB ` or `mBA `.
fn abm_type(towards: bool) -> u32
    ensures { result ≡ cond towards (signature_of Mab) (signature_of Mba) }
{
    if towards { Kind::MAB } else { Kind::MBA }
}

fn put_abm_head(out: &mut [u64], t: AbmTable)
    ensures { out.new ≡ sets out.old 0 (abm_head (table_from t)) }
{
    let head = [abm_type(t.to_pcs) as u64, t.inputs as u64, t.outputs as u64];
    export_words::put_numbers(out, 0, &head);
}

fn put_abm_parts(out: &mut [u64], t: AbmTable)
    ensures { out.new ≡ sets out.old 31 (abm_parts (table_from t)) }
{
    let parts = [
        t.clut_start.0,
        t.clut_length as u64,
        t.entry_size as u64,
        t.a_curves as u64,
        t.m_curves as u64,
        t.b_curves as u64,
    ];
    export_words::put_numbers(out, 31, &parts);
}

fn put_abm(out: &mut [u64], abm: Abm)
    ensures { out.new ≡ sets out.old 0 (lut_words (Lut.Abm abm)) }
{
    put_abm_head(out, abm.table);
    export_words::put_bytes(out, 3, &abm.grid);
    export_words::put_words(out, 19, &abm.matrix);
    export_words::put_words(out, 28, &abm.bias);
    put_abm_parts(out, abm.table);
}

// A lookup table: of `mft1` and `mft2` 21 words, of `mAB ` and `mBA ` 37, in the order of specs/Layout.antt.
struct LutTold;

impl Tells for LutTold {
    type Value = Lut;

    ghost layout = { lut_layout };

    ghost words = { lut_words };

    fn put(lut: Lut, out: &mut [u64]) {
        match lut {
            Lut::Mft(mft) => put_mft(out, mft),
            Lut::Abm(abm) => put_abm(out, abm),
        }
    }
}

pub fn tell_lut(got: Result<Option<Lut>, Refusal>, out: &mut [u64]) -> u32
    ensures { Gave lut_layout (lut_exported (in_numbers got)) result out.old out.new }
{
    export_words::tell::<LutTold>(got, Missing::Absent, out)
}

// An entry of a colour table: one word.
struct EntryTold;

impl Tells for EntryTold {
    type Value = u16;

    ghost layout = { always entry_layout };

    ghost words = { entry_words };

    fn put(entry: u16, out: &mut [u64]) {
        export_words::put_numbers(out, 0, &[u64::from(entry)]);
    }
}

pub fn tell_entry(got: Option<u16>, out: &mut [u64]) -> u32
    ensures { Gave (always entry_layout) (entry_exported (Entry·inNumbers got)) result out.old out.new }
{
    export_words::tell::<EntryTold>(Ok(got), Missing::Absent, out)
}

// The low byte of a word by its number.
fn byte_at(words: &[u64], i: usize) -> u8
    ensures { result ≡ get_or words.now i 0 % 256 }
{
    export_words::low_byte(export_words::word_at(words, i))
}

fn mft_numbers(words: &[u64], size: u8) -> TableNumbers
    ensures { result ≡ mft_numbers size words.now }
{
    TableNumbers {
        start: InTag(export_words::word_at(words, 17)),
        entry_size: size,
        inputs: byte_at(words, 1),
        outputs: byte_at(words, 2),
        grid_at: InTag(10),
        grid_step: 0,
    }
}

fn abm_numbers(words: &[u64]) -> TableNumbers
    ensures { result ≡ abm_numbers words.now }
{
    let start = export_words::word_at(words, 31);
    TableNumbers {
        start: InTag(start),
        entry_size: byte_at(words, 33),
        inputs: byte_at(words, 1),
        outputs: byte_at(words, 2),
        grid_at: InTag(start.saturating_sub(20)),
        grid_step: 1,
    }
}

// The numbers of the colour table, taken from the words of a lookup table. Words that begin with no lookup table's type tell of none.
pub fn numbers_in(words: &[u64]) -> TableNumbers
    ensures { result ≡ numbers_in words.now }
{
    let first = export_words::word_at(words, 0);
    if first == Kind::MFT1 as u64 {
        return mft_numbers(words, 1);
    }
    if first == Kind::MFT2 as u64 {
        return mft_numbers(words, 2);
    }
    if first == Kind::MAB as u64 {
        return abm_numbers(words);
    }
    if first == Kind::MBA as u64 {
        return abm_numbers(words);
    }
    NO_NUMBERS
}
