// What the exported functions tell: a status, and words in front of a lent `out`.
#![tactic(auto)]

ghost use Rattle.std.specs.Prelude.{◌%◌, ◌≡◌, ℕ, List, length, get_or};
ghost use Rattle.std.proofs.lemmas.List.Edits.{sets};
ghost use Rattle.export_words.specs.Exported.{without, told, Gave, Stored};

use fields::Refusal;

// The statuses that are no refusal's, numbers that C has: of a value, and of an `out` without room.
pub const VALUE: u32 = 0;

pub const NO_ROOM: u32 = 102;

// What stands for a value that is not there, under the status by which users know it.
#[derive(Clone, Copy, Debug, PartialEq, Eq)]
pub enum Missing {
    Absent = 100,
    Default = 101,
}

pub const ABSENT: u32 = Missing::Absent as u32;

pub const DEFAULT: u32 = Missing::Default as u32;

// How the words of a value are laid out: how many they are, and that those from `from` up to `to` are signed, 32-bit words in two's
// complement.
#[derive(Clone, Copy)]
pub struct Layout {
    pub words: usize,
    pub from: usize,
    pub to: usize,
}

// How the values of a reader are told.
pub trait Tells {
    type Value: Copy;

    ghost use Rattle.export_words.specs.declared.Layout.{Layout};

    // How the words of a value are laid out, by the first of them.
    ghost layout: { ℕ → Layout };

    ghost words: { Self.Value → List ℕ };

    // Writes the words of a value in front of `out`.
    fn put(value: Self::Value, out: &mut [u64])
        ensures out_is { out.new ≡ sets out.old 0 (words value) }
        ensures as_laid_out { length (words value) ≡ (layout (get_or (words value) 0 0)).words };
}

// Tells a reader's answer: a status, and the words of a value in front of `out`, which else stays.
pub fn tell<R: Tells>(
    got: Result<Option<R::Value>, Refusal>,
    missing: Missing,
    out: &mut [u64],
) -> u32
    ensures { Gave R.layout (told R.words (without missing) got) result out.old out.new }
{
    match got {
        Ok(Some(value)) => {
            R::put(value, out);
            VALUE
        }
        Ok(None) => missing as u32,
        Err(why) => u32::from(why),
    }
}

// Writes the words from `at` on, one behind the other, each as the number that it converts to. What has no room in `out` is not written.
pub fn put<W: Copy + Into<u64>>(out: &mut [u64], at: usize, words: &[W])
    ensures { Stored W.converts out.old at words.now out.new }
{
    let mut end = at;
    for word in words {
        if out.len() <= end {
            return;
        }
        out[end] = (*word).into();
        end += 1;
    }
}

// The same of each type of words.
pub fn put_bytes(out: &mut [u64], at: usize, bytes: &[u8])
    ensures { out.new ≡ sets out.old at bytes.now }
{
    put(out, at, bytes)
}

pub fn put_words(out: &mut [u64], at: usize, words: &[u32])
    ensures { out.new ≡ sets out.old at words.now }
{
    put(out, at, words)
}

pub fn put_numbers(out: &mut [u64], at: usize, numbers: &[u64])
    ensures { out.new ≡ sets out.old at numbers.now }
{
    put(out, at, numbers)
}

// A word by its number; behind the last one all are 0.
pub fn word_at(words: &[u64], i: usize) -> u64
    ensures { result ≡ get_or words.now i 0 }
{
    words.get(i).copied().unwrap_or(0)
}

// The low byte of a word: where the word tells a byte, that byte. `as` may lose nothing, so the rest is taken off first.
pub fn low_byte(word: u64) -> u8
    ensures { result ≡ word % 256 }
{
    (word % 256) as u8
}
