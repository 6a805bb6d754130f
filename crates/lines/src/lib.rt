// Lines of text in a lent buffer: bytes, and numbers in decimal. What has no room is not written, as with C's snprintf.
#![tactic(auto)]

ghost use Rattle.std.specs.Prelude.{◌%◌, ◌^◌, ◌≡◌, drop};
ghost use Rattle.fields.specs.Bytes.{signed};
ghost use Rattle.lines.specs.Text.{Wrote, WroteNumbers, number, numbers, numeral, row_from, word_text};

// Writes `bytes` from `at` on, and answers where they end.
pub fn put(out: &mut [u8], at: usize, bytes: &[u8]) -> usize
    ensures { Wrote out.old out.new at result bytes.now }
{
    let mut end = at;
    for byte in bytes {
        if out.len() <= end {
            return end;
        }
        out[end] = *byte;
        end += 1;
    }
    end
}

// Writes a byte and then n in decimal.
pub fn put_number(out: &mut [u8], at: usize, before: u8, n: u64) -> usize
    ensures { Wrote out.old out.new at result (number before n) }
{
    let next = put(out, at, &[before]);
    let mut digits = [0u8; 20];
    let k = io::decimal(n, &mut digits);
    put(out, next, &digits[..k])
}

// Writes a byte and then, in decimal, the signed number that the word is in two's complement.
pub fn put_signed(out: &mut [u8], at: usize, before: u8, word: u32) -> usize
    ensures { Wrote out.old out.new at result (numeral before (signed word)) }
{
    if word < 0x8000_0000 {
        return put_number(out, at, before, word as u64);
    }
    let next = put(out, at, &[before]);
    put_number(out, next, b'-', 0x1_0000_0000 - word as u64)
}

// Writes a space and the word at place i, which is signed from `from` up to `to`.
#[tactic(auto, unfolding(crate::specs::Text::word_text))]
fn put_word(out: &mut [u8], at: usize, from: usize, to: usize, i: usize, word: u64) -> usize
    ensures { Wrote out.old out.new at result (word_text from to i word) }
{
    if i < from || to <= i {
        put_number(out, at, b' ', word)
    } else {
        put_signed(out, at, b' ', (word % 0x1_0000_0000) as u32)
    }
}

// Writes the words from `first` on, each behind a space. Those from `from` up to `to` are signed.
pub fn put_words(
    out: &mut [u8],
    at: usize,
    words: &[u64],
    first: usize,
    from: usize,
    to: usize,
) -> usize
    ensures { Wrote out.old out.new at result (row_from (word_text from to) first (drop first words.now)) }
{
    let mut end = at;
    for i in first..words.len() {
        end = put_word(out, end, from, to, i, words[i]);
    }
    end
}

// Writes each of the words, of any type that is a 64-bit number too, as a number behind the byte.
pub fn put_row<W: Copy + Into<u64>>(out: &mut [u8], at: usize, before: u8, words: &[W]) -> usize
    ensures { WroteNumbers W.converts before out.old out.new at result words.now }
{
    let mut end = at;
    for word in words {
        end = put_number(out, end, before, (*word).into());
    }
    end
}

// Writes each of the words as a number behind a space.
pub fn put_numbers(out: &mut [u8], at: usize, words: &[u32]) -> usize
    ensures { Wrote out.old out.new at result (numbers words.now) }
{
    put_row(out, at, b' ', words)
}

// The same of numbers of two bytes.
pub fn put_short_numbers(out: &mut [u8], at: usize, shorts: &[u16]) -> usize
    ensures { Wrote out.old out.new at result (numbers shorts.now) }
{
    put_row(out, at, b' ', shorts)
}
