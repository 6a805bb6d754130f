// Trailing zeros cut: how many units of a string are left.
ghost use Rattle.std.specs.Prelude.{ℕ, List, ◌≡◌, ◌+◌, ◌*◌, ◌≤◌, eqb, length};
ghost use Rattle.text_meaning.specs.Cut.{byte_of, unit_of, kept_of};

use fields::InTag;

// The units of a string.
pub(crate) trait Units {
    // How many bytes each has.
    ghost size: { ℕ };

    ghost unit: { List ℕ → ℕ → ℕ → ℕ };

    // Whether unit i of the string at `start` is zero.
    fn is_zero(tag: &[u8], start: InTag, i: u32) -> bool
        requires { start.0 + size * (i + 1) ≤ length tag.now }
        ensures { result ≡ eqb (unit tag.now start.0 i) 0 };
}

// Its bytes.
pub(crate) struct Bytes;

impl Units for Bytes {
    ghost size = { 1 };

    ghost unit = { byte_of };

    #[tactic(auto, unfolding(text_meaning::specs::Cut::byte_of))]
    fn is_zero(tag: &[u8], start: InTag, i: u32) -> bool {
        tag[start.0 as usize + i as usize] == 0
    }
}

// Its numbers of two bytes.
pub(crate) struct Halves;

impl Units for Halves {
    ghost size = { 2 };

    ghost unit = { unit_of };

    #[tactic(auto, unfolding(text_meaning::specs::Cut::unit_of))]
    fn is_zero(tag: &[u8], start: InTag, i: u32) -> bool {
        let at = start.0 as usize + 2 * i as usize;
        u16::from_be_bytes([tag[at], tag[at + 1]]) == 0
    }
}

// Of n units, all of them in the tag, so many are left. `kept` is no index, but what is answered.
pub(crate) fn kept<U: Units>(tag: &[u8], start: InTag, n: u32) -> u32
    requires { start.0 + U.size * n ≤ length tag.now }
    ensures is { result ≡ kept_of (U.unit tag.now start.0) n }
    ensures within { result ≤ n }
{
    let mut kept = n;
    while 0 < kept && U::is_zero(tag, start, kept - 1) {
        kept -= 1;
    }
    kept
}
