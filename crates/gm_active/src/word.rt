//! Bits of a word.

ghost use Rattle.std.specs.Prelude.{◌≡◌, ◌≢◌, ◌==◌, ◌<◌, ◌≤◌, ℕ, IfSome, IfNone};
ghost use Rattle.std.specs.Int.{bit_at};

/// How many bits a word has.
pub(crate) const WORD_BITS: u32 = u64::BITS;

/// Whether a bit is set.
pub(crate) fn has_bit(word: u64, at: u32) -> bool
    requires { at < 64 }
    ensures { result ≡ (bit_at word at == 1) }
{
    word >> at & 1 == 1
}

/// The word with this bit set or cleared.
pub(crate) fn with_bit(word: u64, at: u32, is_set: bool) -> u64
    requires { at < 64 }
    ensures here { (bit_at result at == 1) ≡ is_set }
    ensures others { (i : ℕ) → i < 64 → i ≢ at → bit_at result i ≡ bit_at word i }
{
    if is_set {
        word | 1 << at
    } else {
        word & !(1 << at)
    }
}

/// The least bit that is set, from this one on. An empty word, as most of a sparse set are, costs one test.
pub(crate) fn least_bit(word: u64, from: u32) -> Option<u32>
    requires { from < 64 }
    ensures within { IfSome result (λ at. (from ≤ at) × (at < 64)) }
    ensures here { IfSome result (λ at. bit_at word at ≡ 1) }
    ensures before { IfSome result (λ at. (i : ℕ) → from ≤ i → i < at → bit_at word i ≡ 0) }
    ensures none { IfNone result ((i : ℕ) → from ≤ i → i < 64 → bit_at word i ≡ 0) }
{
    if word == 0 {
        return None;
    }
    let rest = word >> from;
    if rest == 0 {
        None
    } else {
        Some(from + rest.trailing_zeros())
    }
}
