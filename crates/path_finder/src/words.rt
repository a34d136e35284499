//! Words of bits, each for 64 numbers.
ghost use Rattle.std.specs.Prelude.{◌≡◌, ◌≢◌, ◌==◌, ℕ, ◌+◌, ◌*◌, ◌/◌, ◌^◌, ◌<◌, ◌≤◌, Bool, false, MatchOption};
ghost use Rattle.std.specs.Int.{bit_at};
ghost use Rattle.partition_graph.specs.NeighbourWords.{IsWordOf};
ghost use Rattle.partition_graph.specs.Nexts.{IsNext};
ghost use Rattle.path_finder.specs.Bits.{IsLowestBit};

use partition_graph::WORD_BITS;

/// The least number at or above `from` whose bit is on, in the word that has the bit of `from`. `None` if no bit is on
/// from there to the end of the word.
#[inline]
pub(crate) fn next_in_word(word: u64, from: usize) -> Option<usize>
    requires { from < 2 ^ 32 }
    ensures { MatchOption result
        ((has : ℕ → Bool) → IsWordOf has (from / 64) word
        → (n : ℕ) → from ≤ n → n < from / 64 * 64 + 64 → has n ≡ false)
        (λ n. (has : ℕ → Bool) → IsWordOf has (from / 64) word → IsNext has from n) }
{
    let rest = word >> (from % WORD_BITS);
    if rest == 0 {
        return None;
    }
    Some(from + rest.trailing_zeros() as usize)
}

/// The word with this bit turned off.
#[inline]
pub(crate) fn without_bit(word: u64, place: u32) -> u64
    requires { place < 64 }
    ensures there { bit_at result place ≡ 0 }
    ensures others { (i : ℕ) → i < 64 → i ≢ place → bit_at result i ≡ bit_at word i }
    ensures fewer { bit_at word place ≡ 1 → result < word }
{
    word & !(1 << place)
}

/// The word with the lowest bit that is on turned off.
#[inline]
pub(crate) fn without_lowest(word: u64) -> u64
    requires { 0 < word }
    ensures there { (p : ℕ) → IsLowestBit word p → bit_at result p ≡ 0 }
    ensures others { (p : ℕ) → IsLowestBit word p
        → (i : ℕ) → i < 64 → i ≢ p → bit_at result i ≡ bit_at word i }
    ensures fewer { result < word }
{
    word & (word - 1)
}

/// Whether the bit is on.
#[inline]
pub(crate) fn has_bit(word: u64, place: u32) -> bool
    requires { place < 64 }
    ensures { result ≡ (bit_at word place == 1) }
{
    (word >> place) & 1 == 1
}
