//! Sets of types, with a bit for each type at the type's place.
ghost use Rattle.std.specs.Prelude.{ℕ, Bool, true, false, ◌≡◌, ◌≤◌, ◌<◌, ◌==◌, ◌&&◌, ◌||◌, ◌↔◌, nat_lt, ◌+◌};
ghost use Rattle.limits.specs.declared.TheConstants.{FIRST_TYPE};

use limits::FIRST_TYPE;

/// How many types a set of half a word has room for.
pub const HALF_TYPES: usize = 64;

/// How many types a set of one word has room for.
pub const WORD_TYPES: usize = 128;

/// How many types a set of two words has room for.
pub const MAX_SET_TYPES: usize = 256;

/// How many events are read between two tests of whether the remaining events of a trace can strike out anything.
pub const STRIDE: usize = 128;

/// The place of a type.
#[inline]
pub fn place_of(number: u16) -> usize
    requires { FIRST_TYPE ≤ number }
    ensures { number ≡ result + FIRST_TYPE }
{
    (number - FIRST_TYPE as u16) as usize
}

/// A set of types. The first type has place 0.
pub trait TypeSet: Copy + Drop {
    /// How many types there is room for.
    ghost room: { ℕ };

    /// Whether the type at a place is in a set.
    ghost has: { Self → ℕ → Bool };

    /// The set with no type.
    fn none() -> Self
        ensures { (p : ℕ) → has result p ≡ false };

    /// The set of the first `types` types.
    fn first(types: usize) -> Self
        requires { types ≤ room }
        ensures { (p : ℕ) → has result p ≡ nat_lt p types };

    /// The types that are in both sets.
    fn both(self, other: Self) -> Self
        ensures { (p : ℕ) → has result p ≡ (has self p && has other p) };

    /// The types that are in one set or the other.
    fn either(self, other: Self) -> Self
        ensures { (p : ℕ) → has result p ≡ (has self p || has other p) };

    /// The set with the type at this place added.
    fn with(self, place: usize) -> Self
        requires { place < room }
        ensures { (p : ℕ) → has result p ≡ (p == place || has self p) };

    /// Whether the type at this place is in the set.
    fn has_place(self, place: usize) -> bool
        requires { place < room }
        ensures { result ≡ has self place };

    /// Whether the sets have the same types.
    fn is(self, other: Self) -> bool
        ensures { (result ≡ true) ↔ (self ≡ other) };
}

/// Half a word, for up to 64 types.
impl TypeSet for u64 {
    ghost use Rattle.closure_miner.specs.declared.type_sets.TheConstants.{HALF_TYPES};
    ghost use Rattle.closure_miner.specs.Sets.{in_word};

    ghost room = { HALF_TYPES };

    ghost has = { in_word };

    #[inline]
    fn none() -> u64 {
        0
    }

    #[inline]
    fn first(types: usize) -> u64 {
        if types == 0 {
            return 0;
        }
        u64::MAX >> (HALF_TYPES - types)
    }

    #[inline]
    fn both(self, other: u64) -> u64 {
        self & other
    }

    #[inline]
    fn either(self, other: u64) -> u64 {
        self | other
    }

    #[inline]
    fn with(self, place: usize) -> u64 {
        self | 1 << place
    }

    #[inline]
    fn has_place(self, place: usize) -> bool {
        (self >> place) & 1 == 1
    }

    #[inline]
    fn is(self, other: u64) -> bool {
        self == other
    }
}

/// One word, for up to 128 types.
impl TypeSet for u128 {
    ghost use Rattle.closure_miner.specs.declared.type_sets.TheConstants.{WORD_TYPES};
    ghost use Rattle.closure_miner.specs.Sets.{in_word};

    ghost room = { WORD_TYPES };

    ghost has = { in_word };

    #[inline]
    fn none() -> u128 {
        0
    }

    #[inline]
    fn first(types: usize) -> u128 {
        if types == 0 {
            return 0;
        }
        u128::MAX >> (WORD_TYPES - types)
    }

    #[inline]
    fn both(self, other: u128) -> u128 {
        self & other
    }

    #[inline]
    fn either(self, other: u128) -> u128 {
        self | other
    }

    #[inline]
    fn with(self, place: usize) -> u128 {
        self | 1 << place
    }

    #[inline]
    fn has_place(self, place: usize) -> bool {
        (self >> place) & 1 == 1
    }

    #[inline]
    fn is(self, other: u128) -> bool {
        self == other
    }
}

/// Two words, for up to 256 types: those at places below 128, and the others.
#[derive(Clone, Copy)]
pub struct Wide {
    low: u128,
    high: u128,
}

impl TypeSet for Wide {
    ghost use Rattle.closure_miner.specs.declared.type_sets.TheConstants.{MAX_SET_TYPES};
    ghost use Rattle.closure_miner.specs.Wide.{in_two};

    ghost room = { MAX_SET_TYPES };

    ghost has = { in_two };

    #[inline]
    fn none() -> Wide {
        Wide { low: 0, high: 0 }
    }

    #[inline]
    fn first(types: usize) -> Wide {
        if types <= WORD_TYPES {
            return Wide {
                low: u128::first(types),
                high: 0,
            };
        }
        Wide {
            low: u128::MAX,
            high: u128::first(types - WORD_TYPES),
        }
    }

    #[inline]
    fn both(self, other: Wide) -> Wide {
        Wide {
            low: self.low.both(other.low),
            high: self.high.both(other.high),
        }
    }

    #[inline]
    fn either(self, other: Wide) -> Wide {
        Wide {
            low: self.low.either(other.low),
            high: self.high.either(other.high),
        }
    }

    #[inline]
    fn with(self, place: usize) -> Wide {
        if place < WORD_TYPES {
            return Wide {
                low: self.low.with(place),
                high: self.high,
            };
        }
        Wide {
            low: self.low,
            high: self.high.with(place - WORD_TYPES),
        }
    }

    #[inline]
    fn has_place(self, place: usize) -> bool {
        if place < WORD_TYPES {
            return self.low.has_place(place);
        }
        self.high.has_place(place - WORD_TYPES)
    }

    #[inline]
    fn is(self, other: Wide) -> bool {
        self.low == other.low && self.high == other.high
    }
}
