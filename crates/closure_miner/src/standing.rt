//! The candidates that hold of every trace that was read, in sets of types.
ghost use Rattle.std.specs.Prelude.{ℕ, ◌≡◌, ◌≤◌, ◌<◌, ◌+◌, ◌^◌, length, replicate, All, ◌∷◌, ◌++◌, [], IfOk, cond};
ghost use Rattle.invariants.specs.Candidates.{invariant};
ghost use Rattle.limits.specs.declared.TheConstants.{FIRST_TYPE};
ghost use Rattle.closure_miner.specs.declared.type_sets.TheConstants.{MAX_SET_TYPES};
ghost use Rattle.invariants.specs.declared.Kinds.TheVariants.{Four};
ghost use Rattle.traces.specs.Kept.{IsTypeNumber};

use crate::between::Between;
use crate::striking::{read_between, read_from_end, read_from_start};
use crate::type_sets::{MAX_SET_TYPES, TypeSet};
use invariants::{Invariant, Kind, Kinds};
use limits::{FIRST_TYPE, INITIAL};
use std::alloc::{AllocError, Global};

/// The candidates that still stand: those that hold of every trace that was read.
///
/// With `a` and `b` the places of two types:
/// - AF(a, b) stands if b is in `followed` of a.
/// - NF(a, b) stands if b is not in `met` of a.
/// - AP(a, b) stands if a is in `preceded` of b.
/// - AF(INITIAL, b) stands if b is in `everywhere`.
/// - IB(a, b) stands if b is in `between` of a. It is a candidate only if IB is asked for.
#[derive(Drop)]
pub struct Standing<S> {
    kinds: Kinds,
    types: usize,
    /// For each type, those that come later than its last event in every trace that has it.
    followed: Vec<S>,
    /// For each type, those that come later than some event of it.
    met: Vec<S>,
    /// For each type, those that come earlier than its first event in every trace that has it.
    preceded: Vec<S>,
    /// The types that every trace has.
    everywhere: S,
    /// For each type, those that stand between any two events of it in every trace, if IB is asked for.
    between: Between,
    ghost few: { types ≤ MAX_SET_TYPES },
    ghost followed_each: { length followed.items ≡ types },
    ghost met_each: { length met.items ≡ types },
    ghost preceded_each: { length preceded.items ≡ types },
    ghost between_each: { kinds ≡ Four → length between.next.items ≡ types },
}

/// The number of the type at the place.
#[inline]
fn number_of(place: usize) -> u16
    requires { place < MAX_SET_TYPES }
    ensures { result ≡ place + FIRST_TYPE }
{
    place as u16 + FIRST_TYPE as u16
}

/// For how many types `between` is made: for all if IB is asked for, and for none if not.
fn types_between(kinds: Kinds, types: usize) -> usize
    ensures { kinds ≡ Four → result ≡ types }
{
    match kinds {
        Kinds::Three => 0,
        Kinds::Four => types,
    }
}

/// Appends an invariant if it stands.
#[inline]
fn push_standing(
    list: &mut Vec<Invariant>,
    stands: bool,
    kind: Kind,
    a: u16,
    b: u16,
) -> Result<(), AllocError>
    ensures { IfOk result (λ _. list.new.items ≡ list.old.items ++ cond stands (invariant kind a b ∷ []) []) }
{
    if stands {
        list.push(Invariant { kind, a, b })?;
    }
    Ok(())
}

/// The same set for each of `types` types.
fn sets_of<S: TypeSet>(alloc: Global, types: usize, set: S) -> Result<Vec<S>, AllocError>
    ensures { IfOk result (λ sets. sets.items ≡ replicate types set) }
{
    let mut sets = Vec::new(alloc);
    for _i in 0..types {
        sets.push(set)?;
    }
    Ok(sets)
}

impl<S: TypeSet> Standing<S> {
    ghost use Rattle.std.specs.Prelude.{◌∷◌, ◌++◌, [], List, IfOk, map, filter};
    ghost use Rattle.std.specs.List.{flat_map};
    ghost use Rattle.invariants.specs.declared.Kind.TheVariants.{AF};
    ghost use Rattle.invariants.specs.Candidates.{invariant, types, of_pair, of_first};
    ghost use Rattle.invariants.specs.Mined.{holds_of_all, mined_for};
    ghost use Rattle.closure_miner.specs.Standing.{word_with, of_interrupted, Stands};

    /// The state before any trace is read: all candidates of these kinds stand.
    pub fn make(alloc: Global, kinds: Kinds, types: usize) -> Result<Standing<S>, AllocError>
        requires few { types ≤ MAX_SET_TYPES }
        requires room { types ≤ S.room }
        ensures kinds { IfOk result (λ standing. standing.kinds ≡ kinds) }
        ensures types { IfOk result (λ standing. standing.types ≡ types) }
        ensures stands { IfOk result (λ standing. Stands S.has standing []) }
    {
        let all = S::first(types);
        Ok(Standing {
            kinds,
            types,
            followed: sets_of(alloc, types, all)?,
            met: sets_of(alloc, types, S::none())?,
            preceded: sets_of(alloc, types, all)?,
            everywhere: all,
            between: Between::make(alloc, types_between(kinds, types))?,
        })
    }

    /// Strikes out the candidates that a trace breaks.
    pub fn read(&mut self, events: &[u16])
        requires room { (self.old).types ≤ S.room }
        requires numbers { All (IsTypeNumber (self.old).types) events.now }
        requires few { length events.now < 2 ^ 32 }
        ensures kinds { (self.new).kinds ≡ (self.old).kinds }
        ensures types { (self.new).types ≡ (self.old).types }
        ensures stands { (words : List (List ℕ)) → Stands S.has self.old words
            → Stands S.has self.new (words ++ word_with events.now ∷ []) }
    {
        let all = S::first(self.types);
        let seen = read_from_end(&mut self.followed, &mut self.met, all, events);
        self.everywhere = self.everywhere.both(seen);
        read_from_start(&mut self.preceded, all, events);
        read_between(self.kinds, &mut self.between, events);
    }

    /// Appends the candidates AF(INITIAL, b) that still stand, in the order of their types.
    fn push_firsts(&self, list: &mut Vec<Invariant>) -> Result<(), AllocError>
        requires room { (self.now).types ≤ S.room }
        ensures { (words : List (List ℕ)) → Stands S.has self.now words → IfOk result (λ _. list.new.items
            ≡ list.old.items ++ filter (holds_of_all words) (map (invariant AF INITIAL) (types (self.now).types))) }
    {
        for b in 0..self.types {
            let stands = self.everywhere.has_place(b);
            push_standing(list, stands, Kind::AF, INITIAL as u16, number_of(b))?;
        }
        Ok(())
    }

    /// Appends the candidate IB(a, b), if it is asked for and still stands.
    #[inline]
    fn push_between(&self, list: &mut Vec<Invariant>, a: usize, b: usize) -> Result<(), AllocError>
        requires a { a < (self.now).types }
        requires b { b < (self.now).types }
        requires room { (self.now).types ≤ S.room }
        ensures { (words : List (List ℕ)) → Stands S.has self.now words → IfOk result (λ _. list.new.items
            ≡ list.old.items ++ filter (holds_of_all words) (of_interrupted (self.now).kinds (a + FIRST_TYPE) (b + FIRST_TYPE))) }
    {
        match self.kinds {
            Kinds::Three => return Ok(()),
            Kinds::Four => {}
        }
        if a == b {
            return Ok(());
        }
        let between = self.between.has(a, b);
        push_standing(list, between, Kind::IB, number_of(a), number_of(b))?;
        Ok(())
    }

    /// Appends the candidates from type a to type b that still stand.
    #[inline]
    fn push_pair(&self, list: &mut Vec<Invariant>, a: usize, b: usize) -> Result<(), AllocError>
        requires a { a < (self.now).types }
        requires b { b < (self.now).types }
        requires room { (self.now).types ≤ S.room }
        ensures { (words : List (List ℕ)) → Stands S.has self.now words → IfOk result (λ _. list.new.items
            ≡ list.old.items ++ filter (holds_of_all words) (of_pair (self.now).kinds (a + FIRST_TYPE) (b + FIRST_TYPE))) }
    {
        let followed = self.followed[a].has_place(b);
        let met = self.met[a].has_place(b);
        let preceded = self.preceded[b].has_place(a);
        push_standing(list, followed, Kind::AF, number_of(a), number_of(b))?;
        push_standing(list, !met, Kind::NF, number_of(a), number_of(b))?;
        push_standing(list, preceded, Kind::AP, number_of(a), number_of(b))?;
        self.push_between(list, a, b)?;
        Ok(())
    }

    /// Appends the candidates from type a to each type that still stand.
    fn push_row(&self, list: &mut Vec<Invariant>, a: usize) -> Result<(), AllocError>
        requires a { a < (self.now).types }
        requires room { (self.now).types ≤ S.room }
        ensures { (words : List (List ℕ)) → Stands S.has self.now words → IfOk result (λ _. list.new.items
            ≡ list.old.items ++ filter (holds_of_all words) (of_first (self.now).kinds (self.now).types (a + FIRST_TYPE))) }
    {
        for b in 0..self.types {
            self.push_pair(list, a, b)?;
        }
        Ok(())
    }

    /// Appends the candidates from each type to each type that still stand.
    fn push_pairs(&self, list: &mut Vec<Invariant>) -> Result<(), AllocError>
        requires room { (self.now).types ≤ S.room }
        ensures { (words : List (List ℕ)) → Stands S.has self.now words → IfOk result (λ _. list.new.items
            ≡ list.old.items ++ filter (holds_of_all words) (flat_map (of_first (self.now).kinds (self.now).types) (types (self.now).types))) }
    {
        for a in 0..self.types {
            self.push_row(list, a)?;
        }
        Ok(())
    }

    /// Appends all candidates that still stand, in their order.
    pub fn push_all(&self, list: &mut Vec<Invariant>) -> Result<(), AllocError>
        requires room { (self.now).types ≤ S.room }
        ensures { (words : List (List ℕ)) → Stands S.has self.now words → IfOk result (λ _. list.new.items
            ≡ list.old.items ++ mined_for (self.now).kinds (self.now).types words) }
    {
        self.push_firsts(list)?;
        self.push_pairs(list)
    }
}
