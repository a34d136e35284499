//! The texts of types in the order first met.
ghost use Rattle.std.specs.Prelude.{◌≡◌, ◌++◌, ◌∷◌, [], ◌<◌, ◌≤◌, ◌-◌, length, take, false, ◌↔◌, OnOk, OnErr, IfSome, true, slice_get};
ghost use Rattle.std.specs.List.{list_any, position_or_len};
ghost use Rattle.std.specs.Option.{option_map_or};
ghost use Rattle.std.specs.Str.{bytes_eq};
ghost use Rattle.limits.specs.declared.TheConstants.{MAX_TYPE_BYTES};
ghost use Rattle.trace_builder.specs.Limits.{IsNewType};
ghost use Rattle.traces.specs.Words.{AreApart};

use crate::slots::{MAX_TOLD, Slot, find, find_short, note};
use invariants::Text;
use std::alloc::{AllocError, Global};
use std::collections::BTreeMap;
use std::marker::Model;
use trace_keys::PackedText;

/// Texts, and the place of each.
#[derive(Drop)]
pub struct TypeTable {
    texts: Vec<Text>,
    places: BTreeMap<String, usize>,
    slots: Vec<Slot>,
}

impl Model for TypeTable {
    ghost use Rattle.std.specs.Prelude.{List, ℕ};
    ghost use Rattle.std.specs.List.{All};
    ghost use Rattle.trace_builder.specs.PlaceMaps.{AreTextsPlaced};
    ghost use Rattle.trace_builder.specs.Slots.{TellsText};

    ghost Value = { List (List ℕ) };

    ghost view = { λ t. t.texts.items };

    ghost invariant = { λ t. AreTextsPlaced t.places t.texts.items × All (TellsText t.texts.items) t.slots.items };
}

impl TypeTable {
    /// No types. It takes no memory.
    pub fn new(alloc: Global) -> TypeTable
        ensures { result ≡ [] }
    {
        TypeTable {
            texts: Vec::new(alloc),
            places: BTreeMap::new(alloc),
            slots: Vec::new(alloc),
        }
    }

    /// How many types there are.
    pub fn len(&self) -> usize
        ensures { result ≡ length self.now }
    {
        self.texts.len()
    }

    /// The place of the text by the ordered map, or the number of texts if it is not there. It stays a call, so that the path of
    /// a type with a slot is short.
    #[inline(never)]
    fn mapped_place_of(&self, text: &str) -> usize
        ensures place { result ≡ position_or_len (bytes_eq text.now) self.now }
        ensures within { result ≤ length self.now }
        ensures new { IsNewType self.now text.now ↔ (result ≡ length self.now) }
    {
        match self.places.get(text) {
            Some(place) => *place,
            None => self.texts.len(),
        }
    }

    /// The place of a text of more than 16 bytes, if a slot leads to it. It stays a call, so that the path of a short text is short.
    #[inline(never)]
    fn long_place_of(&self, text: &str) -> Option<usize>
        requires { length text.now ≤ MAX_TYPE_BYTES }
        ensures place { IfSome result (λ place. place ≡ position_or_len (bytes_eq text.now) self.now) }
        ensures known { IfSome result (λ _. list_any (bytes_eq text.now) self.now ≡ true) }
    {
        find(&self.slots, &self.texts, text)
    }

    /// The place of a text, if a slot leads to it.
    #[inline(always)]
    pub fn slotted_place_of(&self, text: &PackedText<'_>) -> Option<usize>
        requires { length text.now ≤ MAX_TYPE_BYTES }
        ensures place { IfSome result (λ place. place ≡ position_or_len (bytes_eq text.now) self.now) }
        ensures known { IfSome result (λ _. list_any (bytes_eq text.now) self.now ≡ true) }
    {
        if text.text().len() > MAX_TOLD as usize {
            return self.long_place_of(text.text());
        }
        self.short_place_of(text)
    }

    /// The place of a text of at most 16 bytes, if a slot leads to it.
    #[inline(always)]
    fn short_place_of(&self, text: &PackedText<'_>) -> Option<usize>
        ensures place { IfSome result (λ place. place ≡ position_or_len (bytes_eq text.now) self.now) }
        ensures known { IfSome result (λ _. list_any (bytes_eq text.now) self.now ≡ true) }
    {
        find_short(&self.slots, text)
    }

    /// The place of the text, which has at most 256 bytes, or the number of texts if it is not there.
    pub fn place_of(&self, text: &str) -> usize
        requires short { length text.now ≤ MAX_TYPE_BYTES }
        ensures place { result ≡ position_or_len (bytes_eq text.now) self.now }
        ensures within { result ≤ length self.now }
        ensures new { IsNewType self.now text.now ↔ (result ≡ length self.now) }
    {
        if let Some(place) = find(&self.slots, &self.texts, text) {
            return place;
        }
        self.mapped_place_of(text)
    }

    /// Puts a new text at the end.
    pub fn add(&mut self, alloc: Global, text: &str) -> Result<(), AllocError>
        requires new { IsNewType self.old text.now }
        requires short { length text.now ≤ MAX_TYPE_BYTES }
        ensures ok { OnOk result (self.new ≡ self.old ++ text.now ∷ []) }
        ensures err { OnErr result (self.new ≡ self.old) }
    {
        self.texts.reserve(1)?;
        let shown = Text::from_string(String::from_str(alloc, text)?);
        let known = String::from_str(alloc, text)?;
        let place = self.texts.len();
        self.places.insert(known, place)?;
        note(alloc, &mut self.slots, text, place);
        self.texts.push_reserved(shown);
        Ok(())
    }

    /// Removes the text that was added last.
    pub fn forget_last(&mut self, text: &str)
        requires last { self.old ≡ take (length self.old - 1) self.old ++ text.now ∷ [] }
        requires new { IsNewType (take (length self.old - 1) self.old) text.now }
        ensures { self.new ≡ take (length self.old - 1) self.old }
    {
        self.slots.clear();
        self.places.remove(text);
        self.texts.pop();
    }

    /// The texts, without the table.
    pub fn into_texts(self) -> Vec<Text>
        ensures texts { result.items ≡ self }
        ensures distinct { AreApart bytes_eq result.items }
    {
        let TypeTable {
            texts,
            places: _,
            slots: _,
        } = self;
        texts
    }
}
