//! Texts, each once.
ghost use Rattle.std.specs.Prelude.{◌≡◌, ◌<◌, ◌≤◌, ◌^◌, ◌∷◌, ◌++◌, [], None, length, position, slice_index_or, IfOk, OnOk, OnErr};
ghost use Rattle.std.specs.Str.{bytes_eq};
ghost use Rattle.lf_semantics.specs.Listing.{place};
ghost use Rattle.lf_classes.specs.views.TextSets.{with_text};

use crate::text_places::TextPlaces;
use lf_base::{Memory, Text};
use std::alloc::Global;
use std::marker::Model;

/// The most texts that a set has.
const MOST_TEXTS: usize = 1 << 32;

/// Texts, each once, in the order in which they came first. Files may have a million texts.
#[derive(Drop)]
pub struct TextSet {
    texts: Vec<Text>,
    places: TextPlaces,
}

impl Model for TextSet {
    ghost use Rattle.std.specs.Prelude.{List, ℕ};
    ghost use Rattle.lf_classes.specs.views.TextSets.{HasPlaces};

    ghost Value = { List (List ℕ) };

    ghost view = { λ s. s.texts.items };

    ghost invariant = { λ s. HasPlaces s.places s.texts.items };
}

impl TextSet {
    /// No text.
    pub fn new(alloc: Global) -> TextSet
        ensures { result ≡ [] }
    {
        TextSet {
            texts: Vec::new(alloc),
            places: TextPlaces::new(alloc),
        }
    }

    /// How many texts there are.
    pub fn len(&self) -> usize
        ensures count { result ≡ length self.now }
        ensures small { result < 2 ^ 63 }
    {
        self.texts.len()
    }

    /// The text at a place.
    pub fn get(&self, place: usize) -> &Text
        requires { place < length self.now }
        ensures { result.now ≡ slice_index_or self.now place [] }
    {
        &self.texts[place]
    }

    /// The place of a text, and behind the last one where it isn't there.
    pub fn place(&self, text: &str) -> usize
        ensures place { result ≡ place self.now text.now }
        ensures within { result ≤ length self.now }
    {
        match self.find(text) {
            Some(place) => place as usize,
            None => self.texts.len(),
        }
    }

    /// Puts a text behind the others, unless it is there, and says where it stands.
    pub fn add(&mut self, alloc: Global, text: &str) -> Result<usize, Memory>
        ensures ok { OnOk result (self.new ≡ with_text self.old text.now) }
        ensures err { OnErr result (self.new ≡ self.old) }
        ensures place { IfOk result (λ at. at ≡ place self.old text.now) }
        ensures within { IfOk result (λ at. at < length self.new) }
    {
        match self.find(text) {
            Some(place) => Ok(place as usize),
            None => self.push(alloc, text),
        }
    }

    /// The place of a text, if it is there.
    fn find(&self, text: &str) -> Option<u32>
        ensures { result ≡ position (λ other. bytes_eq other text.now) self.now }
    {
        self.places.find(self.texts.as_slice(), text)
    }

    /// Puts a text behind the others, among which it isn't, and says where it stands.
    fn push(&mut self, alloc: Global, text: &str) -> Result<usize, Memory>
        requires { position (λ other. bytes_eq other text.now) self.old ≡ None }
        ensures ok { OnOk result (self.new ≡ self.old ++ text.now ∷ []) }
        ensures err { OnErr result (self.new ≡ self.old) }
        ensures place { IfOk result (λ at. at ≡ place self.old text.now) }
        ensures within { IfOk result (λ at. at < length self.new) }
    {
        let place = self.texts.len();
        if place == MOST_TEXTS {
            return Err(Memory);
        }
        let own = Text::of(alloc, text)?;
        self.texts.reserve(1)?;
        self.places.add(alloc, self.texts.as_slice(), text)?;
        self.texts.push(own).unwrap();
        Ok(place)
    }
}
