//! Values of texts, each found once.
ghost use Rattle.std.specs.Prelude.{◌≡◌, [], IfSome, OnOk};
ghost use Rattle.lf_ast.specs.Labels.{Bytes};
ghost use Rattle.lf_classes.specs.views.TextMaps.{HasValues};
ghost use Rattle.lf_classes.specs.views.TextSets.{with_text};

use crate::text_set::TextSet;
use lf_base::Memory;
use std::alloc::Global;

/// Texts, each with its value, which stands at the same place. Where a text stands is looked up in a map.
#[derive(Drop)]
pub struct TextMap<V> {
    texts: TextSet,
    values: Vec<V>,
}

impl<V: Drop> TextMap<V> {
    /// No text.
    pub fn new(alloc: Global) -> TextMap<V>
        ensures texts { result.texts ≡ [] }
        ensures values { (of : Bytes → V) → HasValues of result }
    {
        TextMap {
            texts: TextSet::new(alloc),
            values: Vec::new(alloc),
        }
    }

    /// The value of a text, if the text is there.
    pub fn get(&self, text: &str) -> Option<&V>
        ensures { (of : Bytes → V) → HasValues of self.now → IfSome result (λ value. value.now ≡ of text.now) }
    {
        self.values.get(self.texts.place(text))
    }

    /// Puts a text with its value behind the others, unless it is there.
    pub fn add(&mut self, alloc: Global, text: &str, value: V) -> Result<(), Memory>
        ensures texts { OnOk result (self.new.texts ≡ with_text self.old.texts text.now) }
        ensures values { (of : Bytes → V) → HasValues of self.old → value ≡ of text.now → HasValues of self.new }
    {
        self.values.reserve(1)?;
        let count = self.texts.len();
        let place = self.texts.add(alloc, text)?;
        if place == count {
            self.values.push(value).unwrap();
        }
        Ok(())
    }
}
