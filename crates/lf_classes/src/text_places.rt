//! Where texts stand.
ghost use Rattle.std.specs.Prelude.{◌≡◌, ◌<◌, ◌^◌, ◌∷◌, ◌++◌, [], None, length, position, IfOk, OnOk, OnErr};
ghost use Rattle.std.specs.Str.{bytes_eq};
ghost use Rattle.lf_classes.specs.views.TextSets.{HasPlaces, slot_of};

use lf_base::{Memory, Text};
use std::alloc::Global;
use std::collections::BTreeMap;
use std::hash::{FoldHasher, Hasher};

/// Where texts stand. A hash tells the slot of a text, which has the place of the first text that came to it. The others that came to it are looked up in a map in the order of their
/// bytes, since texts can be chosen so that all of them have one slot.
#[derive(Drop)]
pub struct TextPlaces {
    slots: Vec<Option<u32>>,
    others: BTreeMap<String, u32>,
}

impl TextPlaces {
    /// Those of no texts, without a slot.
    pub fn new(alloc: Global) -> TextPlaces
        ensures { HasPlaces result [] }
    {
        TextPlaces {
            slots: Vec::new(alloc),
            others: BTreeMap::new(alloc),
        }
    }

    /// The place of a text, if it is one of these texts.
    pub fn find(&self, texts: &[Text], text: &str) -> Option<u32>
        requires { HasPlaces self.now texts.now }
        ensures { result ≡ position (λ other. bytes_eq other text.now) texts.now }
    {
        let count = self.slots.len();
        if count == 0 {
            return None;
        }
        let place = self.slots[slot_of(text, count)]?;
        if texts[place as usize].as_str() == text {
            Some(place)
        } else {
            self.others.get(text).copied()
        }
    }

    /// Puts a text behind these texts, among which it isn't. There are four slots or more for each of these texts.
    pub fn add(&mut self, alloc: Global, texts: &[Text], text: &str) -> Result<(), Memory>
        requires few { length texts.now < 2 ^ 32 }
        requires places { HasPlaces self.old texts.now }
        requires absent { position (λ other. bytes_eq other text.now) texts.now ≡ None }
        ensures ok { OnOk result (HasPlaces self.new (texts.now ++ text.now ∷ [])) }
        ensures err { OnErr result (HasPlaces self.new texts.now) }
    {
        self.make_room(alloc, texts)?;
        self.put(alloc, texts, text)
    }

    /// Makes slots anew where there are no more than four for each of these texts.
    fn make_room(&mut self, alloc: Global, texts: &[Text]) -> Result<(), Memory>
        requires few { length texts.now < 2 ^ 32 }
        requires places { HasPlaces self.old texts.now }
        ensures places { HasPlaces self.new texts.now }
        ensures slots { OnOk result (0 < length self.new.slots.items) }
    {
        let count = texts.len();
        if self.slots.len() <= 4 * count {
            *self = TextPlaces::of(alloc, texts, 8 * (count + 1))?;
        }
        Ok(())
    }

    /// Those of texts, with so many slots.
    fn of(alloc: Global, texts: &[Text], slots: usize) -> Result<TextPlaces, Memory>
        requires slots { 0 < slots }
        requires few { length texts.now < 2 ^ 32 }
        ensures places { IfOk result (λ places. HasPlaces places texts.now) }
        ensures slots { IfOk result (λ places. length places.slots.items ≡ slots) }
    {
        let mut places = TextPlaces {
            slots: vec![in alloc; None; slots]?,
            others: BTreeMap::new(alloc),
        };
        for place in 0..texts.len() {
            places.settle(alloc, &texts[..place], texts[place].as_str())?;
        }
        Ok(places)
    }

    /// Puts a text behind these texts, unless it is among them.
    fn settle(&mut self, alloc: Global, texts: &[Text], text: &str) -> Result<(), Memory>
        requires slots { 0 < length self.old.slots.items }
        requires few { length texts.now < 2 ^ 32 }
        requires places { HasPlaces self.old texts.now }
        ensures slots { length self.new.slots.items ≡ length self.old.slots.items }
        ensures places { OnOk result (HasPlaces self.new (texts.now ++ text.now ∷ [])) }
    {
        let slot = slot_of(text, self.slots.len());
        if self.slots[slot].is_some() {
            return self.settle_beside(alloc, texts, text);
        }
        self.slots[slot] = Some(texts.len() as u32);
        Ok(())
    }

    /// The same, where a text has the slot.
    fn settle_beside(&mut self, alloc: Global, texts: &[Text], text: &str) -> Result<(), Memory>
        requires slots { 0 < length self.old.slots.items }
        requires few { length texts.now < 2 ^ 32 }
        requires places { HasPlaces self.old texts.now }
        ensures slots { length self.new.slots.items ≡ length self.old.slots.items }
        ensures places { OnOk result (HasPlaces self.new (texts.now ++ text.now ∷ [])) }
    {
        match self.find(texts, text) {
            Some(_) => Ok(()),
            None => self.put(alloc, texts, text),
        }
    }

    /// Puts a text behind these texts, among which it isn't: into its slot, if that is free.
    fn put(&mut self, alloc: Global, texts: &[Text], text: &str) -> Result<(), Memory>
        requires slots { 0 < length self.old.slots.items }
        requires few { length texts.now < 2 ^ 32 }
        requires places { HasPlaces self.old texts.now }
        requires absent { position (λ other. bytes_eq other text.now) texts.now ≡ None }
        ensures slots { length self.new.slots.items ≡ length self.old.slots.items }
        ensures ok { OnOk result (HasPlaces self.new (texts.now ++ text.now ∷ [])) }
        ensures err { OnErr result (HasPlaces self.new texts.now) }
    {
        let place = texts.len() as u32;
        let slot = slot_of(text, self.slots.len());
        if self.slots[slot].is_some() {
            let key = String::from_str(alloc, text)?;
            let _ = self.others.insert(key, place)?;
        } else {
            self.slots[slot] = Some(place);
        }
        Ok(())
    }
}

/// The slot of a text, of so many.
fn slot_of(text: &str, count: usize) -> usize
    requires { 0 < count }
    ensures slot { result ≡ slot_of text.now count }
    ensures within { result < count }
{
    let mut hasher = FoldHasher::default();
    hasher.write(text.as_bytes());
    (hasher.finish() % count as u64) as usize
}
