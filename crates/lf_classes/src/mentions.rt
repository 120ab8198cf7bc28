//! What rules mention: labels, and texts with each.
ghost use Rattle.std.specs.Prelude.{◌≡◌, ◌<◌, ◌∷◌, [], length, IfOk, OnOk};
ghost use Rattle.lf_semantics.specs.Listing.{class_count, label_count, label_of};
ghost use Rattle.lf_semantics.specs.Mentions.{mention, pattern_texts};
ghost use Rattle.lf_classes.specs.views.Mentioned.{nothing_mentioned, with_label, with_mentioned, with_star, with_text_of};

use crate::pattern_texts::PatternTexts;
use crate::text_set::TextSet;
use lf_base::{Memory, Seq, Text};
use std::alloc::Global;
use std::marker::Model;

/// The label of the metric name.
pub const METRIC: &str = "__name__";

/// The labels that were mentioned so far, each once, and for each the texts that were mentioned with it. Beside them is kept what was read of patterns.
#[derive(Drop)]
pub struct Mentions {
    labels: TextSet,
    texts: Vec<TextSet>,
    patterns: PatternTexts,
}

impl Model for Mentions {
    ghost use Rattle.std.specs.Prelude.{◌≡◌, length};
    ghost use Rattle.lf_semantics.specs.Listing.{Listing};

    ghost Value = { Listing };

    ghost view = { λ m. record { names = m.labels; named = m.texts.items } };

    ghost invariant = { λ m. length m.texts.items ≡ length m.labels };
}

impl Mentions {
    /// Only the metric name was mentioned.
    pub fn new(alloc: Global) -> Result<Mentions, Memory>
        ensures { IfOk result (λ mentions. mentions ≡ nothing_mentioned) }
    {
        let mut labels = TextSet::new(alloc);
        let _ = labels.add(alloc, METRIC)?;
        let texts = vec![in alloc; TextSet::new(alloc)]?;
        Ok(Mentions {
            labels,
            texts,
            patterns: PatternTexts::new(alloc),
        })
    }

    /// How many labels were mentioned.
    pub fn labels(&self) -> usize
        ensures { result ≡ label_count self.now }
    {
        self.labels.len()
    }

    /// How many classes the labels and `*` have together: for each of them the texts, the empty text and 'any other text'.
    pub fn classes(&self) -> Result<u64, Memory>
        ensures { IfOk result (λ count. count ≡ class_count (with_star self.now)) }
    {
        let mut count: u64 = 2;
        for texts in &self.texts {
            // A memory has no room for texts of such a count.
            count = count.checked_add(texts.len() as u64 + 2).ok_or(Memory)?;
        }
        Ok(count)
    }

    /// The labels, and the texts of each.
    pub fn into_parts(self) -> (TextSet, Vec<TextSet>)
        ensures labels { result.0 ≡ self.names }
        ensures texts { result.1.items ≡ self.named }
    {
        let Mentions { labels, texts, .. } = self;
        (labels, texts)
    }

    /// A label is mentioned, with no text.
    pub fn mention_label(&mut self, alloc: Global, label: &str) -> Result<(), Memory>
        ensures { OnOk result (self.new ≡ with_mentioned self.old (mention label.now [])) }
    {
        let _ = self.add_label(alloc, label)?;
        Ok(())
    }

    /// A label is mentioned, with one text.
    pub fn mention_text(&mut self, alloc: Global, label: &str, text: &str) -> Result<(), Memory>
        ensures { OnOk result (self.new ≡ with_mentioned self.old (mention label.now (text.now ∷ []))) }
    {
        let place = self.add_label(alloc, label)?;
        self.add_text(alloc, place, text)
    }

    /// A label is mentioned, with texts.
    pub fn mention_texts(
        &mut self,
        alloc: Global,
        label: &str,
        texts: &[Text],
    ) -> Result<(), Memory>
        ensures { OnOk result (self.new ≡ with_mentioned self.old (mention label.now texts.now)) }
    {
        let place = self.add_label(alloc, label)?;
        for text in texts {
            self.add_text(alloc, place, text.as_str())?;
        }
        Ok(())
    }

    /// The texts of a pattern, which mentions nothing.
    pub fn texts_of(&mut self, alloc: Global, pattern: &Text) -> Result<Seq<Text>, Memory>
        ensures texts { IfOk result (λ texts. texts ≡ pattern_texts pattern.now) }
        ensures same { self.new ≡ self.old }
    {
        self.patterns.of(alloc, pattern)
    }

    /// Puts a label behind the others, unless it is there, and says where it stands.
    fn add_label(&mut self, alloc: Global, label: &str) -> Result<usize, Memory>
        ensures ok { OnOk result (self.new ≡ with_label self.old label.now) }
        ensures place { IfOk result (λ at. at ≡ label_of self.old label.now) }
        ensures within { IfOk result (λ at. at < length self.new.named) }
    {
        self.texts.reserve(1)?;
        let label = self.labels.add(alloc, label)?;
        if label == self.texts.len() {
            self.texts.push(TextSet::new(alloc)).unwrap();
        }
        Ok(label)
    }

    /// Puts a text behind the others of a label, unless it is empty or is there.
    fn add_text(&mut self, alloc: Global, label: usize, text: &str) -> Result<(), Memory>
        requires { label < length self.old.named }
        ensures ok { OnOk result (self.new ≡ with_text_of label self.old text.now) }
        ensures count { length self.new.named ≡ length self.old.named }
    {
        if text.is_empty() {
            return Ok(());
        }
        let _ = self.texts[label].add(alloc, text)?;
        Ok(())
    }
}
