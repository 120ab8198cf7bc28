//! What names, modifiers, matchers and a rule's own labels mention.
ghost use Rattle.std.specs.Prelude.{◌≡◌, ◌∷◌, [], map, OnOk};
ghost use Rattle.lf_ast.specs.Types.{names_at};
ghost use Rattle.lf_semantics.specs.Mentions.{matcher_texts, matchers_mentions, mention, modifier_mentions, name_mentions, names_mentions, pattern_texts};
ghost use Rattle.lf_classes.specs.views.Mentioned.{mentioned_all, with_mentioned};

use crate::mentions::{METRIC, Mentions};
use lf_ast::{MatchOp, Matcher, Matching, Name, RuleLabel};
use lf_base::{Memory, Seq, Text};
use std::alloc::Global;

impl Mentions {
    /// The name of a selector is mentioned with the metric name's label.
    #[inline(never)]
    pub fn mention_name(&mut self, alloc: Global, name: &Option<Text>) -> Result<(), Memory>
        ensures { OnOk result (self.new ≡ mentioned_all self.old (name_mentions name.now)) }
    {
        match name {
            Some(name) => self.mention_text(alloc, METRIC, name.as_str()),
            None => Ok(()),
        }
    }

    /// Labels are mentioned in their order.
    pub fn mention_names(&mut self, alloc: Global, names: &[Name]) -> Result<(), Memory>
        ensures { OnOk result (self.new ≡ mentioned_all self.old (names_mentions names.now)) }
    {
        for name in names {
            self.mention_label(alloc, name.text.as_str())?;
        }
        Ok(())
    }

    /// The labels of `on` or `ignoring` are mentioned, if it is there.
    fn mention_listed(&mut self, alloc: Global, names: &Option<Seq<Name>>) -> Result<(), Memory>
        ensures { OnOk result (self.new ≡ mentioned_all self.old (names_mentions (names_at names.now))) }
    {
        match names {
            Some(names) => self.mention_names(alloc, names.as_slice()),
            None => Ok(()),
        }
    }

    /// The labels of a modifier are mentioned: those of `on` or `ignoring`, and then those behind `group_left` or `group_right`.
    #[inline(never)]
    pub fn mention_modifier(&mut self, alloc: Global, modifier: &Matching) -> Result<(), Memory>
        ensures { OnOk result (self.new ≡ mentioned_all self.old (modifier_mentions modifier.now)) }
    {
        self.mention_listed(alloc, &modifier.on)?;
        self.mention_listed(alloc, &modifier.ignoring)?;
        self.mention_names(alloc, modifier.include.as_slice())
    }

    /// The labels of matchers are mentioned, with the texts of each.
    #[inline(never)]
    pub fn mention_matchers(&mut self, alloc: Global, matchers: &[Matcher]) -> Result<(), Memory>
        ensures { OnOk result (self.new ≡ mentioned_all self.old (matchers_mentions matchers.now)) }
    {
        for matcher in matchers {
            self.mention_matcher(alloc, matcher)?;
        }
        Ok(())
    }

    /// The label of a matcher is mentioned, with its text or with those of its pattern.
    fn mention_matcher(&mut self, alloc: Global, matcher: &Matcher) -> Result<(), Memory>
        ensures { OnOk result (self.new ≡ with_mentioned self.old (mention matcher.now.label (matcher_texts matcher.now.op matcher.now.value))) }
    {
        let label = matcher.label.as_str();
        match matcher.op {
            MatchOp::Equal | MatchOp::NotEqual => {
                self.mention_text(alloc, label, matcher.value.as_str())
            }
            MatchOp::Matches | MatchOp::NotMatches => {
                self.mention_pattern(alloc, label, &matcher.value)
            }
        }
    }

    /// A label is mentioned, with the texts of a pattern.
    pub fn mention_pattern(
        &mut self,
        alloc: Global,
        label: &str,
        pattern: &Text,
    ) -> Result<(), Memory>
        ensures { OnOk result (self.new ≡ with_mentioned self.old (mention label.now (pattern_texts pattern.now))) }
    {
        let texts = self.texts_of(alloc, pattern)?;
        self.mention_texts(alloc, label, texts.as_slice())
    }

    /// The labels that a recording rule sets are mentioned, with their texts.
    pub fn mention_set(&mut self, alloc: Global, labels: &[RuleLabel]) -> Result<(), Memory>
        ensures { OnOk result (self.new ≡ mentioned_all self.old (map (λ l. mention l.key (l.value ∷ [])) labels.now)) }
    {
        for label in labels {
            self.mention_text(alloc, label.key.as_str(), label.value.as_str())?;
        }
        Ok(())
    }
}
