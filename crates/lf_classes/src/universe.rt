//! The universe of rules.
ghost use Rattle.std.specs.Prelude.{◌≡◌, ◌<◌, ◌≤◌, ◌+◌, ◌++◌, ◌∷◌, [], length, map, codes, slice_index_or, Some, IfOk, IfErr, IfSome, IfNone, OnOk};
ghost use Rattle.lf_ast.specs.Rules.{rule_trees};
ghost use Rattle.lf_semantics.specs.Listing.{IsCandidate, class_count, class_counts, class_of, class_texts, label_count, label_of, named_at, other_class, universe_of};
ghost use Rattle.lf_classes.specs.Limits.{ExceedsUniverseLimit, IsWithin, PassesUniverseLimit, most_classes, most_labels};
ghost use Rattle.lf_classes.specs.views.Mentioned.{with_star};
ghost use Rattle.lf_classes.specs.views.PatternCache.{passing_row};
ghost use Rattle.lf_classes.specs.declared.class_error.ClassError.TheVariants as ClassError;

use crate::class_error::ClassError;
use crate::classes::Classes;
use crate::mentions::Mentions;
use crate::pattern_cache::PatternCache;
use crate::row::Row;
use crate::shape::Shape;
use crate::text_set::TextSet;
use lf_ast::{MatchOp, Rule};
use lf_base::{Memory, Seq, Text};
use std::alloc::Global;
use std::marker::Model;

/// The most labels that rules may mention.
const MOST_LABELS: usize = 4096;

/// The most classes that their labels and `*` may have together.
const MOST_CLASSES: u64 = 65536;

/// The labels that rules mention, and the classes of each label.
///
/// Labels are numbered from 0 in the order in which they come first: `__name__`, those that the rules mention, and `*` for every other name. The classes of a label are
/// numbered too: the empty text, the texts that are mentioned with the label, in the order in which they come first, and 'any other text'.
///
/// It may cache which classes of a label pass a pattern, which changes nothing of what it is.
#[derive(Drop)]
pub struct Universe {
    names: TextSet,
    named: Seq<Classes>,
    star: Text,
    empty: Text,
    shape: Shape,
    patterns: PatternCache,
}

impl Model for Universe {
    ghost use Rattle.lf_semantics.specs.Listing.{Listing};
    ghost use Rattle.lf_classes.specs.views.UniverseParts.{HasParts};

    ghost Value = { Listing };

    ghost view = { λ u. record { names = u.names; named = u.named } };

    ghost invariant = { λ u. HasParts (record { names = u.names; named = u.named }) u.star u.empty u.shape u.patterns };
}

impl Universe {
    /// The universe of rules.
    ///
    /// `TooManyLabels` is answered where the rules mention more than 4,096 labels, and else `TooManyClasses` where these have more than 65,536 classes together.
    pub fn build(alloc: Global, rules: &Seq<Rule>) -> Result<Universe, ClassError>
        // What is answered is the universe.
        ensures found { IfOk result (λ universe. universe ≡ universe_of (rule_trees rules.now)) }
        // It is within the limits.
        ensures within { IfOk result IsWithin }
        // What is refused passes a limit, and the count is that of the rules.
        ensures refused { IfErr result (PassesUniverseLimit (rule_trees rules.now)) }
    {
        let mut mentions = Mentions::new(alloc)?;
        mentions.mention_rules(alloc, rules.as_slice())?;
        check_limits(&mentions)?;
        Universe::of(alloc, mentions)
    }

    /// How many labels there are, `*` among them. Beside it stands what is known of every universe.
    pub fn labels(&self) -> u32
        ensures count { result ≡ length self.now.named }
        ensures within { IsWithin self.now }
    {
        self.named.len() as u32
    }

    /// How many classes a label has.
    pub fn classes(&self, label: u32) -> u32
        requires { label < length self.now.named }
        ensures { result ≡ length (named_at self.now label) + 2 }
    {
        self.shape.classes(label as usize) as u32
    }

    /// How many classes each label has.
    pub(crate) fn shape(&self) -> &Shape
        ensures { result.now ≡ class_counts self.now }
    {
        &self.shape
    }

    /// The number of a label, by its name; that of `*` where no label has the name.
    pub fn label_of(&self, name: &str) -> u32
        ensures number { result ≡ label_of self.now name.now }
        ensures within { result < length self.now.named }
    {
        self.names.place(name) as u32
    }

    /// The name of a label; that of the last one is `*`.
    pub fn name(&self, label: u32) -> &Text
        requires { label < length self.now.named }
        ensures { result.now ≡ slice_index_or self.now.names label (codes "*") }
    {
        let label = label as usize;
        if label < self.names.len() {
            self.names.get(label)
        } else {
            &self.star
        }
    }

    /// The text of a class, and none for 'any other text'.
    pub fn class_text(&self, label: u32, class: u32) -> Option<&Text>
        requires label { label < length self.now.named }
        requires class { class < length (named_at self.now label) + 2 }
        ensures own { IfSome result (λ text. (class < other_class self.now label) × (text.now ≡ slice_index_or (class_texts self.now label) class [])) }
        ensures other { IfNone result (class ≡ other_class self.now label) }
    {
        if class == 0 {
            return Some(&self.empty);
        }
        let texts = self.named.get(label as usize).texts();
        let place = class as usize - 1;
        if place < texts.len() {
            Some(texts.get(place))
        } else {
            None
        }
    }

    /// The class of a text of a label.
    pub fn class_of(&self, label: u32, text: &str) -> u32
        requires { label < length self.now.named }
        ensures number { result ≡ class_of self.now label text.now }
        ensures within { result < length (named_at self.now label) + 2 }
    {
        if text.is_empty() {
            return 0;
        }
        let _classes = self.classes(label);
        self.named.get(label as usize).texts().place(text) as u32 + 1
    }

    /// A text that stands for a class: its own, and for 'any other text' the first of `v1`, `v2`, .. that is no class of the label.
    pub fn candidate(&self, label: u32, class: u32) -> &Text
        requires label { label < length self.now.named }
        requires class { class < length (named_at self.now label) + 2 }
        ensures { IsCandidate self.now label class result.now }
    {
        match self.class_text(label, class) {
            Some(text) => text,
            None => self.named.get(label as usize).other(),
        }
    }

    /// How many classes all labels have together: the bits of a row.
    pub fn class_count(&self) -> u32
        ensures { result ≡ class_count self.now }
    {
        self.shape.total() as u32
    }

    /// Caches the row of the classes of a label that pass a `=~` or `!~`, for `cached_row`. For the other operators nothing is cached.
    pub fn cache_row(
        &mut self,
        alloc: Global,
        label: u32,
        op: MatchOp,
        pattern: &str,
        row: Row,
    ) -> Result<(), Memory>
        requires { row ≡ passing_row self.old label op pattern.now }
        ensures { self.new ≡ self.old }
    {
        self.patterns.add(alloc, label as usize, op, pattern, row)
    }

    /// The row of the classes of a label that pass a `=~` or `!~`, beside every class of each other label, if it is cached.
    pub fn cached_row(&self, label: u32, op: MatchOp, pattern: &str) -> Option<&Row>
        ensures { IfSome result (λ row. row.now ≡ passing_row self.now label op pattern.now) }
    {
        self.patterns.get(label as usize, op, pattern)
    }

    /// The universe of what was mentioned.
    fn of(alloc: Global, mentions: Mentions) -> Result<Universe, ClassError>
        requires { IsWithin (with_star mentions) }
        ensures found { IfOk result (λ universe. universe ≡ with_star mentions) }
        ensures memory { IfErr result (λ e. e ≡ ClassError.Memory) }
    {
        let (names, texts) = mentions.into_parts();
        let named = classes_of(alloc, texts)?;
        let shape = Shape::of(alloc, counts(alloc, named.as_slice())?)?;
        let star = Text::of(alloc, "*")?;
        let empty = Text::of(alloc, "")?;
        Ok(Universe {
            names,
            named,
            star,
            empty,
            shape,
            patterns: PatternCache::new(alloc),
        })
    }
}

/// Refuses what passes a limit: the labels first, and then the classes.
fn check_limits(mentions: &Mentions) -> Result<(), ClassError>
    ensures labels { OnOk result (label_count mentions.now ≤ most_labels) }
    ensures classes { OnOk result (class_count (with_star mentions.now) ≤ most_classes) }
    ensures refused { IfErr result (ExceedsUniverseLimit (with_star mentions.now)) }
{
    let labels = mentions.labels();
    if labels > MOST_LABELS {
        return Err(ClassError::TooManyLabels {
            found: labels as u64,
        });
    }
    let classes = mentions.classes()?;
    if classes > MOST_CLASSES {
        return Err(ClassError::TooManyClasses { found: classes });
    }
    Ok(())
}

/// The classes of each label, and behind them those of `*`.
fn classes_of(alloc: Global, texts: Vec<TextSet>) -> Result<Seq<Classes>, Memory>
    ensures { IfOk result (λ named. named ≡ texts.items ++ [] ∷ []) }
{
    let mut named = Seq::new(alloc);
    for set in texts {
        named.push(Classes::of(alloc, set)?)?;
    }
    named.push(Classes::of(alloc, TextSet::new(alloc))?)?;
    Ok(named)
}

/// How many classes each label has.
fn counts(alloc: Global, named: &[Classes]) -> Result<Vec<usize>, Memory>
    ensures { IfOk result (λ counts. counts.items ≡ map (λ texts. length texts + 2) named.now) }
{
    let mut counts = Vec::new(alloc);
    for classes in named {
        counts.push(classes.texts().len() + 2)?;
    }
    Ok(counts)
}
