//! What functions of labels read off their strings.
ghost use Rattle.std.specs.Prelude.{◌≡◌, [], drop, map, OnOk};
ghost use Rattle.lf_ast.specs.Arguments.{text_of, texts_of};
ghost use Rattle.lf_ast.specs.Tree.{tree, trees};
ghost use Rattle.lf_semantics.specs.Strings.{joining, replacing};
ghost use Rattle.lf_semantics.specs.Mentions.{joining_mentions, mention, replacement_texts, replacing_mentions, source_mentions};
ghost use Rattle.lf_classes.specs.views.Mentioned.{mentioned_before, mentioned_behind, mentioned_all, with_mentioned};

use crate::mentions::Mentions;
use lf_ast::{Expr, LabelEffect, has_dollar, text_at, text_of};
use lf_base::names::is_label_name;
use lf_base::{Memory, Text};
use std::alloc::Global;

impl Mentions {
    /// Mentions what a function reads off its strings before its operand: `histogram_quantile` has a text of `le`, and `count_values` its label.
    #[inline(never)]
    pub fn mention_before(
        &mut self,
        alloc: Global,
        effect: LabelEffect,
        args: &[Expr],
    ) -> Result<(), Memory>
        ensures { OnOk result (self.new ≡ mentioned_all self.old (mentioned_before effect (texts_of (trees args.now)))) }
    {
        match effect {
            LabelEffect::HistogramQuantile => self.mention_text(alloc, "le", "+Inf"),
            LabelEffect::CountValues => self.mention_label(alloc, text_at(args, 0)),
            _ => Ok(()),
        }
    }

    /// Mentions what a function reads off its strings behind its operand.
    #[inline(never)]
    pub fn mention_behind(
        &mut self,
        alloc: Global,
        effect: LabelEffect,
        args: &[Expr],
    ) -> Result<(), Memory>
        ensures { OnOk result (self.new ≡ mentioned_all self.old (mentioned_behind effect (texts_of (trees args.now)))) }
    {
        match effect {
            LabelEffect::LabelReplace => self.mention_replacing(alloc, args),
            LabelEffect::LabelJoin => self.mention_joining(alloc, args),
            _ => Ok(()),
        }
    }

    /// `label_replace` mentions its target with its replacement, and its source with the texts of its pattern.
    fn mention_replacing(&mut self, alloc: Global, args: &[Expr]) -> Result<(), Memory>
        ensures { OnOk result (self.new ≡ mentioned_all self.old (replacing_mentions (replacing (texts_of (trees args.now))))) }
    {
        self.mention_target(alloc, text_at(args, 1), text_at(args, 2))?;
        self.mention_source(alloc, text_at(args, 3), text_at(args, 4))
    }

    /// The target of a replacement is mentioned with its text, if that has no `$`.
    fn mention_target(
        &mut self,
        alloc: Global,
        target: &str,
        replacement: &str,
    ) -> Result<(), Memory>
        ensures { OnOk result (self.new ≡ with_mentioned self.old (mention target.now (replacement_texts replacement.now))) }
    {
        if has_dollar(replacement) {
            self.mention_label(alloc, target)
        } else {
            self.mention_text(alloc, target, replacement)
        }
    }

    /// The source of a replacement is mentioned with the texts of the pattern, if it is a label name.
    fn mention_source(&mut self, alloc: Global, source: &str, pattern: &str) -> Result<(), Memory>
        ensures { OnOk result (self.new ≡ mentioned_all self.old (source_mentions source.now pattern.now)) }
    {
        if !is_label_name(source.as_bytes()) {
            return Ok(());
        }
        let pattern = Text::of(alloc, pattern)?;
        self.mention_pattern(alloc, source, &pattern)
    }

    /// `label_join` mentions its target and then its sources.
    fn mention_joining(&mut self, alloc: Global, args: &[Expr]) -> Result<(), Memory>
        ensures { OnOk result (self.new ≡ mentioned_all self.old (joining_mentions (joining (texts_of (trees args.now))))) }
    {
        self.mention_label(alloc, text_at(args, 1))?;
        self.mention_sources(alloc, behind(args, 3))
    }

    /// Each argument names a label, which is mentioned.
    fn mention_sources(&mut self, alloc: Global, sources: &[Expr]) -> Result<(), Memory>
        ensures { OnOk result (self.new ≡ mentioned_all self.old (map (λ source. mention (text_of (tree source)) []) sources.now)) }
    {
        for source in sources {
            self.mention_label(alloc, text_of(source))?;
        }
        Ok(())
    }
}

/// The arguments behind the first ones.
fn behind(args: &[Expr], first: usize) -> &[Expr]
    ensures { result.now ≡ drop first args.now }
{
    if first < args.len() {
        &args[first..]
    } else {
        &[]
    }
}
