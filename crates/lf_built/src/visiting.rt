//! What is done with an expression, and behind a rule's.
ghost use Rattle.std.specs.Prelude.{◌≡◌, ◌∷◌, ◌<◌, ◌≤◌, ◌+◌, ◌-◌, ◌^◌, ℕ, List, Option, Some, length, option_and_then, option_map, false, true, IfNone, IfOk, IfSome, OnOk};
ghost use Rattle.std.specs.Option.{option_copied};
ghost use Rattle.lf_ast.specs.Labels.{Bytes};
ghost use Rattle.lf_ast.specs.Tree.{tree};
ghost use Rattle.lf_ast.specs.declared.expr.Matcher.{Matcher};
ghost use Rattle.lf_trials.specs.Building.{Building, one_more as with_one_more, with_series};
ghost use Rattle.lf_trials.specs.Given.{Given};
ghost use Rattle.lf_trials.specs.Reached.{is_marked};
ghost use Rattle.lf_candidates.specs.views.ClassTexts.{KnowsName, Stands};
ghost use Rattle.lf_built.specs.declared.prepared.Prepared.{Prepared};
ghost use Rattle.lf_built.specs.declared.work.Pending.TheVariants.{Finish, Visit};
ghost use Rattle.lf_built.specs.views.Indexed.{IsPrepared, env_of, trees_of, universe_of};
ghost use Rattle.lf_built.specs.views.Places.{size};
ghost use Rattle.lf_built.specs.views.Spots.{IsSelector, IsSpot, tree_at};
ghost use Rattle.lf_built.specs.views.Tasks.{IsNoSelector, parts_wanted};
ghost use Rattle.lf_built.specs.views.Unsaid.{IsUnnamed};
ghost use Rattle.lf_built.specs.views.Works.{GoesOn, IsEntered, Leaves, LeavesBehind, all_of, by_rule_of, effort, expression_of, marks_of, selector_of, stack_of, weight};

use crate::operands::without_marked;
use crate::prepared::Prepared;
use crate::series::{series_named, series_unnamed};
use crate::spots::Spot;
use crate::work::{Pending, Work, push_parts};
use lf_ast::{Expr, LabelSet, Matcher, selected_name};
use lf_base::{Memory, Text};
use lf_candidates::{LabelTexts, is_recorded};
use lf_graph::one_more;
use std::alloc::Global;

impl<'a> Prepared<'a> {
    /// Does a task. It says whether to go on: else there is no world of so few selectors.
    pub(crate) fn perform(
        &self,
        alloc: Global,
        most: usize,
        task: Pending<'a>,
        work: &mut Work<'a>,
    ) -> Result<bool, Memory>
        requires known { IsPrepared self.now }
        requires few { work.old.made.selectors ≤ most }
        requires leaves { (whole : Option Building) × Leaves self.now whole (task ∷ stack_of work.old) work.old }
        ensures goes { (whole : Option Building) → Leaves self.now whole (task.entry ∷ stack_of work.old) work.old → IfOk result (GoesOn self.now most whole work.new) }
        ensures less { IfOk result (λ goes. goes ≡ true → effort self.now most work.new + 1 ≤ effort self.now most work.old + weight task.entry) }
    {
        match task {
            Pending::Visit { spot, texts } => self.visit(alloc, most, spot, texts, work),
            Pending::Finish => finish(work),
        }
    }

    /// Builds an expression from texts, or puts its parts onto the stack.
    fn visit(
        &self,
        alloc: Global,
        most: usize,
        spot: Spot<'a>,
        texts: LabelTexts,
        work: &mut Work<'a>,
    ) -> Result<bool, Memory>
        requires known { IsPrepared self.now }
        requires few { work.old.made.selectors ≤ most }
        requires leaves { (whole : Option Building) × Leaves self.now whole (Visit spot texts ∷ stack_of work.old) work.old }
        ensures goes { (whole : Option Building) → Leaves self.now whole (Visit spot.entry texts ∷ stack_of work.old) work.old → IfOk result (GoesOn self.now most whole work.new) }
        ensures less { IfOk result (λ goes. goes ≡ true → effort self.now most work.new + 1 ≤ effort self.now most work.old + size (tree_at spot.entry)) }
    {
        match self.handed(&spot, texts) {
            Some(texts) => self.build_from(alloc, most, &spot, texts, work),
            None => Ok(false),
        }
    }

    /// The same, from the texts that the expression is handed.
    fn build_from(
        &self,
        alloc: Global,
        most: usize,
        spot: &Spot<'a>,
        texts: LabelTexts,
        work: &mut Work<'a>,
    ) -> Result<bool, Memory>
        requires known { IsPrepared self.now }
        requires few { work.old.made.selectors ≤ most }
        requires spot { IsSpot (trees_of self.now) spot.now }
        requires texts { (D : Given) × Stands (universe_of self.now) texts D }
        ensures goes { (whole : Option Building) (D : Given) → Stands (universe_of self.now) texts D → LeavesBehind self.now whole (expression_of self.now work.old (tree_at spot.now) D) work.old → IfOk result (GoesOn self.now most whole work.new) }
        ensures less { IfOk result (λ goes. goes ≡ true → effort self.now most work.new + 1 ≤ effort self.now most work.old + size (tree_at spot.now)) }
    {
        match selector_of(spot.expr) {
            Some((name, matchers)) => {
                let name = selected_name(name, matchers);
                self.select(alloc, most, spot, name, matchers, texts, work)
            }
            None => self.expand(spot, texts, work),
        }
    }

    /// Puts the parts of an expression that are to be built onto the stack.
    fn expand(
        &self,
        spot: &Spot<'a>,
        texts: LabelTexts,
        work: &mut Work<'a>,
    ) -> Result<bool, Memory>
        requires known { IsPrepared self.now }
        requires spot { IsSpot (trees_of self.now) spot.now }
        requires texts { (D : Given) × Stands (universe_of self.now) texts D }
        ensures goes { (most : ℕ) (whole : Option Building) (D : Given) → work.old.made.selectors ≤ most → Stands (universe_of self.now) texts D → LeavesBehind self.now whole (all_of self.now work.old (parts_wanted (universe_of self.now) (env_of self.now) (tree_at spot.now) D)) work.old → IfOk result (GoesOn self.now most whole work.new) }
        ensures less { (most : ℕ) → IfOk result (λ goes. goes ≡ true → effort self.now most work.new + 1 ≤ effort self.now most work.old + size (tree_at spot.now)) }
    {
        match self.parts(spot, texts)? {
            Some(parts) => {
                push_parts(&mut work.stack, parts)?;
                Ok(true)
            }
            None => Ok(false),
        }
    }

    /// Builds a selector from texts: a series is added, or the expression of a rule of the name is to be built. There is no world where as many selectors as may be were
    /// built before.
    fn select(
        &self,
        alloc: Global,
        most: usize,
        spot: &Spot<'a>,
        name: Option<&Text>,
        matchers: &[Matcher],
        texts: LabelTexts,
        work: &mut Work<'a>,
    ) -> Result<bool, Memory>
        requires known { IsPrepared self.now }
        requires few { work.old.made.selectors ≤ most }
        requires spot { IsSpot (trees_of self.now) spot.now }
        requires unnamed { option_copied name ≡ None → IsUnnamed (tree_at spot.now) matchers.now }
        requires names { (n : Bytes) → option_copied name ≡ Some n → KnowsName (universe_of self.now) n }
        requires texts { (D : Given) × Stands (universe_of self.now) texts D }
        ensures goes { (whole : Option Building) (D : Given) → Stands (universe_of self.now) texts D → LeavesBehind self.now whole (selector_of self.now work.old (option_copied name.entry) matchers.now D) work.old → IfOk result (GoesOn self.now most whole work.new) }
        ensures less { IfOk result (λ goes. goes ≡ true → effort self.now most work.new ≤ effort self.now most work.old) }
    {
        if work.made.selectors == most {
            return Ok(false);
        }
        match name {
            Some(name) => self.select_name(alloc, most, name, texts, work),
            None => {
                let names = self.names.as_slice();
                let recorded = self.sources.recorded();
                let sought = self.sought_name(spot);
                let series = series_unnamed(
                    alloc,
                    self.universe,
                    names,
                    recorded,
                    matchers,
                    sought,
                    texts,
                )?;
                add_found(most, series, work)
            }
        }
    }

    /// Builds a selector of a name from texts.
    fn select_name(
        &self,
        alloc: Global,
        most: usize,
        name: &Text,
        texts: LabelTexts,
        work: &mut Work<'a>,
    ) -> Result<bool, Memory>
        requires known { IsPrepared self.now }
        requires few { work.old.made.selectors < most }
        requires name { KnowsName (universe_of self.now) name.now }
        requires texts { (D : Given) × Stands (universe_of self.now) texts D }
        ensures goes { (whole : Option Building) (matchers : List Matcher) (D : Given) → Stands (universe_of self.now) texts D → LeavesBehind self.now whole (selector_of self.now work.old (Some name.now) matchers D) work.old → IfOk result (GoesOn self.now most whole work.new) }
        ensures less { IfOk result (λ goes. goes ≡ true → effort self.now most work.new ≤ effort self.now most work.old) }
    {
        let name = name.as_str();
        if is_recorded(self.sources.recorded(), name) {
            return self.pick(most, name, texts, work);
        }
        let names = self.names.as_slice();
        let series = series_named(alloc, self.universe, names, name, texts)?;
        add_found(most, series, work)
    }

    /// Builds a selector of a recorded name from texts: the first rule that fits is marked, and its expression is to be built.
    fn pick(
        &self,
        most: usize,
        name: &str,
        texts: LabelTexts,
        work: &mut Work<'a>,
    ) -> Result<bool, Memory>
        requires known { IsPrepared self.now }
        requires few { work.old.made.selectors < most }
        requires texts { (D : Given) × Stands (universe_of self.now) texts D }
        ensures goes { (whole : Option Building) (D : Given) → Stands (universe_of self.now) texts D → LeavesBehind self.now whole (option_map with_one_more (by_rule_of self.now work.old name.now D)) work.old → IfOk result (GoesOn self.now most whole work.new) }
        ensures less { IfOk result (λ goes. goes ≡ true → effort self.now most work.new ≤ effort self.now most work.old) }
    {
        if work.unmarked == 0 {
            return Ok(false);
        }
        match self.first_fitting(&work.marked, name, &texts) {
            Some(number) => {
                self.enter(number, texts, work)?;
                Ok(true)
            }
            None => Ok(false),
        }
    }

    /// Marks a rule, and puts its expression onto the stack, and its step before it. What the rule sets, the expression needn't give.
    fn enter(&self, number: usize, texts: LabelTexts, work: &mut Work<'a>) -> Result<(), Memory>
        requires known { IsPrepared self.now }
        requires number { number < length self.now.rules.now }
        requires free { is_marked (marks_of work.old) number ≡ false }
        requires unmarked { 0 < work.old.unmarked }
        requires few { work.old.made.selectors < 2 ^ 64 - 1 }
        requires texts { (D : Given) × Stands (universe_of self.now) texts D }
        ensures { (D : Given) → Stands (universe_of self.now) texts D → OnOk result (IsEntered self.now number D work.old work.new) }
    {
        let texts = without_marked(self.set_by(number), texts);
        let spot = Spot {
            rule: number,
            place: 0,
            expr: &self.rules.get(number).expr,
        };
        work.made.add_selector();
        work.unmarked -= 1;
        work.marked.put(number)?;
        work.stack.push(Pending::Finish)?;
        work.stack.push(Pending::Visit { spot, texts })?;
        Ok(())
    }
}

/// The name before the braces of a selector, and its matchers.
pub(crate) fn selector_of<'e>(expr: &'e Expr) -> Option<(&'e Option<Text>, &'e [Matcher])>
    ensures some { IfSome result (λ s. IsSelector (tree expr.now) s.0.now s.1.now) }
    ensures none { IfNone result (IsNoSelector (tree expr.now)) }
{
    match expr {
        Expr::Selector { name, matchers, .. } => Some((name, matchers.as_slice())),
        _ => None,
    }
}

/// Adds a series that was found for a selector.
fn add_found<'a>(most: usize, series: Option<LabelSet>, work: &mut Work<'a>) -> Result<bool, Memory>
    requires few { work.old.made.selectors < most }
    ensures goes { (p : Prepared) (whole : Option Building) → LeavesBehind p whole (option_and_then with_series series) work.old → IfOk result (GoesOn p most whole work.new) }
    ensures less { (p : Prepared) → IfOk result (λ goes. goes ≡ true → effort p most work.new ≤ effort p most work.old) }
{
    match series {
        Some(series) => {
            work.made.add_series(series)?;
            Ok(true)
        }
        None => Ok(false),
    }
}

/// Takes the mark of the rule that was marked last off, and adds its step.
fn finish<'a>(work: &mut Work<'a>) -> Result<bool, Memory>
    ensures goes { (p : Prepared) (most : ℕ) (whole : Option Building) → work.old.made.selectors ≤ most → Leaves p whole (Finish ∷ stack_of work.old) work.old → IfOk result (GoesOn p most whole work.new) }
    ensures less { (p : Prepared) (most : ℕ) → IfOk result (λ goes. goes ≡ true → effort p most work.new ≤ effort p most work.old) }
{
    match work.marked.pop() {
        Some(number) => {
            work.unmarked = one_more(work.unmarked)?;
            work.made.add_step(number)?;
            Ok(true)
        }
        None => Ok(false),
    }
}
