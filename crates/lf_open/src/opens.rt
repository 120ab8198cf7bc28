//! What stands open in rules, for each rule and for all that it reads.
ghost use Rattle.std.specs.Prelude.{◌≡◌, ◌<◌, ◌∷◌, [], ℕ, length, List, IfOk, OnOk};
ghost use Rattle.std.specs.List.{Contains};
ghost use Rattle.lf_ast.specs.Rules.{RuleTree, rule_trees};
ghost use Rattle.lf_deps.specs.Ordering.{without};
ghost use Rattle.lf_open.specs.OpenList.{AreOpen, AreOpenOf};
ghost use Rattle.lf_open.specs.views.Known.{IsKnown, rules_of};
ghost use Rattle.lf_open.specs.views.Opens.{AreMarked, AreOpens, AreReads, AreReady, IsListOf, rules_of_opens};

use crate::known::RuleReadings;
use crate::nodes::open_in;
use crate::open_at::OpenAt;
use crate::ordering::in_order;
use crate::read_graph::ReadGraph;
use crate::reading::{le_marks, loud_marks};
use lf_ast::Rule;
use lf_base::{Memory, Seq};
use lf_deps::{NameGraph, Sources, reach_of, rule_number};
use lf_forks::{Forks, NameMarks};
use std::alloc::Global;

/// The open constructs of the rule of number `i`: those of its own expression, and then those of each rule whose name it reads, directly or through others, in ascending
/// order of the rules' numbers. Those of one rule are ordered by where they start, and then by their code.
pub fn open_constructs(alloc: Global, rules: &Seq<Rule>, i: u32) -> Result<Seq<OpenAt>, Memory>
    requires { i < length rules.now }
    ensures { IfOk result (AreOpen (rule_trees rules.now) i) }
{
    let opens = Opens::of(alloc, rules)?;
    opens.list(alloc, i)
}

/// What is known of some rules, by which it is found what stands open for each of them. It is made once for all. What stands open in a rule is looked for when it is asked, since
/// most rules have an answer for each of their labels.
#[derive(Drop)]
pub struct Opens<'a> {
    pub(crate) rules: &'a Seq<Rule>,
    reads: Reads,
    marked: Marked,
}

/// What rules read.
#[derive(Drop)]
struct Reads {
    sources: Sources,
    graph: NameGraph,
    names: ReadGraph,
}

/// Which rules hold what.
#[derive(Drop)]
struct Marked {
    forks: Forks,
    loud: NameMarks,
    on_le: NameMarks,
}

impl<'a> Opens<'a> {
    /// Those of rules.
    pub fn of(alloc: Global, rules: &'a Seq<Rule>) -> Result<Opens<'a>, Memory>
        ensures { IfOk result (AreOpens (rule_trees rules.now)) }
    {
        let reads = Reads::of(alloc, rules)?;
        let marked = Marked::of(alloc, rules, &reads)?;
        Ok(Opens {
            rules,
            reads,
            marked,
        })
    }

    /// The open constructs of the rule of number `i`.
    pub fn list(&self, alloc: Global, i: u32) -> Result<Seq<OpenAt>, Memory>
        requires opens { AreReady self.now }
        requires rule { i < length (rules_of_opens self.now) }
        ensures { (rules : List RuleTree) → AreOpens rules self.now → IfOk result (AreOpen rules i) }
    {
        let known = self.known();
        let reach = reach_of(alloc, &self.reads.sources, &self.reads.graph, i)?;
        let mut found = own_list(&known, alloc, i as usize)?;
        push_others(&known, alloc, reach.as_slice(), i, &mut found)?;
        Ok(found)
    }

    /// What is known of the rules.
    pub(crate) fn known(&self) -> RuleReadings<'_>
        requires { AreReady self.now }
        ensures { IsKnown result × (rules_of result ≡ rules_of_opens self.now) }
    {
        RuleReadings {
            rules: self.rules,
            sources: &self.reads.sources,
            graph: &self.reads.graph,
            reading: &self.reads.names,
            forks: &self.marked.forks,
            loud: &self.marked.loud,
            on_le: &self.marked.on_le,
        }
    }
}

impl Reads {
    /// What these rules read.
    fn of(alloc: Global, rules: &Seq<Rule>) -> Result<Reads, Memory>
        ensures { IfOk result (AreReads (rule_trees rules.now)) }
    {
        let sources = Sources::of(alloc, rules)?;
        let graph = NameGraph::of(alloc, &sources)?;
        let names = ReadGraph::of(alloc, rules, &sources)?;
        Ok(Reads {
            sources,
            graph,
            names,
        })
    }
}

impl Marked {
    /// Which of these rules hold what, by what they read.
    fn of(alloc: Global, rules: &Seq<Rule>, reads: &Reads) -> Result<Marked, Memory>
        requires { AreReads (rule_trees rules.now) reads.now }
        ensures { IfOk result (AreMarked (rule_trees rules.now)) }
    {
        let forks = Forks::of(alloc, rules, &reads.sources)?;
        let loud = loud_marks(alloc, rules, &reads.sources, &reads.graph)?;
        let on_le = le_marks(alloc, rules, &reads.sources, &reads.graph)?;
        Ok(Marked { forks, loud, on_le })
    }
}

/// Puts what stands open in the expressions of the rules of some numbers behind others, but for one of these rules.
fn push_others(
    known: &RuleReadings<'_>,
    alloc: Global,
    numbers: &[u32],
    i: u32,
    found: &mut Seq<OpenAt>,
) -> Result<(), Memory>
    requires known { IsKnown known.now }
    requires rules { (k : ℕ) → Contains numbers.now k → k < length known.now.rules.now }
    ensures { OnOk result (IsListOf (rules_of known.now) (without i numbers.now) found.old found.new) }
{
    for number in numbers {
        let own = other_list(known, alloc, *number, i)?;
        found.extend_from_slice(own.as_slice())?;
    }
    Ok(())
}

/// What stands open in the expression of the rule of a number, but for one number.
fn other_list(
    known: &RuleReadings<'_>,
    alloc: Global,
    number: u32,
    i: u32,
) -> Result<Seq<OpenAt>, Memory>
    requires known { IsKnown known.now }
    requires rule { number < length known.now.rules.now }
    ensures { IfOk result (λ own. IsListOf (rules_of known.now) (without i (number ∷ [])) [] own) }
{
    if number == i {
        return Ok(Seq::new(alloc));
    }
    own_list(known, alloc, number as usize)
}

/// What stands open in the expression of the rule of a number.
pub(crate) fn own_list(
    known: &RuleReadings<'_>,
    alloc: Global,
    k: usize,
) -> Result<Seq<OpenAt>, Memory>
    requires known { IsKnown known.now }
    requires rule { k < length known.now.rules.now }
    ensures { IfOk result (AreOpenOf (rules_of known.now) k) }
{
    let rule = rule_number(k)?;
    let selected = known.sources.selected_by(k);
    let found = open_in(known, alloc, rule, selected, &known.rules.get(k).expr)?;
    let sorted = in_order(alloc, found)?;
    Ok(Seq::from_vec(sorted))
}
