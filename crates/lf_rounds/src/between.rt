//! What rounds leave to those behind them.
ghost use Rattle.std.specs.Prelude.{◌≡◌, ℕ, List, length, replicate, None, IfOk};
ghost use Rattle.lf_ast.specs.Rules.{rule_trees};
ghost use Rattle.lf_deps.specs.views.Sources.{IsSourcesOf};
ghost use Rattle.lf_rounds.specs.Tasks.{AreTaskPieces, Task};
ghost use Rattle.lf_rounds.specs.views.Noting.{AreMadeBy, AreRemembered, IsMadeBy};
ghost use Rattle.lf_rounds.specs.views.Standings.{IsSettledOf, IsStanding};

use crate::due::due_of;
use crate::known::RecordedReads;
use crate::round::Settled;
use crate::rule::Loaded;
use crate::table_words::TableWords;
use lf_ast::Rule;
use lf_base::{Memory, Seq};
use lf_classes::Universe;
use lf_deps::Sources;
use std::alloc::Global;

/// What is known of the rules, the words of all rows, of each rule the sum of the words that were loaded when it was computed last, and the rules that are due: whose row may
/// have grown since.
#[derive(Drop)]
pub(crate) struct Standing {
    pub(crate) known: RecordedReads,
    pub(crate) words: TableWords,
    pub(crate) sums: Vec<Option<u128>>,
    pub(crate) due: Seq<u32>,
}

impl Standing {
    /// In front of the first round, in which all recording rules are due.
    pub(crate) fn first(
        alloc: Global,
        universe: &Universe,
        rules: &Seq<Rule>,
        all: &Seq<u32>,
        sources: &Sources,
    ) -> Result<Standing, Memory>
        requires all { AreTaskPieces (rule_trees rules.now) all.now }
        requires sources { IsSourcesOf (rule_trees rules.now) sources.now }
        ensures { IfOk result (IsStanding universe.now (rule_trees rules.now)) }
    {
        let known = RecordedReads::of(alloc, rules, sources)?;
        let words = TableWords::clear(alloc, universe, sources.recorded().len())?;
        let sums = no_sums(alloc, rules.len())?;
        let due = all.copy()?;
        Ok(Standing {
            known,
            words,
            sums,
            due,
        })
    }

    /// Behind a round, of which this is left. The sums are those that there were before it.
    pub(crate) fn after(
        alloc: Global,
        universe: &Universe,
        rules: &Seq<Rule>,
        all: &Seq<u32>,
        mut sums: Vec<Option<u128>>,
        settled: Settled,
    ) -> Result<Standing, Memory>
        requires all { AreTaskPieces (rule_trees rules.now) all.now }
        requires settled { IsSettledOf universe.now (rule_trees rules.now) sums.items settled }
        ensures standing { IfOk result (IsStanding universe.now (rule_trees rules.now)) }
        ensures words { IfOk result (λ next. next.words ≡ settled.words) }
    {
        let _labels = universe.labels();
        let Settled {
            words,
            known,
            pieces,
            notes,
        } = settled;
        remember(&mut sums, &pieces, notes.as_slice());
        let width = universe.words();
        let rows = words.row_words();
        let due = due_of(alloc, &known, all, sums.as_slice(), rows, width)?;
        Ok(Standing {
            known,
            words,
            sums,
            due,
        })
    }
}

/// As many sums that aren't known.
fn no_sums(alloc: Global, count: usize) -> Result<Vec<Option<u128>>, Memory>
    ensures { IfOk result (λ sums. sums.items ≡ replicate count None) }
{
    let sums = vec![in alloc; None; count]?;
    Ok(sums)
}

/// Keeps the sums that were noted in a round over these pieces.
fn remember(sums: &mut Vec<Option<u128>>, pieces: &Seq<u32>, notes: &[Loaded])
    ensures kept { (t : Task) (words : List ℕ) → t.pieces ≡ pieces.now → AreMadeBy t words notes.now → AreRemembered t.universe t.rules t.reads words sums.old.items → AreRemembered t.universe t.rules t.reads words sums.new.items }
    ensures len { length sums.new.items ≡ length sums.old.items }
{
    for note in notes {
        remember_one(sums, pieces, *note);
    }
}

/// Keeps a sum that was noted, if there is such a piece.
fn remember_one(sums: &mut Vec<Option<u128>>, pieces: &Seq<u32>, note: Loaded)
    ensures kept { (t : Task) (words : List ℕ) → t.pieces ≡ pieces.now → IsMadeBy t words note → AreRemembered t.universe t.rules t.reads words sums.old.items → AreRemembered t.universe t.rules t.reads words sums.new.items }
    ensures len { length sums.new.items ≡ length sums.old.items }
{
    let piece = note.piece as usize;
    if piece < pieces.len() {
        let number = *pieces.get(piece) as usize;
        if number < sums.len() {
            sums[number] = Some(note.sum);
        }
    }
}
