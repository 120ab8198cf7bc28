//! How a round is made.
ghost use Rattle.std.specs.Prelude.{◌≡◌, ◌*◌, ◌<◌, ◌≤◌, ◌^◌, ◌∷◌, ◌++◌, [], cond, length, IfOk, OnOk};
ghost use Rattle.lf_ast.specs.Rules.{rule_trees};
ghost use Rattle.lf_classes.specs.RowWords.{word_count};
ghost use Rattle.lf_deps.specs.views.Sources.{IsSourcesOf};
ghost use Rattle.lf_semantics.specs.Environments.{CoversRules, recorded_names};
ghost use Rattle.lf_rounds.specs.Facts.{IsOver, IsOverDue, first_seat};
ghost use Rattle.lf_rounds.specs.Tasks.{AreTaskPieces, AreRecording, IsBelowLeast, OthersHold, is_recording};
ghost use Rattle.lf_rounds.specs.views.Noting.{IsKnown};

use super::{Round, RoundSeat};
use crate::known::RecordedReads;
use crate::rule::About;
use crate::table_words::TableWords;
use atomic_table::Table;
use lf_ast::Rule;
use lf_base::{Memory, Seq};
use lf_board::rule::Counts;
use lf_classes::Universe;
use lf_deps::{Sources, order_of};
use std::alloc::Global;
use std::snapshot::Snapshot;

impl Round {
    /// A round over rules and the words of rows, and its first seat, from which the others are split off; there are 1 to 64 seats.
    ///
    /// There are words for each recorded name, in the order in which the names come first, as by `Row::word`. They needn't be those of a row, and each bit set in them is in
    /// the least environment.
    pub fn new(
        alloc: Global,
        universe: &Universe,
        rules: &Seq<Rule>,
        words: &Seq<u64>,
        seats: u32,
    ) -> Result<(Round, RoundSeat), Memory>
        requires seats { (0 < seats) × (seats ≤ 64) }
        requires covers { CoversRules universe.now (rule_trees rules.now) }
        requires words { length words.now ≡ length (recorded_names (rule_trees rules.now)) * word_count universe.now }
        requires below { IsBelowLeast universe.now (rule_trees rules.now) words.now }
        ensures round { IfOk result (λ made. IsOver universe.now rules.now words.now seats made.0) }
        ensures seat { IfOk result (λ made. made.1 ≡ first_seat made.0) }
    {
        let sources = Sources::of(alloc, rules)?;
        let known = RecordedReads::of(alloc, rules, &sources)?;
        let pieces = recording_rules_by(alloc, rules, &sources)?;
        let start = TableWords::of(alloc, words.as_slice())?;
        let made = Round::of_due(alloc, universe, rules, known, pieces, start, seats)?;
        Ok(made)
    }

    /// A round over those recording rules that are due. The words hold each other one already.
    pub(crate) fn of_due(
        alloc: Global,
        universe: &Universe,
        rules: &Seq<Rule>,
        known: RecordedReads,
        pieces: Seq<u32>,
        start: TableWords,
        seats: u32,
    ) -> Result<(Round, RoundSeat), Memory>
        requires seats { (0 < seats) × (seats ≤ 64) }
        requires covers { CoversRules universe.now (rule_trees rules.now) }
        requires known { IsKnown (rule_trees rules.now) known.names known.reads }
        requires recording { AreRecording (rule_trees rules.now) pieces }
        requires others { OthersHold universe.now (rule_trees rules.now) pieces start }
        requires words { length start ≡ length (recorded_names (rule_trees rules.now)) * word_count universe.now }
        requires below { IsBelowLeast universe.now (rule_trees rules.now) start }
        ensures round { IfOk result (λ made. IsOverDue universe.now rules.now known.reads pieces start seats made.0) }
        ensures seat { IfOk result (λ made. made.1 ≡ first_seat made.0) }
    {
        let _labels = universe.labels();
        let about = About {
            counts: Counts {
                pieces: count(&pieces)?,
                seats,
            },
            universe: Snapshot::of(universe),
            rules: Snapshot::of(rules),
            reads: Snapshot::of(&known.reads),
            pieces: Snapshot::of(&pieces),
            start: Snapshot::of(&start),
        };
        let (table, seat) = Table::of_words(alloc, start.for_table(), &about)?;
        let round = Round {
            table,
            known,
            pieces,
            total: start.total(),
            width: universe.words(),
        };
        let seat = RoundSeat {
            seat,
            is_open: true,
            notes: Vec::new(alloc),
        };
        Ok((round, seat))
    }
}

/// The numbers of the recording rules, in the order of the rules, by their index.
pub(crate) fn recording_rules_by(
    alloc: Global,
    rules: &Seq<Rule>,
    sources: &Sources,
) -> Result<Seq<u32>, Memory>
    requires { IsSourcesOf (rule_trees rules.now) sources.now }
    ensures { IfOk result (AreTaskPieces (rule_trees rules.now)) }
{
    let order = order_of(alloc, sources, rules)?;
    let mut pieces = Seq::with_capacity(alloc, order.len())?;
    for number in order.as_slice() {
        add_recording(rules, *number, &mut pieces)?;
    }
    Ok(pieces)
}

/// Adds the number of a rule, if it is a recording rule.
fn add_recording(rules: &Seq<Rule>, number: u32, pieces: &mut Seq<u32>) -> Result<(), Memory>
    requires { number < length rules.now }
    ensures { OnOk result (pieces.new ≡ cond (is_recording (rule_trees rules.now) number) (pieces.old ++ number ∷ []) pieces.old) }
{
    if rules.get(number as usize).alert {
        return Ok(());
    }
    pieces.push(number)
}

/// How many there are. Want of memory where it doesn't fit a `u32`.
fn count(pieces: &Seq<u32>) -> Result<u32, Memory>
    ensures { IfOk result (λ count. (count ≡ length pieces.now) × (count < 2 ^ 32)) }
{
    match u32::try_from(pieces.len()) {
        Ok(count) => Ok(count),
        Err(_) => Err(Memory),
    }
}
