//! The end of a round.
ghost use Rattle.std.specs.Prelude.{◌≡◌, ◌≢◌, ◌↔◌, ◌-◌, true, false, length, sum, IfOk, IsTrue};
ghost use Rattle.lf_board.specs.Numbers.{AreNumbersBelow};
ghost use Rattle.lf_classes.specs.RowWords.{WordsLeq};
ghost use Rattle.lf_semantics.specs.Environments.{IsLeast};
ghost use Rattle.lf_ast.specs.Rules.{rule_trees};
ghost use Rattle.lf_rounds.specs.Facts.{task};
ghost use Rattle.lf_rounds.specs.Words.{AreWords};
ghost use Rattle.lf_rounds.specs.Tasks.{HoldRules, IsBelowLeast, stands_for};
ghost use Rattle.lf_rounds.specs.views.Ending.{EndsRound};
ghost use Rattle.lf_rounds.specs.views.Noting.{AreMadeBy, IsKnown};

use super::{Round, RoundSeat};
use crate::known::RecordedReads;
use crate::rule::Loaded;
use crate::table_words::TableWords;
use lf_base::{Memory, Seq};
use std::alloc::Global;

/// The words at the end of a round, and whether one of them differs from the start.
#[derive(Drop)]
pub struct RoundEnd {
    pub words: Seq<u64>,
    pub changed: bool,
}

/// All that a round leaves: the words at its end, what it was over, and notes of its pieces.
#[derive(Drop)]
pub(crate) struct Settled {
    pub(crate) words: TableWords,
    pub(crate) known: RecordedReads,
    pub(crate) pieces: Seq<u32>,
    pub(crate) notes: Vec<Loaded>,
}

impl Round {
    /// Ends the round with the only seat that is left, when all pieces are done. The words hold those at the start, and what each recording rule stores over the environment
    /// for which these stand. Where none changed, they stand for the least environment.
    pub fn close(self, alloc: Global, seat: RoundSeat) -> Result<RoundEnd, Memory>
        requires own { seat.board ≡ self.board }
        requires last { seat.room ≡ self.board.seats - 1 }
        requires shut { (seat.is_open ≡ false) × (seat.is_whole ≡ true) }
        // Each piece was claimed once.
        ensures claims { AreNumbersBelow self.board.pieces seat.claims }
        ensures len { IfOk result (λ end. length end.words ≡ length self.start) }
        ensures fit { IfOk result (λ end. AreWords end.words) }
        ensures above { IfOk result (λ end. WordsLeq self.start end.words) }
        ensures rules { IfOk result (λ end. HoldRules self.universe (rule_trees self.rules) end.words self.start) }
        ensures below { IfOk result (λ end. IsBelowLeast self.universe (rule_trees self.rules) end.words) }
        ensures changed { IfOk result (λ end. IsTrue end.changed ↔ (end.words ≢ self.start)) }
        ensures least { IfOk result (λ end. end.changed ≡ false → IsLeast self.universe (rule_trees self.rules) (stands_for (task self) end.words)) }
    {
        let before = self.total_before();
        let Settled { words, .. } = self.settle(alloc, seat)?;
        // Words only grow in a round, so they are the same where their sums are.
        let changed = words.total() != before;
        let words = Seq::of(alloc, words.row_words())?;
        Ok(RoundEnd { words, changed })
    }

    /// The same, but that nothing is compared, with all that the round leaves.
    pub(crate) fn settle(self, alloc: Global, seat: RoundSeat) -> Result<Settled, Memory>
        requires own { seat.board ≡ self.board }
        requires last { seat.room ≡ self.board.seats - 1 }
        requires shut { (seat.is_open ≡ false) × (seat.is_whole ≡ true) }
        ensures claims { AreNumbersBelow self.board.pieces seat.claims }
        ensures ends { IfOk result (λ settled. EndsRound self settled.words) }
        ensures fit { IfOk result (λ settled. AreWords settled.words) }
        ensures known { IfOk result (λ settled. IsKnown (rule_trees self.rules) settled.known.names settled.known.reads) }
        ensures over { IfOk result (λ settled. (settled.known.reads ≡ self.reads) × (settled.pieces ≡ self.pieces)) }
        ensures made { IfOk result (λ settled. AreMadeBy (task self) settled.words settled.notes.items) }
    {
        let Round {
            table,
            known,
            pieces,
            total: _,
            width: _,
        } = self;
        let RoundSeat {
            seat,
            is_open: _,
            notes,
        } = seat;
        let closed = table.close_with(seat);
        let words = TableWords::of_closed(alloc, &closed);
        closed.free();
        let words = words?;
        Ok(Settled {
            words,
            known,
            pieces,
            notes,
        })
    }

    /// The sum of the words at the start.
    fn total_before(&self) -> u128
        ensures { result ≡ sum self.now.start }
    {
        self.total
    }
}
