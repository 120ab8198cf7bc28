//! The steps of a seat at work: each is a single atomic step on a word of the table.
ghost use Rattle.std.specs.Prelude.{◌≡◌, true, false, ◌+◌, ◌<◌, length, Bool, IfSome, MatchOption};
ghost use Rattle.lf_rounds.specs.Facts.{task};
ghost use Rattle.lf_rounds.specs.Rounds.{IsSummed, claimed_view, finished_view, missed_view, noted_view, raised_view};
ghost use Rattle.lf_rounds.specs.Tasks.{place_of, stored_word, width};
ghost use Rattle.lf_rounds.specs.views.Working.{IsUsed, seen};

use super::Round;
use crate::rule::{Finish, Note, Raise, RoundClaim, RoundView};
use atomic_table::Seat;

impl Round {
    /// The number of a piece that no other claim gets, and none where no piece is left.
    pub(super) fn claim(&self, seat: &mut Seat<(), RoundView>) -> Option<u32>
        requires used { IsUsed self.now seat.old.table_id seat.old.me }
        requires idle { seat.old.me.0.busy ≡ false }
        requires open { seat.old.me.0.board.missed ≡ 0 }
        ensures used { IsUsed self.now seat.new.table_id seat.new.me }
        ensures number { MatchOption result (seat.new.me.0 ≡ missed_view seat.old.me.0) (λ n. (n < self.now.board.pieces) × (seat.new.me.0 ≡ claimed_view seat.old.me.0 n)) }
        ensures left { IfSome result (λ n. length seat.old.me.0.board.claims < self.now.board.pieces) }
    {
        let found = self.table.shared.fetch_add::<RoundClaim>(seat, 0, 1);
        if found < self.pieces.len() as u64 {
            Some(found as u32)
        } else {
            None
        }
    }

    /// Loads a row word, which is noted for the piece in work.
    pub(super) fn load(&self, seat: &mut Seat<(), RoundView>, place: usize) -> u64
        requires used { IsUsed self.now seat.old.table_id seat.old.me }
        requires work { (seat.old.me.0.busy ≡ true) × (seat.old.me.0.raised ≡ 0) }
        requires place { place < length self.now.start }
        ensures used { IsUsed self.now seat.new.table_id seat.new.me }
        ensures noted { seat.new.me.0 ≡ noted_view seat.old.me.0 place result }
    {
        self.table.shared.load::<Note>(seat, place + 1)
    }

    /// Raises the next word of the row of the piece in work, but for the last.
    pub(super) fn raise(&self, seat: &mut Seat<(), RoundView>, place: usize, word: u64)
        requires used { IsUsed self.now seat.old.table_id seat.old.me }
        requires work { (seat.old.me.0.busy ≡ true) × (seat.old.me.0.raised + 1 < width (task self.now)) }
        requires within { place < length self.now.start }
        requires place { place ≡ place_of (task self.now) seat.old.me.0.piece seat.old.me.0.raised }
        requires word { word ≡ stored_word (task self.now) seat.old.me.0.piece (seen self.now seat.old.me) seat.old.me.0.raised }
        ensures used { IsUsed self.now seat.new.table_id seat.new.me }
        ensures raised { (added : Bool) × (seat.new.me.0 ≡ raised_view seat.old.me.0 added) }
    {
        let shared = &self.table.shared;
        let at = place + 1;
        // An or of a word without a bit changes nothing: a load does the same, and takes the word's line from no other processor.
        if word == 0 {
            shared.load::<Raise>(seat, at);
        } else {
            shared.fetch_or::<Raise>(seat, at, word);
        }
    }

    /// Raises the last word of the row of the piece in work, which is done then.
    pub(super) fn finish(&self, seat: &mut Seat<(), RoundView>, place: usize, word: u64)
        requires used { IsUsed self.now seat.old.table_id seat.old.me }
        requires work { (seat.old.me.0.busy ≡ true) × (seat.old.me.0.raised + 1 ≡ width (task self.now)) }
        requires within { place < length self.now.start }
        requires place { place ≡ place_of (task self.now) seat.old.me.0.piece seat.old.me.0.raised }
        requires word { word ≡ stored_word (task self.now) seat.old.me.0.piece (seen self.now seat.old.me) seat.old.me.0.raised }
        requires summed { IsSummed (task self.now) (record { piece = seat.old.me.0.piece; loads = seat.old.me.0.loads }) }
        ensures used { IsUsed self.now seat.new.table_id seat.new.me }
        ensures finished { (added : Bool) × (seat.new.me.0 ≡ finished_view seat.old.me.0 added) }
    {
        self.table.shared.fetch_or::<Finish>(seat, place + 1, word);
    }
}
