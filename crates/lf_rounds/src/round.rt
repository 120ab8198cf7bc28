//! A round and its seats.
ghost use Rattle.std.specs.Prelude.{◌≡◌, ◌&&◌, true, ◌+◌, ◌-◌, ◌<◌, [], ◌++◌, OnOk};
ghost use Rattle.lf_rounds.specs.Facts.{RoundFacts, RoundSeatFacts};

mod closing;
mod making;
mod rows;
mod steps;
mod working;

use crate::known::RecordedReads;
use crate::rule::{About, Loaded, Rising, RoundCut, RoundMerge, RoundView};
use atomic_table::{Seat, Table};
pub use closing::RoundEnd;
pub(crate) use closing::Settled;
use lf_base::choice::both;
use lf_base::{Memory, Seq};
use lf_board::rule::Cutting;
pub(crate) use making::recording_rules_by;
pub(crate) use rows::take_row;
use std::alloc::Global;
use std::marker::{Brand, Model};

/// A round over recording rules, its pieces: each is computed once, from rows that only grow while others raise them, and its row is raised in turn. Any number of threads
/// may share it. Of the words at its start it has their sum.
#[derive(Drop)]
pub struct Round {
    table: Table<(), RoundView, About, Rising, Global>,
    known: RecordedReads,
    pieces: Seq<u32>,
    total: u128,
    width: u32,
}

impl Model for Round {
    ghost use Rattle.lf_rounds.specs.Facts.{RoundFacts};
    ghost use Rattle.lf_rounds.specs.views.Kept.{IsKept, round_facts};
    ghost use Rattle.lf_ast.specs.contracts.expr.Expr as expr;
    ghost use Rattle.std.specs.Coded.{codes};

    ghost Value = { RoundFacts };

    ghost coded = { Prim.hlevel (codes, expr.the_row.coded) };

    ghost view = { λ r. round_facts r.table.shared.key r.table.shared.table_id r.pieces };

    ghost invariant = { λ r. IsKept r.table.shared.key r.table.shared.table_id r.known.names r.known.reads r.pieces r.total r.width };
}

/// A place in a round, with which one worker claims and works. Of pieces that it did it has notes.
#[derive(Drop)]
pub struct RoundSeat {
    seat: Seat<(), RoundView>,
    is_open: bool,
    notes: Vec<Loaded>,
}

impl Model for RoundSeat {
    ghost use Rattle.std.specs.Prelude.{◌≡◌, ◌-◌, ◌<◌, [], ◌==◌, not};
    ghost use Rattle.lf_rounds.specs.Facts.{RoundSeatFacts};
    ghost use Rattle.lf_rounds.specs.views.Kept.{board_at};
    ghost use Rattle.lf_rounds.specs.views.Noting.{AreNoted};

    ghost Value = { RoundSeatFacts };

    ghost view = { λ s. record { board = board_at s.seat.table_id s.seat.me.0; is_open = s.is_open; is_whole = not s.seat.me.0.busy; room = s.seat.me.0.board.share - 1; claims = s.seat.me.0.board.claims } };

    ghost invariant = { λ s. (0 < s.seat.me.0.board.share) × (s.seat.me.1 ≡ []) × (s.is_open ≡ (s.seat.me.0.board.missed == 0)) × AreNoted s.seat.me.0.done s.notes.items };
}

impl Round {
    /// A new seat with this room, which is taken from the room of an open seat. It takes no memory.
    pub fn split(&self, seat: &mut RoundSeat, room: u32) -> RoundSeat
        requires own { seat.old.board ≡ self.now.board }
        requires open { (seat.old.is_open ≡ true) × (seat.old.is_whole ≡ true) }
        requires room { room < seat.old.room }
        ensures kept { seat.new ≡ record seat.old { room = seat.old.room - (room + 1) } }
        ensures given { result ≡ record { board = self.now.board; is_open = true; is_whole = true; room = room; claims = [] } }
    {
        self.cut::<Brand>(seat, room)
    }

    /// Splits a seat off at a room that the type names.
    fn cut<C: Cutting>(&self, seat: &mut RoundSeat, room: u32) -> RoundSeat
        requires picked { room ≡ C.room }
        requires own { seat.old.board ≡ self.now.board }
        requires open { (seat.old.is_open ≡ true) × (seat.old.is_whole ≡ true) }
        requires room { room < seat.old.room }
        ensures kept { seat.new ≡ record seat.old { room = seat.old.room - (room + 1) } }
        ensures given { result ≡ record { board = self.now.board; is_open = true; is_whole = true; room = room; claims = [] } }
    {
        let part = self.table.shared.split_seat::<RoundCut<C>>(&mut seat.seat);
        RoundSeat {
            seat: part,
            is_open: true,
            notes: Vec::new(*seat.notes.allocator()),
        }
    }

    /// Gives this seat what the other has: its claims, behind its own, and its room and place. It stays open where both are. It takes no memory, so the other's notes are
    /// let go.
    pub fn join(&self, seat: &mut RoundSeat, other: RoundSeat)
        requires own { (seat.old.board ≡ self.now.board) × (other.board ≡ self.now.board) }
        requires whole { (seat.old.is_whole ≡ true) × (other.is_whole ≡ true) }
        ensures { seat.new ≡ record seat.old { is_open = seat.old.is_open && other.is_open; room = seat.old.room + (other.room + 1); claims = seat.old.claims ++ other.claims } }
    {
        let RoundSeat {
            seat: part,
            is_open,
            notes: _,
        } = other;
        self.table
            .shared
            .join_seat::<RoundMerge>(&mut seat.seat, part);
        seat.is_open = both(seat.is_open, is_open);
    }

    /// The same, with the other's notes.
    pub(crate) fn join_all(&self, seat: &mut RoundSeat, other: RoundSeat) -> Result<(), Memory>
        requires own { (seat.old.board ≡ self.now.board) × (other.board ≡ self.now.board) }
        requires whole { (seat.old.is_whole ≡ true) × (other.is_whole ≡ true) }
        ensures { OnOk result (seat.new ≡ record seat.old { is_open = seat.old.is_open && other.is_open; room = seat.old.room + (other.room + 1); claims = seat.old.claims ++ other.claims }) }
    {
        let RoundSeat {
            seat: part,
            is_open,
            notes,
        } = other;
        self.table
            .shared
            .join_seat::<RoundMerge>(&mut seat.seat, part);
        seat.is_open = both(seat.is_open, is_open);
        seat.notes.extend_from_slice(notes.as_slice())?;
        Ok(())
    }
}
