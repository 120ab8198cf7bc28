//! A board of pieces and its seats.
ghost use Rattle.std.specs.Prelude.{◌≡◌, true, false, ◌&&◌, ◌+◌, ◌-◌, ◌<◌, ◌≤◌, [], ◌∷◌, ◌++◌, length, IfOk, IfSome, MatchOption};
ghost use Rattle.lf_board.specs.Numbers.{AreNumbersBelow, times};
ghost use Rattle.lf_board.specs.Seats.{BoardFacts, SeatFacts};

use crate::rule::{Claim, Counts, Cut, Cutting, Merge, OnceEach, View};
use atomic_table::{Seat, Table};
use lf_base::Memory;
use std::alloc::Global;
use std::marker::{Brand, Model};

/// Gives the numbers of pieces, counted from 0, each once, to the seats that claim them. Any number of threads may share it.
#[derive(Drop)]
pub struct Board {
    table: Table<(), View, Counts, OnceEach, Global>,
    pieces: u32,
}

impl Model for Board {
    ghost use Rattle.std.specs.Prelude.{◌≡◌, ◌^◌, ◌<◌, ◌≤◌};
    ghost use Rattle.lf_board.specs.Seats.{BoardFacts};

    ghost Value = { BoardFacts };

    ghost view = { λ b. record { table = b.table.shared.table_id; pieces = b.pieces; seats = b.table.shared.key.seats } };

    ghost invariant = { λ b. (b.table.shared.key.pieces ≡ b.pieces) × (b.table.shared.table_id.words ≡ 1) × (b.table.shared.table_id.slots ≡ 0) × (b.pieces < 2 ^ 32) × (b.table.shared.key.seats ≤ 64) };
}

/// A place at a board, with which one worker claims pieces.
#[derive(Drop)]
pub struct BoardSeat {
    seat: Seat<(), View>,
    is_open: bool,
}

impl Model for BoardSeat {
    ghost use Rattle.std.specs.Prelude.{◌≡◌, ◌-◌, ◌<◌, [], ◌==◌};
    ghost use Rattle.lf_board.specs.Seats.{SeatFacts};

    ghost Value = { SeatFacts };

    ghost view = { λ s. record { board = record { table = s.seat.table_id; pieces = s.seat.me.0.pieces; seats = s.seat.me.0.seats }; is_open = s.is_open; room = s.seat.me.0.share - 1; claims = s.seat.me.0.claims } };

    ghost invariant = { λ s. (0 < s.seat.me.0.share) × (s.seat.me.1 ≡ []) × (s.is_open ≡ (s.seat.me.0.missed == 0)) };
}

impl Board {
    /// A board of so many pieces and seats, 1 to 64, and its first seat, from which the others are split off.
    pub fn new(alloc: Global, pieces: u32, seats: u32) -> Result<(Board, BoardSeat), Memory>
        requires { (0 < seats) × (seats ≤ 64) }
        ensures board { IfOk result (λ made. (made.0.pieces ≡ pieces) × (made.0.seats ≡ seats)) }
        ensures seat { IfOk result (λ made. made.1 ≡ record { board = made.0; is_open = true; room = seats - 1; claims = [] }) }
    {
        let counts = Counts { pieces, seats };
        let (table, seat) = Table::of_words(alloc, &[0], &counts)?;
        let board = Board { table, pieces };
        Ok((
            board,
            BoardSeat {
                seat,
                is_open: true,
            },
        ))
    }

    /// Whether each claim of the seat got a piece.
    pub fn is_open(seat: &BoardSeat) -> bool
        ensures { result ≡ seat.now.is_open }
    {
        seat.is_open
    }

    /// A new seat with this room, which is taken from the room of an open seat.
    pub fn split(&self, seat: &mut BoardSeat, room: u32) -> BoardSeat
        requires own { seat.old.board ≡ self.now }
        requires open { seat.old.is_open ≡ true }
        requires room { room < seat.old.room }
        ensures kept { seat.new ≡ record seat.old { room = seat.old.room - (room + 1) } }
        ensures given { result ≡ record { board = self.now; is_open = true; room = room; claims = [] } }
    {
        self.cut::<Brand>(seat, room)
    }

    /// Splits a seat off at a room that the type names.
    fn cut<C: Cutting>(&self, seat: &mut BoardSeat, room: u32) -> BoardSeat
        requires picked { room ≡ C.room }
        requires own { seat.old.board ≡ self.now }
        requires open { seat.old.is_open ≡ true }
        requires room { room < seat.old.room }
        ensures kept { seat.new ≡ record seat.old { room = seat.old.room - (room + 1) } }
        ensures given { result ≡ record { board = self.now; is_open = true; room = room; claims = [] } }
    {
        let part = self.table.shared.split_seat::<Cut<C>>(&mut seat.seat);
        BoardSeat {
            seat: part,
            is_open: true,
        }
    }

    /// The number of a piece that no other claim gets, behind the claims of the seat. None where no piece is left, which closes the seat.
    pub fn claim(&self, seat: &mut BoardSeat) -> Option<u32>
        requires own { seat.old.board ≡ self.now }
        requires open { seat.old.is_open ≡ true }
        ensures number { MatchOption result (seat.new ≡ record seat.old { is_open = false }) (λ n. (n < self.now.pieces) × (seat.new ≡ record seat.old { claims = seat.old.claims ++ n ∷ [] })) }
        ensures new { IfSome result (λ n. times n seat.old.claims ≡ 0) }
        ensures left { IfSome result (λ n. length seat.old.claims < self.now.pieces) }
    {
        let found = self.table.shared.fetch_add::<Claim>(&mut seat.seat, 0, 1);
        if found < u64::from(self.pieces) {
            Some(found as u32)
        } else {
            seat.is_open = false;
            None
        }
    }

    /// Gives this seat the other's claims, behind its own, and its room and place. It stays open where both are.
    pub fn join(&self, seat: &mut BoardSeat, other: BoardSeat)
        requires own { (seat.old.board ≡ self.now) × (other.board ≡ self.now) }
        ensures { seat.new ≡ record seat.old { is_open = seat.old.is_open && other.is_open; room = seat.old.room + (other.room + 1); claims = seat.old.claims ++ other.claims } }
    {
        let BoardSeat {
            seat: part,
            is_open,
        } = other;
        self.table.shared.join_seat::<Merge>(&mut seat.seat, part);
        seat.is_open = seat.is_open && is_open;
    }

    /// Ends the board with the only seat that is left. Where a claim found nothing, the claims are the numbers of all pieces, each once.
    pub fn close(self, seat: BoardSeat)
        requires own { seat.board ≡ self }
        requires last { seat.room ≡ self.seats - 1 }
        ensures { seat.is_open ≡ false → AreNumbersBelow self.pieces seat.claims }
    {
        let Board { table, pieces: _ } = self;
        let BoardSeat { seat, is_open: _ } = seat;
        table.close_with(seat).free();
    }
}
