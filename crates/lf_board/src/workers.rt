//! Workers that claim the pieces of a board, and the map that they make.
ghost use Rattle.std.specs.Prelude.{◌≡◌, ℕ, ◌<◌, ◌≤◌, IfOk, Ok, map};
ghost use Rattle.std.specs.List.{range_with_len};
ghost use Rattle.std.specs.Thread.{IsSync, IsSend};
ghost use Rattle.lf_board.specs.Pieces.{MayWork, IsMapOf};
ghost use Rattle.lf_board.specs.views.Workers.{IsFresh, HasRoomFor, IsDone};

use crate::board::{Board, BoardSeat};
use crate::pieces::{Piece, in_order};
use crate::room::make_room;
use lf_base::{Gate, Memory, Seq};
use std::alloc::Global;
use std::thread::{Threads, join};

/// What the work gives at each number below the count of pieces, in the order of the numbers, for 1 to 64 workers and whoever of them did it and when. Between the claim
/// of a piece and the work on it a worker passes the gate.
pub fn map_pieces<
    R: Threads + Sync,
    T: Drop + Send,
    G: Gate + Sync,
    F: Fn(u32) -> Result<T, Memory> + Sync,
>(
    rt: &R,
    alloc: Global,
    pieces: u32,
    workers: u32,
    gate: &G,
    phase: u8,
    work: &F,
) -> Result<Seq<T>, Memory>
    requires workers { (0 < workers) × (workers ≤ 64) }
    requires work { MayWork F.Fn work.now pieces }
    ensures each { IfOk result (λ values. IsMapOf F.Fn work.now pieces values) }
    ensures plain { (f : ℕ → T) → ((n : ℕ) (value : T) → n < pieces → F.Fn.post work.now (n, tt) (Ok value) → value ≡ f n) → IfOk result (λ values. values ≡ map f (range_with_len 0 pieces)) }
{
    let pass_and_work = |number: u32| -> Result<T, Memory>
        requires { F.pre work.now number }
        ensures { IfOk result (λ value. F.Fn.post work.entry.now (number, tt) (Ok value)) }
    {
        gate.pass(phase, number);
        work(number)
    };
    let (board, seat) = Board::new(alloc, pieces, workers)?;
    let done = run(rt, alloc, &board, seat, workers, &pass_and_work)?;
    board.close(done.seat);
    in_order(alloc, done.pieces)
}

/// The seat of workers that found nothing more to claim, and the pieces that they claimed.
#[derive(Drop)]
struct DonePieces<T> {
    seat: BoardSeat,
    pieces: Vec<Piece<T>>,
}

/// Halves the workers until each has a thread of its own, where one can be made. Seats are joined after their workers.
#[cycle(workers)]
fn run<R: Threads + Sync, T: Drop + Send, F: Fn(u32) -> Result<T, Memory> + Sync>(
    rt: &R,
    alloc: Global,
    board: &Board,
    mut seat: BoardSeat,
    workers: u32,
    work: &F,
) -> Result<DonePieces<T>, Memory>
    requires fresh { IsFresh board.now seat }
    requires workers { HasRoomFor workers seat.room }
    requires work { MayWork F.Fn work.now board.now.pieces }
    ensures { IfOk result (λ done. IsDone F.Fn work.now seat done) }
{
    if workers == 1 {
        return claim_all(alloc, board, seat, work);
    }
    let low = workers / 2;
    let high = workers - low;
    let theirs = board.split(&mut seat, low - 1);
    let front = move || -> Result<DonePieces<T>, Memory>
        requires threads { IsSync R.row × IsSync F.row × IsSend T.row }
        requires run { IsFresh board.now theirs × HasRoomFor low theirs.room × MayWork F.Fn work.now board.now.pieces }
        ensures { IfOk result (λ done. IsDone F.Fn work.entry.now theirs done) }
    { run(rt, alloc, board, theirs, low, work) };
    let back = move || -> Result<DonePieces<T>, Memory>
        requires threads { IsSync R.row × IsSync F.row × IsSend T.row }
        requires run { IsFresh board.now seat × HasRoomFor high seat.room × MayWork F.Fn work.now board.now.pieces }
        ensures { IfOk result (λ done. IsDone F.Fn work.entry.now seat done) }
    { run(rt, alloc, board, seat, high, work) };
    let (front, back) = join(rt, front, back);
    let other = front?;
    let mut done = back?;
    let DonePieces { seat, mut pieces } = other;
    board.join(&mut done.seat, seat);
    done.pieces.append(&mut pieces)?;
    Ok(done)
}

/// Claims until nothing is left, and works on each piece.
fn claim_all<T: Drop, F: Fn(u32) -> Result<T, Memory>>(
    alloc: Global,
    board: &Board,
    mut seat: BoardSeat,
    work: &F,
) -> Result<DonePieces<T>, Memory>
    requires fresh { IsFresh board.now seat }
    requires work { MayWork F.Fn work.now board.now.pieces }
    ensures { IfOk result (λ done. IsDone F.Fn work.now seat done) }
{
    make_room(alloc);
    let mut pieces = Vec::new(alloc);
    while let Some(number) = board.claim(&mut seat) {
        let value = work(number)?;
        pieces.push(Piece { number, value })?;
    }
    Ok(DonePieces { seat, pieces })
}
