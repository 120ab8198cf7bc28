//! What no contract says: that pieces are given where there is memory, that workers run beside one another, and that want of memory in one piece is that of the whole.
ghost use Rattle.std.specs.Prelude.{◌<◌, ◌≤◌};

use lf_base::{Gate, Memory, OpenGate, Seq};
use lf_board::{Board, Piece, gather, map_pieces};
use std::alloc::Global;
use std::sync::atomic::AtomicU64;
use std::sync::atomic::Ordering::SeqCst;
use std::test::Fail;
use std::thread::Threads;

#[test]
fn a_board_gives_each_piece_and_then_none(rt: HostRuntime) -> Result<(), Fail> {
    let (board, mut seat) = Board::new(rt.alloc(), 2, 1)?;
    let Some(first) = board.claim(&mut seat) else {
        panic!(rt; "no first piece")
    };
    let Some(second) = board.claim(&mut seat) else {
        panic!(rt; "no second piece")
    };
    assert_eq!(rt; first, 0);
    assert_eq!(rt; second, 1);
    assert!(rt; Board::is_open(&seat));
    assert_eq!(rt; board.claim(&mut seat), None);
    assert!(rt; !Board::is_open(&seat));
    board.close(seat);
    Ok(())
}

#[test]
fn values_come_in_the_order_of_their_numbers(rt: HostRuntime) -> Result<(), Fail> {
    let mut pieces = Seq::new(rt.alloc());
    pieces.push(Piece {
        number: 1,
        value: b'b',
    })?;
    pieces.push(Piece {
        number: 0,
        value: b'a',
    })?;
    let values = gather(rt.alloc(), pieces)?;
    assert_eq!(rt; values.as_slice(), [b'a', b'b'].as_slice());
    Ok(())
}

/// The squares of 0, 1 and 2.
fn squares<R: Threads + Sync, G: Gate + Sync>(
    rt: &R,
    alloc: Global,
    workers: u32,
    gate: &G,
) -> Result<Seq<u64>, Memory>
    requires { (0 < workers) × (workers ≤ 64) }
{
    let work = |number: u32| -> Result<u64, Memory> { Ok(u64::from(number) * u64::from(number)) };
    map_pieces(rt, alloc, 3, workers, gate, 0, &work)
}

#[test]
fn any_number_of_workers_makes_the_same_map(rt: HostRuntime) -> Result<(), Fail> {
    let one = squares(&rt, rt.alloc(), 1, &OpenGate)?;
    let two = squares(&rt, rt.alloc(), 2, &OpenGate)?;
    let seven = squares(&rt, rt.alloc(), 7, &OpenGate)?;
    let many = squares(&rt, rt.alloc(), 64, &OpenGate)?;
    assert_eq!(rt; one.as_slice(), [0, 1, 4].as_slice());
    assert_eq!(rt; two.as_slice(), one.as_slice());
    assert_eq!(rt; seven.as_slice(), one.as_slice());
    assert_eq!(rt; many.as_slice(), one.as_slice());
    Ok(())
}

/// Holds up the workers of the first two pieces until both have come, or for so many turns.
#[derive(Drop)]
struct Meeting {
    came: AtomicU64,
    gave_up: AtomicU64,
}

impl Gate for Meeting {
    fn pass(&self, _phase: u8, piece: u32) {
        if piece < 2 {
            self.came.fetch_add(1, SeqCst);
            for _ in 0..100_000_000_u64 {
                if self.came.load(SeqCst) >= 2 {
                    return;
                }
            }
            self.gave_up.store(1, SeqCst);
        }
    }
}

#[test]
fn two_workers_meet_at_the_gate(rt: HostRuntime) -> Result<(), Fail> {
    let gate = Meeting {
        came: AtomicU64::new(0),
        gave_up: AtomicU64::new(0),
    };
    let values = squares(&rt, rt.alloc(), 2, &gate)?;
    assert_eq!(rt; values.as_slice(), [0, 1, 4].as_slice());
    assert_eq!(rt; gate.gave_up.load(SeqCst), 0);
    Ok(())
}

#[test]
fn want_of_memory_in_one_piece_is_that_of_all(rt: HostRuntime) -> Result<(), Fail> {
    let work = |number: u32| -> Result<u32, Memory> {
        if number == 1 { Err(Memory) } else { Ok(number) }
    };
    assert!(rt; map_pieces(&rt, rt.alloc(), 3, 2, &OpenGate, 0, &work).is_err());
    Ok(())
}
