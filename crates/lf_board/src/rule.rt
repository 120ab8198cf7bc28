//! The rule that the claim word and the seats of a board keep, and what its three kinds of step do.
ghost use Rattle.std.specs.Prelude.{ℕ};
ghost use Rattle.lf_board.specs.Claims.{Kept, opening_view, claimed, left_of, right_of, both_of, spent_view};

use atomic_table::{Join, Play, Split, TableRule};
use std::collections::LinkedList;
use std::marker::{Brand, PhantomData};

/// How many pieces and seats a board has, from the start to the end.
#[derive(Clone, Copy)]
pub struct Counts {
    pub pieces: u32,
    pub seats: u32,
}

/// What a seat knows: the counts of its board, its share of the seats, which is its room and itself, or 0 once it was joined to another, how many of its claims found
/// nothing, and the pieces that it claimed. Contracts alone speak of it: no value of it is ever made, so a claim takes no memory.
pub struct View {
    pub pieces: u64,
    pub seats: u64,
    pub share: u64,
    pub missed: u64,
    pub claims: LinkedList<u32>,
}

/// Each number is given once.
pub struct OnceEach;

impl TableRule<(), View, Counts> for OnceEach {
    ghost holds = { Kept };

    ghost first = { opening_view };
}

/// A claim raises the claim word by one.
pub struct Claim;

impl Play<(), View> for Claim {
    ghost then = { claimed };
}

/// A room that is known only when the program runs.
pub trait Cutting {
    ghost room: { ℕ };
}

impl Cutting for Brand {
    ghost room = { 0 };
}

/// A split takes a new seat with this room out of a seat.
pub struct Cut<C> {
    cutting: PhantomData<C>,
}

impl<C: Cutting> Split<View> for Cut<C> {
    ghost left = { left_of C.room };

    ghost right = { right_of C.room };
}

/// A join gives one seat all that the other has.
pub struct Merge;

impl Join<View> for Merge {
    ghost both = { both_of };

    ghost spent = { spent_view };
}
