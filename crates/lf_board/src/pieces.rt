//! Pieces of work, and their values in the order of their numbers.
ghost use Rattle.std.specs.Prelude.{◌≡◌, All, IfOk, length, map, reverse};
ghost use Rattle.lf_board.specs.Numbers.{AreNumbersBelow};
ghost use Rattle.lf_board.specs.Pieces.{numbers_of, StandsAt};

use lf_base::{Memory, Seq};
use std::alloc::Global;

/// The number of a piece, and the value that the work on it gave.
#[derive(Drop)]
pub struct Piece<T> {
    pub number: u32,
    pub value: T,
}

/// The values in the order of the numbers, which are those below the length, each once, in any order.
pub fn gather<T: Drop>(alloc: Global, pieces: Seq<Piece<T>>) -> Result<Seq<T>, Memory>
    requires { AreNumbersBelow (length pieces) (numbers_of pieces) }
    ensures len { IfOk result (λ values. length values ≡ length pieces) }
    ensures each { IfOk result (λ values. All (StandsAt values) pieces) }
{
    let taken = taken_out(alloc, pieces)?;
    in_order(alloc, taken)
}

/// The pieces, the last one first.
fn taken_out<T: Drop>(alloc: Global, mut pieces: Seq<Piece<T>>) -> Result<Vec<Piece<T>>, Memory>
    ensures { IfOk result (λ taken. taken.items ≡ reverse pieces) }
{
    let mut taken = Vec::with_capacity(alloc, pieces.len())?;
    while let Some(piece) = pieces.pop() {
        taken.push(piece)?;
    }
    Ok(taken)
}

/// What [`gather`] gives, of pieces in a `Vec`.
pub(crate) fn in_order<T: Drop>(alloc: Global, mut pieces: Vec<Piece<T>>) -> Result<Seq<T>, Memory>
    requires { AreNumbersBelow (length pieces.items) (numbers_of pieces.items) }
    ensures len { IfOk result (λ values. length values ≡ length pieces.items) }
    ensures each { IfOk result (λ values. All (StandsAt values) pieces.items) }
{
    pieces.sort_unstable_by_key(|piece| piece.number);
    let values = values_of(alloc, pieces)?;
    Ok(Seq::from_vec(values))
}

/// The values of pieces, in their order.
fn values_of<T: Drop>(alloc: Global, pieces: Vec<Piece<T>>) -> Result<Vec<T>, Memory>
    ensures { IfOk result (λ values. values.items ≡ map (λ p. p.value) pieces.items) }
{
    let values = pieces.into_iter().map(|piece| piece.value).collect(alloc)?;
    Ok(values)
}
