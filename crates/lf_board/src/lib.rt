//! Numbered pieces of work for many workers: a board gives each number once, the values of the pieces are put in their order, and a map over the numbers answers the same
//! for every number of workers.
#![tactic(auto)]

mod board;
mod pieces;
mod room;
pub mod rule;
mod workers;

pub use board::{Board, BoardSeat};
pub use pieces::{Piece, gather};
pub use workers::map_pieces;
