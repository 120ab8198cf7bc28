//! The rule that the claim word, the row words and the seats of a round keep, and what its five kinds of step do.
ghost use Rattle.lf_rounds.specs.Rounds.{Kept, both_of, claimed, finished, left_of, loaded, opening_view, raised, right_of, spent_view};

use crate::table_words::TableWords;
use atomic_table::{Join, Play, Split, TableRule};
use lf_ast::Rule;
use lf_base::Seq;
use lf_board::rule::{Counts, Cutting, View};
use lf_classes::Universe;
use std::collections::LinkedList;
use std::marker::PhantomData;
use std::snapshot::Snapshot;

/// What a round is over, from the start to the end.
#[derive(Drop)]
pub struct About {
    pub counts: Counts,
    pub universe: Snapshot<Universe>,
    pub rules: Snapshot<Seq<Rule>>,
    pub reads: Snapshot<Seq<Seq<u32>>>,
    pub pieces: Snapshot<Seq<u32>>,
    pub start: Snapshot<TableWords>,
}

/// A load that was noted: where the word stands among the row words, and what was found there.
pub struct Load {
    pub place: u64,
    pub word: u64,
}

/// A piece that is done, and the loads that were noted for it, the newest first.
pub struct Done {
    pub piece: u32,
    pub loads: LinkedList<Load>,
}

/// What is kept of a piece that is done, and isn't only spoken of: the sum of the words that were loaded for it.
#[derive(Clone, Copy)]
pub struct Loaded {
    pub piece: u32,
    pub sum: u128,
}

/// What a seat knows: what it knows of claims, the pieces that it has done, whether a piece is in work, and then which, the loads noted for it and how many words of its
/// row were raised; and whether an or of the seat changed a word. Contracts alone speak of it: no value of it is ever made.
pub struct RoundView {
    pub board: View,
    pub done: LinkedList<Done>,
    pub busy: bool,
    pub piece: u32,
    pub loads: LinkedList<Load>,
    pub raised: u64,
    pub changed: bool,
}

/// Rows rise from those at the start towards the least environment.
pub struct Rising;

impl TableRule<(), RoundView, About> for Rising {
    ghost holds = { Kept };

    ghost first = { opening_view };
}

/// A claim raises the claim word by one.
pub struct RoundClaim;

impl Play<(), RoundView> for RoundClaim {
    ghost then = { claimed };
}

/// A load of a row word is noted for the piece in work.
pub struct Note;

impl Play<(), RoundView> for Note {
    ghost then = { loaded };
}

/// An or of a row word raises the next word of the row of the piece in work.
pub struct Raise;

impl Play<(), RoundView> for Raise {
    ghost then = { raised };
}

/// The last one ends the work on the piece.
pub struct Finish;

impl Play<(), RoundView> for Finish {
    ghost then = { finished };
}

/// A split takes a new seat with this room out of a seat.
pub struct RoundCut<C> {
    cutting: PhantomData<C>,
}

impl<C: Cutting> Split<RoundView> for RoundCut<C> {
    ghost left = { left_of C.room };

    ghost right = { right_of C.room };
}

/// A join gives one seat all that the other has.
pub struct RoundMerge;

impl Join<RoundView> for RoundMerge {
    ghost both = { both_of };

    ghost spent = { spent_view };
}
