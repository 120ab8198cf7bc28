//! Work on the pieces of a round.
ghost use Rattle.std.specs.Prelude.{◌≡◌, ℕ, true, false, ◌+◌, ◌*◌, ◌<◌, ◌++◌, List, [], ◌∷◌, length, sum, IfErr, IfOk, Some, take, drop};
ghost use Rattle.std.specs.List.{Contains};
ghost use Rattle.lf_ast.specs.Rules.{RuleTree, rule_tree, rule_trees};
ghost use Rattle.lf_laws.specs.Ascending.{AreAscending};
ghost use Rattle.lf_semantics.specs.ClassRows.{HasShape};
ghost use Rattle.lf_semantics.specs.Environments.{IsEnvironmentOf, recorded_row};
ghost use Rattle.lf_semantics.specs.Listing.{place};
ghost use Rattle.lf_rounds.specs.Facts.{task};
ghost use Rattle.lf_rounds.specs.Rounds.{IsSummed};
ghost use Rattle.lf_rounds.specs.Sums.{sum_of_loads, sum_of_rows};
ghost use Rattle.lf_rounds.specs.Tasks.{names, read_by, rule_of, stands_for, width};
ghost use Rattle.lf_rounds.specs.views.Noting.{AreNoted, DidMore, IsNoted};
ghost use Rattle.lf_rounds.specs.views.Working.{Begins, ChangedAt, HasRead, HasRoom, HasWorked, IsAsBefore, IsStored, IsUsed, seen};

use super::rows::{RowRoom, take_row};
use super::{Round, RoundSeat};
use crate::rule::{Loaded, RoundView};
use crate::sums::with_words;
use atomic_table::Seat;
use lf_ast::Rule;
use lf_base::{Gate, Memory, Seq};
use lf_classes::{Row, Universe};
use lf_fix::recorded_row;
use lf_flow::Env;
use std::alloc::Global;

/// The phase of the rounds, which the gate is told.
const ROUNDS: u8 = 1;

impl Round {
    /// Claims until nothing is left, and works on each piece: it loads the rows that the rule reads, and raises the words of the row that the rule stores over them. Between
    /// the claim of a piece and the work on it passes the gate.
    ///
    /// After want of memory a piece is left in work, and no call takes the seat any more.
    pub fn work<G: Gate>(
        &self,
        alloc: Global,
        seat: &mut RoundSeat,
        universe: &Universe,
        rules: &Seq<Rule>,
        gate: &G,
    ) -> Result<(), Memory>
        requires own { seat.old.board ≡ self.now.board }
        requires open { (seat.old.is_open ≡ true) × (seat.old.is_whole ≡ true) }
        requires over { (universe.now ≡ self.now.universe) × (rules.now ≡ self.now.rules) }
        ensures worked { IfOk result (λ _. (claims : List ℕ) × (seat.new ≡ record seat.old { is_open = false; claims = seat.old.claims ++ claims })) }
        ensures memory { IfErr result (λ _. seat.new.is_whole ≡ false) }
    {
        self.work_all(
            alloc,
            &mut seat.seat,
            &mut seat.notes,
            universe,
            rules,
            gate,
        )?;
        seat.is_open = false;
        Ok(())
    }

    /// The same, in an environment of the rules that is at hand.
    pub(crate) fn work_in<G: Gate>(
        &self,
        alloc: Global,
        seat: &mut RoundSeat,
        universe: &Universe,
        rules: &Seq<Rule>,
        env: &mut Env,
        gate: &G,
    ) -> Result<(), Memory>
        requires own { seat.old.board ≡ self.now.board }
        requires open { (seat.old.is_open ≡ true) × (seat.old.is_whole ≡ true) }
        requires over { (universe.now ≡ self.now.universe) × (rules.now ≡ self.now.rules) }
        requires env { IsEnvironmentOf self.now.universe (rule_trees self.now.rules) env.old }
        ensures worked { IfOk result (λ _. (claims : List ℕ) × (seat.new ≡ record seat.old { is_open = false; claims = seat.old.claims ++ claims })) }
        ensures env { IfOk result (λ _. IsEnvironmentOf self.now.universe (rule_trees self.now.rules) env.new) }
    {
        let RoundSeat {
            seat: own,
            notes,
            ..
        } = seat;
        self.work_all_in(alloc, own, notes, universe, rules, env, gate)?;
        seat.is_open = false;
        Ok(())
    }

    /// Claims until nothing is left, and works on each piece.
    fn work_all<G: Gate>(
        &self,
        alloc: Global,
        seat: &mut Seat<(), RoundView>,
        notes: &mut Vec<Loaded>,
        universe: &Universe,
        rules: &Seq<Rule>,
        gate: &G,
    ) -> Result<(), Memory>
        requires used { IsUsed self.now seat.old.table_id seat.old.me }
        requires open { (seat.old.me.0.busy ≡ false) × (seat.old.me.0.board.missed ≡ 0) }
        requires over { (universe.now ≡ self.now.universe) × (rules.now ≡ self.now.rules) }
        requires noted { AreNoted seat.old.me.0.done notes.old.items }
        ensures used { IsUsed self.now seat.new.table_id seat.new.me }
        ensures worked { IfOk result (λ _. HasWorked seat.old.me.0 seat.new.me.0) }
        ensures memory { IfErr result (λ _. (seat.new.me.0.busy ≡ true) × (seat.new.me.0.board.missed ≡ 0)) }
        ensures noted { AreNoted seat.new.me.0.done notes.new.items }
    {
        match self.claim(seat) {
            Some(piece) => self.work_anew(alloc, seat, notes, universe, rules, gate, piece),
            None => Ok(()),
        }
    }

    /// The same, in an environment that is at hand.
    fn work_all_in<G: Gate>(
        &self,
        alloc: Global,
        seat: &mut Seat<(), RoundView>,
        notes: &mut Vec<Loaded>,
        universe: &Universe,
        rules: &Seq<Rule>,
        env: &mut Env,
        gate: &G,
    ) -> Result<(), Memory>
        requires used { IsUsed self.now seat.old.table_id seat.old.me }
        requires open { (seat.old.me.0.busy ≡ false) × (seat.old.me.0.board.missed ≡ 0) }
        requires over { (universe.now ≡ self.now.universe) × (rules.now ≡ self.now.rules) }
        requires noted { AreNoted seat.old.me.0.done notes.old.items }
        requires env { IsEnvironmentOf self.now.universe (rule_trees self.now.rules) env.old }
        ensures used { IsUsed self.now seat.new.table_id seat.new.me }
        ensures worked { IfOk result (λ _. HasWorked seat.old.me.0 seat.new.me.0) }
        ensures memory { IfErr result (λ _. (seat.new.me.0.busy ≡ true) × (seat.new.me.0.board.missed ≡ 0)) }
        ensures noted { AreNoted seat.new.me.0.done notes.new.items }
        ensures env { IfOk result (λ _. IsEnvironmentOf self.now.universe (rule_trees self.now.rules) env.new) }
    {
        match self.claim(seat) {
            Some(piece) => {
                self.work_on_from(alloc, seat, notes, universe, rules, env, gate, piece)
            }
            None => Ok(()),
        }
    }

    /// Works on a piece that was claimed, and on each that it claims, in an environment of its own.
    fn work_anew<G: Gate>(
        &self,
        alloc: Global,
        seat: &mut Seat<(), RoundView>,
        notes: &mut Vec<Loaded>,
        universe: &Universe,
        rules: &Seq<Rule>,
        gate: &G,
        first: u32,
    ) -> Result<(), Memory>
        requires used { IsUsed self.now seat.old.table_id seat.old.me }
        requires begins { Begins first seat.old.me.0 }
        requires piece { first < self.now.board.pieces }
        requires over { (universe.now ≡ self.now.universe) × (rules.now ≡ self.now.rules) }
        requires noted { AreNoted seat.old.me.0.done notes.old.items }
        ensures used { IsUsed self.now seat.new.table_id seat.new.me }
        ensures worked { IfOk result (λ _. HasWorked seat.old.me.0 seat.new.me.0) }
        ensures memory { IfErr result (λ _. (seat.new.me.0.busy ≡ true) × (seat.new.me.0.board.missed ≡ 0)) }
        ensures noted { AreNoted seat.new.me.0.done notes.new.items }
    {
        // For what is known of a round.
        let _width = self.width;
        let mut env = Env::bottom(alloc, universe, rules)?;
        self.work_on_from(alloc, seat, notes, universe, rules, &mut env, gate, first)
    }

    /// Works on a piece that was claimed, and on each that it claims. A note that finds no memory is left out: its rule counts as due again.
    fn work_on_from<G: Gate>(
        &self,
        alloc: Global,
        seat: &mut Seat<(), RoundView>,
        notes: &mut Vec<Loaded>,
        universe: &Universe,
        rules: &Seq<Rule>,
        env: &mut Env,
        gate: &G,
        first: u32,
    ) -> Result<(), Memory>
        requires used { IsUsed self.now seat.old.table_id seat.old.me }
        requires begins { Begins first seat.old.me.0 }
        requires piece { first < self.now.board.pieces }
        requires over { (universe.now ≡ self.now.universe) × (rules.now ≡ self.now.rules) }
        requires noted { AreNoted seat.old.me.0.done notes.old.items }
        requires env { IsEnvironmentOf self.now.universe (rule_trees self.now.rules) env.old }
        ensures used { IsUsed self.now seat.new.table_id seat.new.me }
        ensures worked { IfOk result (λ _. HasWorked seat.old.me.0 seat.new.me.0) }
        ensures memory { IfErr result (λ _. (seat.new.me.0.busy ≡ true) × (seat.new.me.0.board.missed ≡ 0)) }
        ensures noted { AreNoted seat.new.me.0.done notes.new.items }
        ensures env { IfOk result (λ _. IsEnvironmentOf self.now.universe (rule_trees self.now.rules) env.new) }
    {
        // For what is known of a round.
        let _width = self.width;
        let mut room = RowRoom::of(alloc, self.width)?;
        let mut next = Some(first);
        while let Some(piece) = next {
            gate.pass(ROUNDS, piece);
            let note = self.work_on(alloc, seat, universe, rules, env, &mut room, piece)?;
            let _ = notes.push(note);
            next = self.claim(seat);
        }
        Ok(())
    }

    /// Works on a piece, and notes what was loaded. The row that was computed is kept for its name in the environment: mostly nothing else raises it, and it is the one whose
    /// words are loaded for the rules that read it.
    fn work_on(
        &self,
        alloc: Global,
        seat: &mut Seat<(), RoundView>,
        universe: &Universe,
        rules: &Seq<Rule>,
        env: &mut Env,
        room: &mut RowRoom,
        piece: u32,
    ) -> Result<Loaded, Memory>
        requires used { IsUsed self.now seat.old.table_id seat.old.me }
        requires begins { Begins piece seat.old.me.0 }
        requires piece { piece < self.now.board.pieces }
        requires over { (universe.now ≡ self.now.universe) × (rules.now ≡ self.now.rules) }
        requires env { IsEnvironmentOf self.now.universe (rule_trees self.now.rules) env.old }
        requires room { HasRoom (width (task self.now)) room.old }
        ensures room { HasRoom (width (task self.now)) room.new }
        ensures used { IsUsed self.now seat.new.table_id seat.new.me }
        ensures env { IfOk result (λ _. IsEnvironmentOf self.now.universe (rule_trees self.now.rules) env.new) }
        ensures board { seat.new.me.0.board ≡ seat.old.me.0.board }
        ensures did { DidMore seat.old.me.0 seat.new.me.0 }
        ensures done { IfOk result (λ _. seat.new.me.0.busy ≡ false) }
        ensures noted { IfOk result (IsNoted seat.new.me.0.done) }
        ensures memory { IfErr result (λ _. seat.new.me.0.busy ≡ true) }
    {
        // For what is known of a round.
        let _width = self.width;
        let rule = self.rule_of(rules, piece);
        let sum = self.load_read(alloc, seat, universe, env, room, rule, piece)?;
        let row = recorded_row(alloc, universe, env, rule)?;
        let name = self.recorded_by(piece);
        self.raise_row(seat, name, &row, &mut room.own);
        env.put(name, row);
        Ok(Loaded { piece, sum })
    }

    /// The rule of a piece.
    fn rule_of<'a>(&self, rules: &'a Seq<Rule>, piece: u32) -> &'a Rule
        requires over { rules.now ≡ self.now.rules }
        requires piece { piece < self.now.board.pieces }
        ensures rule { rule_of (task self.now) piece ≡ Some (rule_tree result.now) }
        ensures name { place (names (task self.now)) result.now.name < length (names (task self.now)) }
    {
        let number = *self.pieces.get(piece as usize);
        rules.get(number as usize)
    }

    /// The number of the name that the rule of a piece records.
    fn recorded_by(&self, piece: u32) -> u32
        requires { piece < self.now.board.pieces }
        ensures { (r : RuleTree) → rule_of (task self.now) piece ≡ Some r → result ≡ place (names (task self.now)) r.name }
    {
        let number = *self.pieces.get(piece as usize);
        *self.known.names.get(number as usize)
    }

    /// The numbers of the names that the rule of a piece reads.
    fn read_by(&self, piece: u32) -> &Seq<u32>
        requires { piece < self.now.board.pieces }
        ensures { result.now ≡ read_by (task self.now) piece }
    {
        let number = *self.pieces.get(piece as usize);
        self.known.reads.get(number as usize)
    }

    /// Loads the rows that the rule of a piece reads, and sums up their words. What the rule stores over the environment is what it stores over that for which the words stand
    /// that are noted.
    fn load_read(
        &self,
        alloc: Global,
        seat: &mut Seat<(), RoundView>,
        universe: &Universe,
        env: &mut Env,
        room: &mut RowRoom,
        rule: &Rule,
        piece: u32,
    ) -> Result<u128, Memory>
        requires used { IsUsed self.now seat.old.table_id seat.old.me }
        requires work { (seat.old.me.0.busy ≡ true) × (seat.old.me.0.raised ≡ 0) }
        requires over { universe.now ≡ self.now.universe }
        requires env { IsEnvironmentOf self.now.universe (rule_trees self.now.rules) env.old }
        requires piece { piece < self.now.board.pieces }
        requires rule { rule_of (task self.now) piece ≡ Some (rule_tree rule.now) }
        requires room { HasRoom (width (task self.now)) room.old }
        ensures room { HasRoom (width (task self.now)) room.new }
        ensures used { IsUsed self.now seat.new.table_id seat.new.me }
        ensures same { IsAsBefore seat.old.me.0 seat.new.me.0 }
        ensures env { IfOk result (λ _. IsEnvironmentOf self.now.universe (rule_trees self.now.rules) env.new) }
        ensures read { IfOk result (λ _. recorded_row self.now.universe env.new (rule_tree rule.now) ≡ recorded_row self.now.universe (stands_for (task self.now) (seen self.now seat.new.me)) (rule_tree rule.now)) }
        ensures loads { IfOk result (λ sum. sum_of_loads seat.new.me.0.loads ≡ sum_of_loads seat.old.me.0.loads + sum) }
        ensures rows { IfOk result (λ sum. sum ≡ sum_of_rows (width (task self.now)) (seen self.now seat.new.me) (read_by (task self.now) piece)) }
    {
        // For what is known of a round.
        let _width = self.width;
        let numbers = self.read_by(piece);
        let sum = self.load_rows(alloc, seat, universe, env, room, numbers.as_slice())?;
        Ok(sum)
    }

    /// Loads the rows of the names with these numbers, and sums up their words.
    fn load_rows(
        &self,
        alloc: Global,
        seat: &mut Seat<(), RoundView>,
        universe: &Universe,
        env: &mut Env,
        room: &mut RowRoom,
        numbers: &[u32],
    ) -> Result<u128, Memory>
        requires used { IsUsed self.now seat.old.table_id seat.old.me }
        requires work { (seat.old.me.0.busy ≡ true) × (seat.old.me.0.raised ≡ 0) }
        requires over { universe.now ≡ self.now.universe }
        requires env { IsEnvironmentOf self.now.universe (rule_trees self.now.rules) env.old }
        requires ascend { AreAscending numbers.now }
        requires within { (k : ℕ) → Contains numbers.now k → k < length env.old }
        requires room { HasRoom (width (task self.now)) room.old }
        ensures room { HasRoom (width (task self.now)) room.new }
        ensures used { IsUsed self.now seat.new.table_id seat.new.me }
        ensures same { IsAsBefore seat.old.me.0 seat.new.me.0 }
        ensures env { IfOk result (λ _. IsEnvironmentOf self.now.universe (rule_trees self.now.rules) env.new) }
        ensures read { IfOk result (λ _. HasRead (task self.now) (seen self.now seat.new.me) numbers.now env.new) }
        ensures loads { IfOk result (λ sum. sum_of_loads seat.new.me.0.loads ≡ sum_of_loads seat.old.me.0.loads + sum) }
        ensures rows { IfOk result (λ sum. sum ≡ sum_of_rows (width (task self.now)) (seen self.now seat.new.me) numbers.now) }
    {
        // For what is known of a round.
        let _width = self.width;
        let mut sum = 0;
        for number in numbers {
            self.load_words(seat, *number, &mut room.loaded);
            sum = with_words(sum, room.loaded.as_slice())?;
            take_row(
                alloc,
                universe,
                env,
                *number,
                room.loaded.as_slice(),
                &mut room.own,
            )?;
        }
        Ok(sum)
    }

    /// Loads the words of the row of the name with a number.
    fn load_words(&self, seat: &mut Seat<(), RoundView>, number: u32, words: &mut Vec<u64>)
        requires used { IsUsed self.now seat.old.table_id seat.old.me }
        requires work { (seat.old.me.0.busy ≡ true) × (seat.old.me.0.raised ≡ 0) }
        requires number { number < length (names (task self.now)) }
        requires room { length words.old.items ≡ width (task self.now) }
        ensures used { IsUsed self.now seat.new.table_id seat.new.me }
        ensures same { IsAsBefore seat.old.me.0 seat.new.me.0 }
        ensures others { ChangedAt (number * width (task self.now)) (width (task self.now)) (seen self.now seat.old.me) (seen self.now seat.new.me) }
        ensures words { words.new.items ≡ take (width (task self.now)) (drop (number * width (task self.now)) (seen self.now seat.new.me)) }
        ensures len { length words.new.items ≡ width (task self.now) }
        ensures loads { sum_of_loads seat.new.me.0.loads ≡ sum_of_loads seat.old.me.0.loads + sum words.new.items }
    {
        let width = self.width as usize;
        let at = number as usize * width;
        for k in 0..width {
            words[k] = self.load(seat, at + k);
        }
    }

    /// Raises the words of the row of the name with a number, and with the last one the piece is done.
    fn raise_row(&self, seat: &mut Seat<(), RoundView>, name: u32, row: &Row, words: &mut Vec<u64>)
        requires used { IsUsed self.now seat.old.table_id seat.old.me }
        requires work { (seat.old.me.0.busy ≡ true) × (seat.old.me.0.raised ≡ 0) }
        requires name { name < length (names (task self.now)) }
        requires row { HasShape self.now.universe row.now }
        requires stored { IsStored (task self.now) seat.old.me.0.piece (seen self.now seat.old.me) row.now (name * width (task self.now)) }
        requires summed { IsSummed (task self.now) (record { piece = seat.old.me.0.piece; loads = seat.old.me.0.loads }) }
        requires room { length words.old.items ≡ width (task self.now) }
        ensures room { length words.new.items ≡ length words.old.items }
        ensures used { IsUsed self.now seat.new.table_id seat.new.me }
        ensures done { (seat.new.me.0.busy ≡ false) × (seat.new.me.0.board ≡ seat.old.me.0.board) }
        ensures did { seat.new.me.0.done ≡ seat.old.me.0.done ++ record { piece = seat.old.me.0.piece; loads = seat.old.me.0.loads } ∷ [] }
    {
        row.write_words(words);
        let at = name as usize * self.width as usize;
        let last = self.width as usize - 1;
        for k in 0..last {
            self.raise(seat, at + k, words[k]);
        }
        self.finish(seat, at + last, words[last]);
    }
}
