//! The parts of an expression that are to be built, with the texts that they get.
ghost use Rattle.std.specs.Prelude.{◌≡◌, ◌∷◌, ◌+◌, [], Some, cond, not, slice_get, take, IfOk};
ghost use Rattle.std.specs.List.{sum_by};
ghost use Rattle.lf_ast.specs.Functions.{called_by};
ghost use Rattle.lf_ast.specs.declared.expr.Matching.{Matching};
ghost use Rattle.lf_ast.specs.declared.expr.Op.{Op};
ghost use Rattle.lf_ast.specs.Tree.{Tree, list, parts_of, trees};
ghost use Rattle.lf_semantics.specs.Grouped.{is_filter};
ghost use Rattle.lf_semantics.specs.Parts.{is_scalar_part};
ghost use Rattle.lf_semantics.specs.RowTable.{row_of};
ghost use Rattle.lf_trials.specs.Given.{Given, holds_texts};
ghost use Rattle.lf_candidates.specs.views.ClassTexts.{Stands};
ghost use Rattle.lf_built.specs.views.Indexed.{IsPrepared, env_of, trees_of, universe_of};
ghost use Rattle.lf_built.specs.views.Marking.{arguments_of, grouping_of, operator_of};
ghost use Rattle.lf_built.specs.views.Places.{size};
ghost use Rattle.lf_built.specs.views.Spots.{IsPartSpot, IsSpot, tree_at};
ghost use Rattle.lf_built.specs.views.Tasks.{binary_wanted, call_wanted, match_wanted, nameless_if, one_wanted, operator_wanted, parts_wanted, want};
ghost use Rattle.lf_built.specs.views.Works.{AreParts};

use crate::operands::{nameless_if, operand_texts};
use crate::prepared::Prepared;
use crate::sides::side_texts;
use crate::spots::Spot;
use crate::work::WantedParts;
use lf_ast::walk::part_at;
use lf_ast::{Expr, Function, Matching, Op};
use lf_base::Memory;
use lf_candidates::LabelTexts;
use lf_nodes::{is_filter, operand_place};

impl<'a> Prepared<'a> {
    /// The parts of an expression, which is no selector, that are to be built where it is built from these texts, and none where there is no world.
    pub(crate) fn parts(
        &self,
        spot: &Spot<'a>,
        texts: LabelTexts,
    ) -> Result<Option<WantedParts<'a>>, Memory>
        requires known { IsPrepared self.now }
        requires spot { IsSpot (trees_of self.now) spot.now }
        requires texts { (D : Given) × Stands (universe_of self.now) texts D }
        ensures { (D : Given) → Stands (universe_of self.now) texts D → IfOk result (AreParts self.now (tree_at spot.now) (parts_wanted (universe_of self.now) (env_of self.now) (tree_at spot.now) D)) }
    {
        match spot.expr {
            Expr::Number { .. } => Ok(Some(WantedParts::Nothing)),
            Expr::Str { .. } => Ok(None),
            Expr::Selector { .. } => Ok(None),
            Expr::Subquery { .. } => Ok(self.one(spot, 0, texts)),
            Expr::Paren { .. } => Ok(self.one(spot, 0, texts)),
            Expr::Unary { minus, .. } => {
                let texts = nameless_if(*minus, self.names.as_slice(), texts);
                Ok(self.one(spot, 0, texts))
            }
            Expr::Binary { op, modifier, .. } => self.sides(spot, *op, modifier, texts),
            Expr::Call { args, .. } => Ok(self.operand(spot, args.as_slice(), texts)),
            Expr::Aggregate { args, .. } => Ok(self.operand(spot, args.as_slice(), texts)),
        }
    }

    /// The sides of an operator that are to be built. Nothing is built for a scalar.
    fn sides(
        &self,
        spot: &Spot<'a>,
        op: Op,
        matching: &Matching,
        texts: LabelTexts,
    ) -> Result<Option<WantedParts<'a>>, Memory>
        requires known { IsPrepared self.now }
        requires spot { IsSpot (trees_of self.now) spot.now }
        requires own { operator_of (tree_at spot.now) ≡ Some (op, matching.now) }
        requires sides { (l : Tree) × (r : Tree) × (parts_of (tree_at spot.now) ≡ l ∷ r ∷ []) }
        requires texts { (D : Given) × Stands (universe_of self.now) texts D }
        ensures { (l r : Tree) (D : Given) → parts_of (tree_at spot.now) ≡ l ∷ r ∷ [] → Stands (universe_of self.now) texts D → IfOk result (AreParts self.now (tree_at spot.now) (binary_wanted (universe_of self.now) (env_of self.now) op matching.now (is_scalar_part l) (is_scalar_part r) l r D)) }
    {
        let left = self.part(spot, 0).unwrap();
        let right = self.part(spot, 1).unwrap();
        match (self.is_scalar(&left), self.is_scalar(&right)) {
            (true, true) => Ok(Some(WantedParts::Nothing)),
            (false, true) => Ok(self.beside_scalar(spot, 0, op, matching, texts)),
            (true, false) => Ok(self.beside_scalar(spot, 1, op, matching, texts)),
            (false, false) => self.operator(spot, op, left, right, texts),
        }
    }

    /// The side of an operator at a place, whose other side is a scalar.
    fn beside_scalar(
        &self,
        spot: &Spot<'a>,
        at: usize,
        op: Op,
        matching: &Matching,
        texts: LabelTexts,
    ) -> Option<WantedParts<'a>>
        requires known { IsPrepared self.now }
        requires spot { IsSpot (trees_of self.now) spot.now }
        requires texts { (D : Given) × Stands (universe_of self.now) texts D }
        ensures { (D : Given) → Stands (universe_of self.now) texts D → AreParts self.now (tree_at spot.now) (one_wanted (nameless_if (not (is_filter op matching.now)) D) (slice_get (parts_of (tree_at spot.now)) at)) result }
    {
        let drops = !is_filter(op, matching);
        let texts = nameless_if(drops, self.names.as_slice(), texts);
        self.one(spot, at, texts)
    }

    /// The sides of an operator of two vectors that are to be built.
    fn operator(
        &self,
        spot: &Spot<'a>,
        op: Op,
        left: Spot<'a>,
        right: Spot<'a>,
        texts: LabelTexts,
    ) -> Result<Option<WantedParts<'a>>, Memory>
        requires known { IsPrepared self.now }
        requires spot { IsSpot (trees_of self.now) spot.now }
        requires own { (m : Matching) × (operator_of (tree_at spot.now) ≡ Some (op, m)) }
        requires left { IsSpot (trees_of self.now) left }
        requires right { IsSpot (trees_of self.now) right }
        requires sides { parts_of (tree_at spot.now) ≡ tree_at left ∷ tree_at right ∷ [] }
        requires texts { (D : Given) × Stands (universe_of self.now) texts D }
        ensures { (m : Matching) (D : Given) → operator_of (tree_at spot.now) ≡ Some (op, m) → Stands (universe_of self.now) texts D → IfOk result (AreParts self.now (tree_at spot.now) (operator_wanted (universe_of self.now) (env_of self.now) op m (tree_at left.entry) (tree_at right.entry) D)) }
    {
        match op {
            Op::Or => self.either(spot, &left, texts),
            Op::Unless => Ok(self.one(spot, 0, texts)),
            _ => self.matched(spot, left, right, texts),
        }
    }

    /// The left side of an `or` where its row holds the texts, and else the right side.
    fn either(
        &self,
        spot: &Spot<'a>,
        left: &Spot<'a>,
        texts: LabelTexts,
    ) -> Result<Option<WantedParts<'a>>, Memory>
        requires known { IsPrepared self.now }
        requires spot { IsSpot (trees_of self.now) spot.now }
        requires left { IsSpot (trees_of self.now) left.now }
        requires texts { (D : Given) × Stands (universe_of self.now) texts D }
        ensures { (right : Tree) (D : Given) → parts_of (tree_at spot.now) ≡ tree_at left.now ∷ right ∷ [] → Stands (universe_of self.now) texts D → IfOk result (AreParts self.now (tree_at spot.now) (Some (want (cond (holds_texts (universe_of self.now) (row_of (universe_of self.now) (env_of self.now) (tree_at left.now)) D) (tree_at left.now) right) D ∷ []))) }
    {
        let row = self.row(left)?;
        if texts.is_held_by(self.universe, &row) {
            Ok(self.one(spot, 0, texts))
        } else {
            Ok(self.one(spot, 1, texts))
        }
    }

    /// Both sides of a match, and none where a label of the signature has no text.
    fn matched(
        &self,
        spot: &Spot<'a>,
        left: Spot<'a>,
        right: Spot<'a>,
        texts: LabelTexts,
    ) -> Result<Option<WantedParts<'a>>, Memory>
        requires known { IsPrepared self.now }
        requires spot { IsSpot (trees_of self.now) spot.now }
        requires own { (op : Op) × (m : Matching) × (operator_of (tree_at spot.now) ≡ Some (op, m)) }
        requires left { IsSpot (trees_of self.now) left }
        requires right { IsSpot (trees_of self.now) right }
        requires sides { parts_of (tree_at spot.now) ≡ tree_at left ∷ tree_at right ∷ [] }
        requires texts { (D : Given) × Stands (universe_of self.now) texts D }
        ensures { (op : Op) (m : Matching) (D : Given) → operator_of (tree_at spot.now) ≡ Some (op, m) → Stands (universe_of self.now) texts D → IfOk result (AreParts self.now (tree_at spot.now) (match_wanted (universe_of self.now) (env_of self.now) op m (tree_at left.entry) (tree_at right.entry) D)) }
    {
        let marks = &self.marks(spot).sides;
        let left_row = self.packed_row(&left);
        let right_row = self.packed_row(&right);
        match side_texts(self.universe, marks, left_row, right_row, &texts)? {
            Some(sides) => Ok(Some(WantedParts::Both {
                left,
                left_texts: sides.left,
                right,
                right_texts: sides.right,
            })),
            None => Ok(None),
        }
    }

    /// The operand of a function or an aggregation, if it is to be built.
    fn operand(&self, spot: &Spot<'a>, args: &[Expr], texts: LabelTexts) -> Option<WantedParts<'a>>
        requires known { IsPrepared self.now }
        requires spot { IsSpot (trees_of self.now) spot.now }
        requires parts { parts_of (tree_at spot.now) ≡ list (trees args.now) }
        requires args { arguments_of (tree_at spot.now) ≡ trees args.now }
        requires texts { (D : Given) × Stands (universe_of self.now) texts D }
        ensures { (D : Given) → Stands (universe_of self.now) texts D → AreParts self.now (tree_at spot.now) (call_wanted (called_by (tree_at spot.now)) (grouping_of (tree_at spot.now)) (trees args.now) D) result }
    {
        let function = Function::called_by(spot.expr)?;
        let names = self.names.as_slice();
        let lost = self.marks(spot).lost.as_slice();
        match operand_texts(self.universe, names, function.labels, lost, args, texts) {
            Some(texts) => self.one(spot, operand_place(function.takes), texts),
            None => Some(WantedParts::Nothing),
        }
    }

    /// The part of an expression at a place among its parts, counted from 0, if there is one.
    fn one(&self, spot: &Spot<'a>, at: usize, texts: LabelTexts) -> Option<WantedParts<'a>>
        requires known { IsPrepared self.now }
        requires spot { IsSpot (trees_of self.now) spot.now }
        ensures { (D : Given) → Stands (universe_of self.now) texts D → AreParts self.now (tree_at spot.now) (one_wanted D (slice_get (parts_of (tree_at spot.now)) at)) result }
    {
        match self.part(spot, at) {
            Some(spot) => Some(WantedParts::One { spot, texts }),
            None => None,
        }
    }

    /// The part of an expression at a place among its parts, counted from 0, and where it stands.
    fn part(&self, spot: &Spot<'a>, at: usize) -> Option<Spot<'a>>
        requires known { IsPrepared self.now }
        requires spot { IsSpot (trees_of self.now) spot.now }
        ensures { IsPartSpot (trees_of self.now) (slice_get (parts_of (tree_at spot.now)) at) result }
    {
        match part_at(spot.expr, at) {
            Some(expr) => Some(Spot {
                rule: spot.rule,
                place: self.place_of(spot, at),
                expr,
            }),
            None => None,
        }
    }

    /// Where a part of an expression stands: behind the expression and its parts before.
    fn place_of(&self, spot: &Spot<'a>, at: usize) -> usize
        requires known { IsPrepared self.now }
        requires spot { IsSpot (trees_of self.now) spot.now }
        requires part { (x : Tree) × (slice_get (parts_of (tree_at spot.now)) at ≡ Some x) }
        ensures { result ≡ spot.now.place + 1 + sum_by size (take at (parts_of (tree_at spot.now))) }
    {
        let parts = &self.parts[spot.rule];
        let _all = parts.len();
        let mut place = spot.place + 1;
        for before in 0..at {
            place += parts.size(place);
        }
        place
    }
}
