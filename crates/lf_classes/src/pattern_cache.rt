//! Rows of the classes that pass patterns, each found once.
ghost use Rattle.std.specs.Prelude.{◌≡◌, ℕ, ◌<◌, ◌^◌, length, IfSome, OnOk};
ghost use Rattle.lf_semantics.specs.Listing.{Listing};
ghost use Rattle.lf_classes.specs.views.PatternCache.{IsPatternCache, HasRows, passing_row};

use crate::row::Row;
use crate::text_map::TextMap;
use lf_ast::MatchOp;
use lf_base::Memory;
use std::alloc::Global;

/// The rows of the patterns that stand behind `=~` with one label, and of those behind `!~`.
#[derive(Drop)]
pub struct LabelRows {
    matching: TextMap<Row>,
    failing: TextMap<Row>,
}

impl LabelRows {
    /// No row.
    fn new(alloc: Global) -> LabelRows
        ensures { (u : Listing) (label : ℕ) → HasRows u label result }
    {
        LabelRows {
            matching: TextMap::new(alloc),
            failing: TextMap::new(alloc),
        }
    }

    /// The row of an operator and a pattern, if it is cached.
    fn get(&self, op: MatchOp, pattern: &str) -> Option<&Row>
        ensures { (u : Listing) (label : ℕ) → HasRows u label self.now → IfSome result (λ row. row.now ≡ passing_row u label op pattern.now) }
    {
        match op {
            MatchOp::Equal | MatchOp::NotEqual => None,
            MatchOp::Matches => self.matching.get(pattern),
            MatchOp::NotMatches => self.failing.get(pattern),
        }
    }

    /// Caches the row of an operator and a pattern. Those of `=` and `!=`, which take no pattern, aren't cached.
    fn add(&mut self, alloc: Global, op: MatchOp, pattern: &str, row: Row) -> Result<(), Memory>
        ensures { (u : Listing) (label : ℕ) → HasRows u label self.old → row ≡ passing_row u label op pattern.now → HasRows u label self.new }
    {
        match op {
            MatchOp::Equal | MatchOp::NotEqual => Ok(()),
            MatchOp::Matches => self.matching.add(alloc, pattern, row),
            MatchOp::NotMatches => self.failing.add(alloc, pattern, row),
        }
    }
}

/// The rows of the patterns of each label, from the first label on; behind the last of them no label has any.
#[derive(Drop)]
pub struct PatternCache {
    labels: Vec<LabelRows>,
}

impl PatternCache {
    /// Nothing.
    pub fn new(alloc: Global) -> PatternCache
        ensures { (u : Listing) → IsPatternCache u result }
    {
        PatternCache {
            labels: Vec::new(alloc),
        }
    }

    /// The row of a label, an operator and a pattern, if it is cached.
    pub fn get(&self, label: usize, op: MatchOp, pattern: &str) -> Option<&Row>
        ensures { (u : Listing) → IsPatternCache u self.now → IfSome result (λ row. row.now ≡ passing_row u label op pattern.now) }
    {
        let rows = self.labels.get(label)?;
        rows.get(op, pattern)
    }

    /// Caches the row of a label, an operator and a pattern.
    pub fn add(
        &mut self,
        alloc: Global,
        label: usize,
        op: MatchOp,
        pattern: &str,
        row: Row,
    ) -> Result<(), Memory>
        requires { label < 2 ^ 32 }
        ensures { (u : Listing) → IsPatternCache u self.old → row ≡ passing_row u label op pattern.now → IsPatternCache u self.new }
    {
        self.make_room(alloc, label)?;
        let rows = &mut self.labels[label];
        rows.add(alloc, op, pattern, row)
    }

    /// Makes a place for each label up to this one.
    fn make_room(&mut self, alloc: Global, label: usize) -> Result<(), Memory>
        requires { label < 2 ^ 32 }
        ensures room { OnOk result (label < length self.new.labels.items) }
        ensures rows { (u : Listing) → IsPatternCache u self.old → IsPatternCache u self.new }
    {
        while self.labels.len() <= label {
            self.labels.push(LabelRows::new(alloc))?;
        }
        Ok(())
    }
}
