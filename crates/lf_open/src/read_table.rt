//! What the selectors of an expression read.
ghost use Rattle.std.specs.Prelude.{◌≡◌, [], List, length, slice_index_or, IfOk, OnOk};
ghost use Rattle.lf_ast.specs.Rules.{RuleTree};
ghost use Rattle.lf_semantics.specs.Listing.{place};
ghost use Rattle.lf_open.specs.views.ReadNames.{AreRead, IsReadGraph, IsTableOf, with_said};

use crate::read_graph::ReadGraph;
use lf_base::{Memory, Seq, Text};
use lf_classes::TextSet;
use std::alloc::Global;

/// The names that the selectors of an expression say, each once, and for each the numbers of the names that are read by it.
#[derive(Drop)]
pub(crate) struct ReadTable {
    names: TextSet,
    reads: Seq<Seq<usize>>,
}

impl ReadTable {
    /// That of selectors. What a name reads is looked for once.
    pub(crate) fn of(
        alloc: Global,
        graph: &ReadGraph,
        selectors: &[Option<Text>],
    ) -> Result<ReadTable, Memory>
        requires { (rules : List RuleTree) × IsReadGraph rules graph.now }
        ensures { IfOk result (λ table. (rules : List RuleTree) → IsReadGraph rules graph.now → IsTableOf rules graph.now.names selectors.now table) }
    {
        let mut table = ReadTable {
            names: TextSet::new(alloc),
            reads: Seq::new(alloc),
        };
        for selector in selectors {
            table.add(alloc, graph, selector)?;
        }
        Ok(table)
    }

    /// The numbers of the names that are read by a name of the table.
    pub(crate) fn read_by(&self, name: &str) -> &[usize]
        ensures { result.now ≡ slice_index_or self.now.reads (place self.now.names name.now) [] }
    {
        let place = self.names.place(name);
        if place < self.reads.len() {
            self.reads.get(place).as_slice()
        } else {
            &[]
        }
    }

    /// Adds what a selector says, unless it is there.
    fn add(
        &mut self,
        alloc: Global,
        graph: &ReadGraph,
        selector: &Option<Text>,
    ) -> Result<(), Memory>
        requires graph { (rules : List RuleTree) × IsReadGraph rules graph.now }
        requires count { length self.old.reads ≡ length self.old.names }
        ensures count { OnOk result (length self.new.reads ≡ length self.new.names) }
        ensures names { OnOk result (self.new.names ≡ with_said self.old.names selector.now) }
        ensures read { OnOk result ((rules : List RuleTree) → IsReadGraph rules graph.now → AreRead rules graph.now.names self.old → AreRead rules graph.now.names self.new) }
    {
        let Some(name) = selector else {
            return Ok(());
        };
        let place = self.names.add(alloc, name.as_str())?;
        if place == self.reads.len() {
            let read = graph.numbers_by(alloc, selector)?;
            self.reads.push(read)
        } else {
            Ok(())
        }
    }
}
