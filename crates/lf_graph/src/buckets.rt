//! Lists of numbers, by number.
ghost use Rattle.std.specs.Prelude.{◌≡◌, ◌<◌, ◌++◌, ◌∷◌, [], length, replicate, slice_index_or, IfOk, OnErr, OnOk};
ghost use Rattle.lf_graph.specs.views.Buckets.{put_at};

use lf_base::{Memory, Seq};
use std::alloc::Global;
use std::marker::Model;

/// A list of numbers for each number below a count: its bucket.
#[derive(Debug, Drop)]
pub struct Buckets {
    lists: Vec<Seq<usize>>,
}

impl Model for Buckets {
    ghost use Rattle.std.specs.Prelude.{List, ℕ};

    ghost Value = { List (List ℕ) };

    ghost view = { λ b. b.lists.items };
}

impl Buckets {
    /// Empty buckets for the numbers below a count.
    pub fn empty(alloc: Global, count: usize) -> Result<Buckets, Memory>
        ensures { IfOk result (λ buckets. buckets ≡ replicate count []) }
    {
        let mut lists = Vec::with_capacity(alloc, count)?;
        for _k in 0..count {
            lists.push(Seq::new(alloc))?;
        }
        Ok(Buckets { lists })
    }

    /// No bucket.
    pub fn new(alloc: Global) -> Buckets
        ensures { result ≡ [] }
    {
        Buckets {
            lists: Vec::new(alloc),
        }
    }

    /// How many buckets there are.
    pub fn len(&self) -> usize
        ensures { result ≡ length self.now }
    {
        self.lists.len()
    }

    /// The bucket of a number, and an empty list where it has none.
    pub fn at(&self, number: usize) -> &[usize]
        ensures { result.now ≡ slice_index_or self.now number [] }
    {
        if number < self.lists.len() {
            let list = &self.lists[number];
            list.as_slice()
        } else {
            &[]
        }
    }

    /// The buckets as lists, which aren't copied.
    pub fn into_lists(self) -> Seq<Seq<usize>>
        ensures { result ≡ self }
    {
        Seq::from_vec(self.lists)
    }

    /// Puts an element behind those in the bucket of a number.
    pub fn push(&mut self, number: usize, element: usize) -> Result<(), Memory>
        requires { number < length self.old }
        ensures ok { OnOk result (self.new ≡ put_at self.old number element) }
        ensures err { OnErr result (self.new ≡ self.old) }
    {
        let list = &mut self.lists[number];
        list.push(element)
    }

    /// Makes an empty bucket where a number is the first that has none.
    pub fn make_room(&mut self, alloc: Global, number: usize) -> Result<(), Memory>
        ensures there { number < length self.old → OnOk result (self.new ≡ self.old) }
        ensures made { number ≡ length self.old → OnOk result (self.new ≡ self.old ++ [] ∷ []) }
        ensures err { OnErr result (self.new ≡ self.old) }
    {
        if number == self.lists.len() {
            self.lists.push(Seq::new(alloc))?;
        }
        Ok(())
    }
}
