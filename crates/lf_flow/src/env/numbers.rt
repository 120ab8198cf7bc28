//! Recorded names by their numbers.
ghost use Rattle.std.specs.Prelude.{◌≡◌, ◌<◌, [], length, slice_index_or};
ghost use Rattle.lf_flow.specs.Reads.{name_at, rows_of, with_row};

use super::Env;
use lf_base::Text;
use lf_classes::Row;

impl Env {
    /// How many recorded names there are.
    pub fn names(&self) -> u32
        ensures { result ≡ length self.now }
    {
        self.names.len() as u32
    }

    /// The recorded name with the number `k`, counted from 0 in the order in which the names come first.
    pub fn name(&self, k: u32) -> &Text
        requires { k < length self.now }
        ensures { result.now ≡ name_at self.now k }
    {
        self.names.get(k as usize)
    }

    /// The row of the recorded name with the number `k`.
    pub fn row_at(&self, k: u32) -> &Row
        requires { k < length self.now }
        ensures { result.now ≡ slice_index_or (rows_of self.now) k [] }
    {
        &self.rows[k as usize]
    }

    /// Gives the recorded name with the number `k` another row, in place of its own. The join of all rows isn't kept any more.
    pub fn put(&mut self, k: u32, row: Row)
        requires { k < length self.old }
        ensures { self.new ≡ with_row k row self.old }
    {
        self.all = None;
        self.rows[k as usize] = row;
    }
}
