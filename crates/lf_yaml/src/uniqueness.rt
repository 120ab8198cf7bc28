//! Laws of trees, for readers and for the crates above. The function does nothing; what it ensures is the law.
ghost use Rattle.std.specs.Prelude.{ℕ, List};
ghost use Rattle.lf_base.specs.Answers.{OneAnswer};
ghost use Rattle.lf_yaml.specs.Document.{IsTree, TreeBreaks};

/// A file of any bytes has one tree or one breach, and never both.
pub fn one_answer()
    ensures { (bytes : List ℕ) → OneAnswer (IsTree bytes) (TreeBreaks bytes) }
{}
