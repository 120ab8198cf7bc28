//! Laws of patterns and selectors, for readers and for the crates above. The function does nothing; what it ensures is the law.
ghost use Rattle.lf_base.specs.Answers.{OneAnswer};
ghost use Rattle.lf_ast.specs.Tree.{Tree};
ghost use Rattle.lf_classes.specs.Checked.{HasNoBreach};
ghost use Rattle.lf_semantics.specs.PatternBreaches.{TellsPattern};

/// An expression has no breach of patterns or selectors, or it tells one.
pub fn one_breach()
    ensures { (e : Tree) → OneAnswer (HasNoBreach e) (TellsPattern e) }
{}
