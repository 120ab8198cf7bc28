//! Laws of expressions, for readers and for the crates above. The functions do nothing; what they ensure is the law.
ghost use Rattle.std.specs.Prelude.{◌≡◌, ◌↔◌, IsTrue};
ghost use Rattle.lf_base.specs.Answers.{OneAnswer};
ghost use Rattle.lf_ast.specs.Types.{HasType};
ghost use Rattle.lf_ast.specs.Breaches.{Breaks, Tells};
ghost use Rattle.lf_ast.specs.Spanless.{same, spanless};
ghost use Rattle.lf_ast.specs.Tree.{Tree};
ghost use Rattle.lf_ast.specs.declared.expr.ExprType.{ExprType};
ghost use Rattle.lf_base.specs.declared.fault.Fault.{Fault};

/// An expression has one type and no breach, or it has none and tells one breach.
pub fn one_type()
    ensures answer { (e : Tree) → OneAnswer (HasType e) (Tells e) }
    ensures none { (e : Tree) (t : ExprType) (f : Fault) → HasType e t → Breaks e f → ⊥ }
{}

/// Two expressions are the same exactly where they are equal with each span left out.
pub fn same_without_spans()
    ensures { (x y : Tree) → IsTrue (same x y) ↔ (spanless x ≡ spanless y) }
{}
