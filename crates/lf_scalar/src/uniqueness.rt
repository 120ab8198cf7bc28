//! Laws of scalars, for readers and for the crates above. The function does nothing; what it ensures is the law.
ghost use Rattle.std.specs.Prelude.{◌≡◌, ◌⊎◌, ℕ, ℤ, List};
ghost use Rattle.lf_scalar.specs.declared.scalar.Style.{Style};
ghost use Rattle.lf_base.specs.declared.fault.Fault.{Fault};
ghost use Rattle.lf_scalar.specs.Cells.{Value};
ghost use Rattle.lf_scalar.specs.Scalars.{BeginsAt, IsScalarAt, BreaksAt};

/// Where a scalar of a style begins, there is one scalar of that style or one breach, and never both.
pub fn one_answer()
    ensures scalar { (bytes : List ℕ) (at : ℕ) (indent : ℤ) (style : Style) (v w : Value) → IsScalarAt bytes at indent style v → IsScalarAt bytes at indent style w → v ≡ w }
    ensures breach { (bytes : List ℕ) (at : ℕ) (indent : ℤ) (style : Style) (f g : Fault) → BreaksAt bytes at indent style f → BreaksAt bytes at indent style g → f ≡ g }
    ensures one { (bytes : List ℕ) (at : ℕ) (indent : ℤ) (style : Style) (v : Value) (f : Fault) → IsScalarAt bytes at indent style v → BreaksAt bytes at indent style f → ⊥ }
    ensures some { (bytes : List ℕ) (at : ℕ) (indent : ℤ) (style : Style) → BeginsAt bytes at style → ((v : Value) × IsScalarAt bytes at indent style v) ⊎ ((f : Fault) × BreaksAt bytes at indent style f) }
{}
