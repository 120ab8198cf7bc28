//! Copies of scalars.
ghost use Rattle.std.specs.Prelude.{◌≡◌, IfOk};
ghost use Rattle.lf_scalar.specs.Scalars.{value};

use crate::Scalar;
use lf_base::Memory;

impl Scalar {
    /// An equal scalar: the same text, from the same places.
    pub fn copy(&self) -> Result<Scalar, Memory>
        ensures { IfOk result (λ s. value s ≡ value self.now) }
    {
        let text = self.text.copy()?;
        let from = self.from.copy()?;
        Ok(Scalar {
            text,
            from,
            span: self.span,
        })
    }
}
