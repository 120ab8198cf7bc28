//! Laws of templates, for readers and for the crates above. The functions do nothing; what they ensure is the law.
ghost use Rattle.std.specs.Prelude.{ℕ, List};
ghost use Rattle.lf_base.specs.Answers.{OneAnswer};
ghost use Rattle.lf_templates.specs.Templates.{References, Breaks};

/// A template has one list of references or one breach, never two and never both.
pub fn one_reading()
    ensures { (from text : List ℕ) → OneAnswer (References from text) (Breaks from text) }
{}
