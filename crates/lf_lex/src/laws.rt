//! Laws of tokens, for readers and for the crates above. The functions do nothing; what they ensure is the law.
ghost use Rattle.std.specs.Prelude.{◌≡◌, ◌+◌, ℕ, List, slice_index};
ghost use Rattle.std.specs.Str.{IsUtf8};
ghost use Rattle.lf_base.specs.declared.kind.Kind.TheVariants.{BadEscape};
ghost use Rattle.lf_base.specs.Answers.{OneAnswer};
ghost use Rattle.lf_lex.specs.Tokens.{Tokens, Breaks, in_source};
ghost use Rattle.lf_base.specs.declared.fault.Fault.{Fault};

/// A text has one list of tokens or one breach, never two and never both.
pub fn one_reading()
    ensures { (from text : List ℕ) → OneAnswer (Tokens from text) (Breaks from text) }
{}

/// In a text that is UTF-8, `BadEscape` is told of a backslash, and of it alone.
pub fn wrong_escapes()
    ensures backslash { (from text : List ℕ) (fault : Fault) → IsUtf8 text → Breaks from text fault → fault.kind ≡ BadEscape → (place : ℕ) × (slice_index text place ≡ 92) × (fault.span ≡ in_source from place (place + 1)) }
{}
