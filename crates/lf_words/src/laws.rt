//! A law of words, for readers and for the crates above. The function does nothing; what it ensures is the law.
ghost use Rattle.std.specs.Prelude.{◌≡◌, List};
ghost use Rattle.lf_words.specs.Lint.{Word};
ghost use Rattle.lf_words.specs.Grammar.{Asks};
ghost use Rattle.lf_words.specs.declared.options.Options.{Options};

/// Words ask for one thing at most.
pub fn one_reading()
    ensures { (words : List Word) (a b : Options) → Asks words a → Asks words b → a ≡ b }
{}
