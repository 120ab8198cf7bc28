//! Whether words ask for something, told without memory.
ghost use Rattle.std.specs.Prelude.{◌≡◌, ◌∷◌, codes, true, false};
ghost use Rattle.lf_words.specs.Grammar.{Asks};
ghost use Rattle.lf_words.specs.views.Commands.{texts_of};
ghost use Rattle.lf_words.specs.declared.options.Options.{Options};

use crate::number::number;
use crate::seen::{is_whole, seen_in};

/// Whether the words ask for something. It takes no memory, so that it answers where reading the words can't.
pub fn asks_for_something(words: &[String]) -> bool
    ensures yes { result ≡ true → (options : Options) × Asks (texts_of words.now) options }
    ensures no { result ≡ false → (options : Options) → Asks (texts_of words.now) options → ⊥ }
{
    match words.split_first() {
        None => false,
        Some((first, rest)) => match first.as_str() {
            "lint" => asks_for_lint(rest),
            "gen" => asks_for_gen(rest),
            _ => false,
        },
    }
}

/// Whether words behind `lint` ask for something.
fn asks_for_lint(words: &[String]) -> bool
    ensures yes { result ≡ true → (options : Options) × Asks (codes "lint" ∷ texts_of words.now) options }
    ensures no { result ≡ false → (options : Options) → Asks (codes "lint" ∷ texts_of words.now) options → ⊥ }
{
    match seen_in(words) {
        None => false,
        Some(seen) => is_whole(seen),
    }
}

/// Whether words behind `gen` ask for something.
fn asks_for_gen(words: &[String]) -> bool
    ensures yes { result ≡ true → (options : Options) × Asks (codes "gen" ∷ texts_of words.now) options }
    ensures no { result ≡ false → (options : Options) → Asks (codes "gen" ∷ texts_of words.now) options → ⊥ }
{
    match words {
        [size] => number(size, 4000).is_some(),
        _ => false,
    }
}
