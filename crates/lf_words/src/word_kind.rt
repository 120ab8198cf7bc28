//! What a single word of `lint` is.
ghost use Rattle.std.specs.Prelude.{◌≡◌, ◌≢◌, ◌++◌, codes, true, false, IfSome, IfNone};
ghost use Rattle.lf_words.specs.Lint.{Word, IsOperand, option_word};
ghost use Rattle.lf_words.specs.views.Asking.{named, IsOfKind};

use crate::number::begins_with;

/// The options that take a value.
#[derive(Clone, Copy)]
pub enum Valued {
    Workers,
    Format,
}

/// What a word is where an option or a file may stand.
#[derive(Clone, Copy)]
pub enum WordKind<'a> {
    /// `--`, behind which all words are files.
    Dashes,
    /// `--labels`.
    Labels,
    /// An option, whose value is the next word.
    Option(Valued),
    /// An option with its value.
    Joined(Valued, &'a str),
    /// A file.
    File,
    /// None of these.
    Unknown,
}

/// What the word is where an option or a file may stand.
pub fn kind_of(word: &str) -> WordKind<'_>
    ensures { IsOfKind word.now result }
{
    match word {
        "--" => WordKind::Dashes,
        "--labels" => WordKind::Labels,
        "--workers" => WordKind::Option(Valued::Workers),
        "--format" => WordKind::Option(Valued::Format),
        _ => match (joined(word, Valued::Workers), joined(word, Valued::Format)) {
            (Some(value), _) => WordKind::Joined(Valued::Workers, value),
            (None, Some(value)) => WordKind::Joined(Valued::Format, value),
            (None, None) if is_operand(word) => WordKind::File,
            (None, None) => WordKind::Unknown,
        },
    }
}

/// The value in a word that is the option, `=` and a value.
fn joined(word: &str, option: Valued) -> Option<&str>
    ensures some { IfSome result (λ value. word.now ≡ option_word (named option) ++ codes "=" ++ value.now) }
    ensures none { IfNone result ((value : Word) → word.now ≢ option_word (named option) ++ codes "=" ++ value) }
{
    match option {
        Valued::Workers => word.strip_prefix("--workers="),
        Valued::Format => word.strip_prefix("--format="),
    }
}

/// Whether the word can be a file or a value.
pub fn is_operand(word: &str) -> bool
    ensures yes { result ≡ true → IsOperand word.now }
    ensures no { result ≡ false → IsOperand word.now → ⊥ }
{
    !begins_with(word, b'-') || word == "-"
}
