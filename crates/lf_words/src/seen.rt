//! What was seen of the words of `lint`, from left to right.
ghost use Rattle.std.specs.Prelude.{◌≡◌, ◌∷◌, List, [], true, false, None, IfSome, IfNone};
ghost use Rattle.lf_words.specs.Lint.{Word, LintArguments, GivesArguments, nothing, value_of, with_value};
ghost use Rattle.lf_words.specs.views.Commands.{texts_of};
ghost use Rattle.lf_words.specs.views.Asking.{named, begun, Keeps, Leads, Stands, Lints};
ghost use Rattle.lf_words.specs.declared.seen.Next.TheVariants.{Any};

use crate::lint::{json, workers};
use crate::word_kind::{Valued, WordKind, is_operand, kind_of};

/// What stands next.
#[derive(Clone, Copy)]
pub enum Next {
    /// An option or a file.
    Any,
    /// The value of an option.
    Value(Valued),
    /// A file, whatever it looks like.
    File,
}

/// What was seen of the words.
#[derive(Clone, Copy)]
pub struct SeenWords<'a> {
    /// The value of `--workers`.
    pub workers: Option<&'a str>,
    /// The value of `--format`.
    pub format: Option<&'a str>,
    /// Whether `--labels` was among them.
    pub labels: bool,
    /// Whether a file was among them.
    pub file: bool,
    pub next: Next,
}

/// What is seen in all of the words behind `lint`, unless nothing can be asked for by words that begin so.
pub fn seen_in(words: &[String]) -> Option<SeenWords<'_>>
    ensures some { IfSome result (λ seen. Stands (texts_of words.now) seen []) }
    ensures none { IfNone result ((last : LintArguments) → GivesArguments nothing (texts_of words.now) last → ⊥) }
{
    let mut seen = SeenWords {
        workers: None,
        format: None,
        labels: false,
        file: false,
        next: Next::Any,
    };
    for word in words {
        seen = step(seen, word)?;
    }
    Some(seen)
}

/// Whether what was seen asks for something, if no word follows.
pub fn is_whole(seen: SeenWords<'_>) -> bool
    ensures yes { result ≡ true → (given : LintArguments) → Keeps seen.entry given → Lints given (begun seen.entry.next []) }
    ensures no { result ≡ false → (given : LintArguments) → Keeps seen.entry given → Lints given (begun seen.entry.next []) → ⊥ }
{
    match (seen.next, workers(seen.workers), json(seen.format)) {
        (Next::Value(_), _, _) => false,
        (_, Some(_), Some(_)) => seen.file,
        _ => false,
    }
}

/// What is seen with one word more, unless nothing can be asked for then.
fn step<'a>(seen: SeenWords<'a>, word: &'a str) -> Option<SeenWords<'a>>
    ensures some { IfSome result (λ later. (words : List Word) → Leads seen.entry (word.now ∷ words) later words) }
    ensures none { IfNone result ((words : List Word) (given last : LintArguments) → Keeps seen.entry given → GivesArguments given (begun seen.entry.next (word.now ∷ words)) last → ⊥) }
{
    match seen.next {
        Next::Any => any_step(seen, word),
        Next::Value(option) if is_operand(word) => with_value(seen, option, word),
        Next::Value(_) => None,
        Next::File => Some(SeenWords { file: true, ..seen }),
    }
}

/// The same where an option or a file stands next.
fn any_step<'a>(seen: SeenWords<'a>, word: &'a str) -> Option<SeenWords<'a>>
    requires { seen.next ≡ Any }
    ensures some { IfSome result (λ later. (words : List Word) → Leads seen.entry (word.now ∷ words) later words) }
    ensures none { IfNone result ((words : List Word) (given last : LintArguments) → Keeps seen.entry given → GivesArguments given (word.now ∷ words) last → ⊥) }
{
    match kind_of(word) {
        WordKind::Dashes => Some(SeenWords {
            next: Next::File,
            ..seen
        }),
        WordKind::Labels if seen.labels => None,
        WordKind::Labels => Some(SeenWords {
            labels: true,
            ..seen
        }),
        WordKind::Option(option) => Some(SeenWords {
            next: Next::Value(option),
            ..seen
        }),
        WordKind::Joined(option, value) => with_value(seen, option, value),
        WordKind::File => Some(SeenWords { file: true, ..seen }),
        WordKind::Unknown => None,
    }
}

/// What is seen with the value of an option, unless it was given before.
fn with_value<'a>(seen: SeenWords<'a>, option: Valued, value: &'a str) -> Option<SeenWords<'a>>
    ensures once { IfSome result (λ later. (given : LintArguments) → Keeps seen.entry given → value_of (named option) given ≡ None) }
    ensures kept { IfSome result (λ later. (given : LintArguments) → Keeps seen.entry given → Keeps later (with_value (named option) value.now given)) }
    ensures next { IfSome result (λ later. later.next ≡ Any) }
    ensures none { IfNone result ((given : LintArguments) → Keeps seen.entry given → value_of (named option) given ≡ None → ⊥) }
{
    match option {
        Valued::Workers if seen.workers.is_none() => Some(SeenWords {
            workers: Some(value),
            next: Next::Any,
            ..seen
        }),
        Valued::Format if seen.format.is_none() => Some(SeenWords {
            format: Some(value),
            next: Next::Any,
            ..seen
        }),
        _ => None,
    }
}
