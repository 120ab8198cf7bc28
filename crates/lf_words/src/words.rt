//! The words of the command line.
ghost use Rattle.std.specs.Prelude.{◌≡◌, map, string_bytes, IfOk, Err};
ghost use Rattle.lf_words.specs.Grammar.{Asks};
ghost use Rattle.lf_words.specs.declared.options.Options.{Options};

use crate::asking::asks_for_something;
use crate::gen_words::read_gen;
use crate::lint::read_lint;
use crate::{Options, WordFault};
use std::alloc::Global;

/// What the words of a command line, without the program's own name, ask for.
///
/// `Refused` says that they ask for nothing, and `Memory` that they ask for something, but there was not enough memory to read them.
pub fn read_words(alloc: Global, words: &[String]) -> Result<Options, WordFault>
    ensures asked { IfOk result (Asks (map string_bytes words.now)) }
    ensures refused { result ≡ Err WordFault.Refused → (options : Options) → Asks (map string_bytes words.now) options → ⊥ }
    ensures memory { result ≡ Err WordFault.Memory → (options : Options) × Asks (map string_bytes words.now) options }
{
    match read(alloc, words) {
        // `clap` can lack memory before it has found anything out about the words.
        Err(WordFault::Memory) if !asks_for_something(words) => Err(WordFault::Refused),
        result => result,
    }
}

/// The same, but `Memory` may come for words that ask for nothing too.
fn read(alloc: Global, words: &[String]) -> Result<Options, WordFault>
    ensures asked { IfOk result (Asks (map string_bytes words.now)) }
    ensures refused { result ≡ Err WordFault.Refused → (options : Options) → Asks (map string_bytes words.now) options → ⊥ }
{
    match words.first() {
        Some(first) if first.as_str() == "lint" => read_lint(alloc, words),
        Some(first) if first.as_str() == "gen" => read_gen(alloc, words),
        _ => Err(WordFault::Refused),
    }
}
