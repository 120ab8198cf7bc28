//! The words of `gen`.
ghost use Rattle.std.specs.Prelude.{◌≡◌, ◌≢◌, [], IfOk, IfErr, codes, option_map, slice_get, Some};
ghost use Rattle.clap.specs.Words.{app_of, fault_of};
ghost use Rattle.lf_words.specs.Grammar.{Asks};
ghost use Rattle.lf_words.specs.views.Commands.{gen_app, texts_of, first_value};
ghost use Rattle.lf_words.specs.declared.options.Options.{Options};

use crate::fault::word_fault;
use crate::number::number;
use crate::{Options, WordFault};
use clap::{Arg, Command};
use std::alloc::{AllocError, Global};

/// The command that takes the words. What its value may be is tested here.
fn gen_command<'a>(alloc: Global) -> Result<Command<'a>, AllocError>
    ensures { IfOk result (λ c. app_of c ≡ gen_app) }
{
    let n = Arg::new(alloc, "n").required(true);
    let command = Command::new(alloc, "gen").arg(n)?;
    Ok(command.disable_help_flag(true))
}

/// What the words ask for, of which the first is `gen`.
pub fn read_gen(alloc: Global, words: &[String]) -> Result<Options, WordFault>
    requires { slice_get (texts_of words.now) 0 ≡ Some (codes "gen") }
    ensures asked { IfOk result (Asks (texts_of words.now)) }
    ensures refused { IfErr result (λ e. e ≡ WordFault.Refused → (options : Options) → Asks (texts_of words.now) options → ⊥) }
{
    // `clap` would take `gen -- 5` too.
    if words.len() != 2 {
        return Err(WordFault::Refused);
    }
    match find(alloc, words)? {
        None => Err(WordFault::Refused),
        Some(word) => match number(word, 4000) {
            None => Err(WordFault::Refused),
            Some(n) => Ok(Options::Gen { n }),
        },
    }
}

/// What `clap` finds in the words, of which the first is `gen`.
fn find<'a>(alloc: Global, words: &'a [String]) -> Result<Option<&'a str>, WordFault>
    ensures taken { IfOk result (λ _. fault_of gen_app (texts_of words.now) ≡ []) }
    ensures found { IfOk result (λ word. option_map (λ w. w.now) word ≡ first_value gen_app (codes "n") (texts_of words.now)) }
    ensures refused { IfErr result (λ e. e ≡ WordFault.Refused → fault_of gen_app (texts_of words.now) ≢ []) }
{
    match gen_command(alloc)?.try_get_matches_from(words) {
        Ok(matches) => Ok(matches.get_str("n")),
        Err(error) => Err(word_fault(&error)),
    }
}
