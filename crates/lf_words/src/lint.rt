//! The words of `lint`.
ghost use Rattle.std.specs.Prelude.{◌≡◌, ◌≢◌, ℕ, Bool, [], map, Option, IfOk, IfErr, IfSome, IfNone, codes, option_map, slice_get, unwrap_or, Some};
ghost use Rattle.clap.specs.Words.{app_of, fault_of};
ghost use Rattle.lf_words.specs.Grammar.{Asks, IsFormat, IsWorkers};
ghost use Rattle.lf_words.specs.views.Arguments.{arguments_of};
ghost use Rattle.lf_words.specs.views.Commands.{lint_app, says_true, texts_of, first_value, all_values};
ghost use Rattle.lf_words.specs.declared.options.Options.{Options};

use crate::fault::word_fault;
use crate::number::number;
use crate::{Options, WordFault};
use clap::{Arg, ArgAction, Command};
use lf_base::{Memory, Seq, Text};
use std::alloc::{AllocError, Global};

/// What `clap` finds in words.
#[derive(Drop)]
pub struct FoundArguments<'a> {
    pub workers: Option<&'a str>,
    pub format: Option<&'a str>,
    pub labels: bool,
    pub files: Seq<Text>,
}

/// The command that takes the words. It knows no abbreviations, no repeated option and no `--help`; what its values may be is tested here.
fn lint_command<'a>(alloc: Global) -> Result<Command<'a>, AllocError>
    ensures { IfOk result (λ c. app_of c ≡ lint_app) }
{
    let workers = Arg::new(alloc, "workers").long("workers");
    let format = Arg::new(alloc, "format").long("format");
    let labels = Arg::new(alloc, "labels")
        .long("labels")
        .action(ArgAction::SetTrue);
    let files = Arg::new(alloc, "files")
        .action(ArgAction::Append)
        .required(true);
    let command = Command::new(alloc, "lint")
        .arg(workers)?
        .arg(format)?
        .arg(labels)?
        .arg(files)?;
    Ok(command.disable_help_flag(true))
}

/// What the words ask for, of which the first is `lint`.
pub fn read_lint(alloc: Global, words: &[String]) -> Result<Options, WordFault>
    requires { slice_get (texts_of words.now) 0 ≡ Some (codes "lint") }
    ensures asked { IfOk result (Asks (texts_of words.now)) }
    ensures refused { IfErr result (λ e. e ≡ WordFault.Refused → (options : Options) → Asks (texts_of words.now) options → ⊥) }
{
    let found = find(alloc, words)?;
    match (workers(found.workers), json(found.format)) {
        (Some(workers), Some(json)) => Ok(Options::Lint {
            workers,
            json,
            labels: found.labels,
            files: found.files,
        }),
        _ => Err(WordFault::Refused),
    }
}

/// What `clap` finds in the words, of which the first is `lint`.
fn find<'a>(alloc: Global, words: &'a [String]) -> Result<FoundArguments<'a>, WordFault>
    ensures taken { IfOk result (λ _. fault_of lint_app (texts_of words.now) ≡ []) }
    ensures workers { IfOk result (λ found. (arguments_of found).workers ≡ first_value lint_app (codes "workers") (texts_of words.now)) }
    ensures format { IfOk result (λ found. (arguments_of found).format ≡ first_value lint_app (codes "format") (texts_of words.now)) }
    ensures labels { IfOk result (λ found. found.labels ≡ says_true (first_value lint_app (codes "labels") (texts_of words.now))) }
    ensures files { IfOk result (λ found. found.files ≡ unwrap_or (all_values lint_app (codes "files") (texts_of words.now)) []) }
    ensures refused { IfErr result (λ e. e ≡ WordFault.Refused → fault_of lint_app (texts_of words.now) ≢ []) }
{
    match lint_command(alloc)?.try_get_matches_from(words) {
        Ok(matches) => {
            let workers = matches.get_str("workers");
            let format = matches.get_str("format");
            let labels = is_true(matches.get_str("labels"));
            let files = matches.get_raw("files").unwrap_or(&[]);
            Ok(FoundArguments {
                workers,
                format,
                labels,
                files: copies(alloc, files)?,
            })
        }
        Err(error) => Err(word_fault(&error)),
    }
}

/// The number of workers, if the word is one: 1 without a word.
pub fn workers(word: Option<&str>) -> Option<u32>
    ensures some { IfSome result (IsWorkers (option_map (λ w. w.now) word.entry)) }
    ensures none { IfNone result ((n : ℕ) → IsWorkers (option_map (λ w. w.now) word.entry) n → ⊥) }
{
    match word {
        None => Some(1),
        Some(word) => number(word, 64),
    }
}

/// Whether the format is JSON, if the word is a format: it isn't without a word.
pub fn json(word: Option<&str>) -> Option<bool>
    ensures some { IfSome result (IsFormat (option_map (λ w. w.now) word.entry)) }
    ensures none { IfNone result ((json : Bool) → IsFormat (option_map (λ w. w.now) word.entry) json → ⊥) }
{
    match word {
        None => Some(false),
        Some("text") => Some(false),
        Some("json") => Some(true),
        Some(_) => None,
    }
}

fn is_true(word: Option<&str>) -> bool
    ensures { result ≡ says_true (option_map (λ w. w.now) word.entry) }
{
    match word {
        None => false,
        Some(word) => word == "true",
    }
}

fn copies(alloc: Global, words: &[&str]) -> Result<Seq<Text>, Memory>
    ensures { IfOk result (λ s. s ≡ map (λ w. w.now) words.now) }
{
    let mut all = Seq::new(alloc);
    for word in words {
        all.push(Text::of(alloc, word)?)?;
    }
    Ok(all)
}
