//! A run of the program.
ghost use Rattle.std.specs.Prelude.{◌≡◌, ◌≢◌, ◌↔◌, ℕ, List, map, string_bytes, ◌+◌, ◌<◌, ◌≤◌, ◌^◌, length};
ghost use Rattle.lf_report.specs.declared.report.Report.{Report};
ghost use Rattle.lf_words.specs.Grammar.{Asks};
ghost use Rattle.lf_words.specs.declared.options.Options.{Options};
ghost use Rattle.lf_lint.specs.Asked.{names_of};
ghost use Rattle.lf_judge.specs.Judged.{TellTheSame};
ghost use Rattle.lf_lint.specs.Ends.{IsOfReport, IsOutcome, IsSilent, IsUnreadFile, WordsPassLimit, WroteAll, WrotePart};
ghost use Rattle.lf_lint.specs.Headline.{WroteTruth};

use crate::making::make;
use crate::{Status, WordFault, read_words, write_whole};
use lf_base::{Files, Gate, Sink};
use std::alloc::Global;
use std::thread::Threads;

/// A whole run of the program: lints the files that the words ask for, or a generated one, and writes the report on them. As many workers do it as the words say; a generated
/// file has four.
///
/// The words come without the program's own name. The whole report is made before its first byte is written.
pub fn lint<R: Threads + Sync, F: Files, O: Sink, G: Gate + Sync>(
    rt: &R,
    alloc: Global,
    words: &[String],
    files: &mut F,
    out: &mut O,
    gate: &G,
) -> Status
    requires files { F.faults files.old ≡ 0 }
    requires out { O.faults out.old ≡ 0 }
    requires opens { F.opens files.old ≤ 2 ^ 31 }

    // The words alone decide this end, and nothing is opened.
    ensures words { (result ≡ Status.Words) ↔ ((options : Options) → Asks (map string_bytes words.now) options → ⊥) }
    ensures asked { result ≢ Status.Words → (options : Options) × Asks (map string_bytes words.now) options }
    ensures unread { result ≡ Status.Words → files.new ≡ files.old }

    // The whole report was written, or a call of the sink failed after a front of it.
    ensures clean { result ≡ Status.Clean → WroteAll (map string_bytes words.now) (F.held files.old) (O.taken out.old) (O.taken out.new) Status.Clean }
    ensures problems { result ≡ Status.Problems → WroteAll (map string_bytes words.now) (F.held files.old) (O.taken out.old) (O.taken out.new) Status.Problems }
    ensures refused { result ≡ Status.Refused → WroteAll (map string_bytes words.now) (F.held files.old) (O.taken out.old) (O.taken out.new) Status.Refused }
    ensures write { result ≡ Status.Write → (O.faults out.old < O.faults out.new) × WrotePart (map string_bytes words.now) (F.held files.old) (O.taken out.old) (O.taken out.new) }

    // What the report says is true of every run of the rules.
    ensures headline { IsOfReport result → WroteTruth (map string_bytes words.now) (F.held files.old) (O.taken out.old) (O.taken out.new) }

    // There is one report for a list of words and the bytes of the files, and it is written in one way.
    ensures one_report { (stand : List ℕ → List ℕ) (a b : Report) (c d : List ℕ) → IsOutcome (map string_bytes words.now) stand a c → IsOutcome (map string_bytes words.now) stand b d → TellTheSame a b × (c ≡ d) }

    // A file's number is that of the last call of `open`.
    ensures read { (file : ℕ) → result ≡ Status.Read file → (F.faults files.old < F.faults files.new) × (F.opens files.new ≡ F.opens files.old + (file + 1)) × IsUnreadFile (map string_bytes words.now) (F.held files.old) file }
    ensures limit { (quantity count : ℕ) → result ≡ Status.Limit quantity count → (opened : ℕ) × (F.opens files.new ≡ F.opens files.old + opened) × WordsPassLimit (map string_bytes words.now) (F.held files.old) (F.left files.new) opened quantity count }

    // Each file is opened once where the report was written whole or in part, and at most once else.
    ensures opened { (options : Options) → Asks (map string_bytes words.now) options → IsOfReport result → F.opens files.new ≡ F.opens files.old + length (names_of options) }
    ensures opened_at_write { (options : Options) → Asks (map string_bytes words.now) options → result ≡ Status.Write → F.opens files.new ≡ F.opens files.old + length (names_of options) }
    ensures opened_once { (options : Options) → Asks (map string_bytes words.now) options → F.opens files.new ≤ F.opens files.old + length (names_of options) }

    // What else is as before.
    ensures quiet { IsSilent result → out.new ≡ out.old }
    ensures files_calm { ((file : ℕ) → result ≢ Status.Read file) → F.faults files.new ≡ F.faults files.old }
    ensures out_calm { result ≢ Status.Write → O.faults out.new ≡ O.faults out.old }
    ensures kept { (name : List ℕ) → F.held files.new name ≡ F.held files.old name }
{
    let options = match read_words(alloc, words) {
        Ok(options) => options,
        Err(WordFault::Refused) => return Status::Words,
        Err(WordFault::Memory) => return Status::Memory,
    };
    let made = match make(rt, alloc, &options, files, gate) {
        Ok(made) => made,
        Err(why) => return why.status(),
    };
    match write_whole(out, made.text.as_str().as_bytes()) {
        Err(_) => Status::Write,
        Ok(()) => made.status,
    }
}
