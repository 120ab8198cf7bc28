//! The files that options ask for.
ghost use Rattle.std.specs.Prelude.{◌≡◌, ◌≢◌, ◌≤◌, ◌<◌, ◌+◌, ◌^◌, ◌++◌, ◌∷◌, [], ℕ, List, Err, length, drop, IfErr, IfOk, OnOk, OnErr, codes};
ghost use Rattle.std.specs.List.{AllZip};
ghost use Rattle.lf_gen.specs.Generated.{generated};
ghost use Rattle.lf_judge.specs.Judged.{file_of, files_of};
ghost use Rattle.lf_words.specs.Grammar.{Asks};
ghost use Rattle.lf_lint.specs.declared.reading.ReadEnd.TheVariants as read_end;
ghost use Rattle.lf_lint.specs.Asked.{names_of};
ghost use Rattle.lf_lint.specs.Read.{AreAsTold, AreShort, IsReadFile, most_bytes_in_all, most_files, room_behind};
ghost use Rattle.lf_lint.specs.views.Making.{AreGathered, IsWhyUnread, unread_by};

use crate::reading::{ReadEnd, read_whole};
use crate::unreported::Unreported;
use lf_base::{Files, Memory, Seq, Text};
use lf_gen::gen_text;
use lf_judge::Source;
use lf_words::Options;
use std::alloc::Global;

/// The most files that may be named.
const MOST_FILES: usize = 1000;

/// The most bytes that a file may have: 4 MiB.
const MOST_BYTES: u32 = 4 * 1024 * 1024;

/// The most bytes that all files together may have: 16 MiB.
const MOST_BYTES_IN_ALL: u32 = 16 * 1024 * 1024;

/// The numbers of these limits in a status.
const FILES: u8 = 1;

const FILE_BYTES: u8 = 2;

const BYTES_IN_ALL: u8 = 3;

/// The files that options ask for: those named, each read whole, or the generated one, for which no file is opened.
pub fn sources_of<F: Files>(
    alloc: Global,
    options: &Options,
    files: &mut F,
) -> Result<Seq<Source>, Unreported>
    requires calm { F.faults files.old ≡ 0 }
    requires opens { F.opens files.old ≤ 2 ^ 31 }
    requires asked { (words : List (List ℕ)) × Asks words options.now }

    ensures gathered { IfOk result (λ sources. AreGathered (F.held files.old) options.now (files_of sources)) }
    ensures why { IfErr result (λ why. (opened : ℕ) × (F.opens files.new ≡ F.opens files.old + opened) × IsWhyUnread (F.held files.old) (F.left files.new) (names_of options.now) (F.faults files.old) (F.faults files.new) opened why) }
    ensures opened { OnOk result (F.opens files.new ≡ F.opens files.old + length (names_of options.now)) }
    ensures calm { OnOk result (F.faults files.new ≡ F.faults files.old) }
    ensures kept { (name : List ℕ) → F.held files.new name ≡ F.held files.old name }
{
    match options {
        Options::Lint { files: names, .. } => read_files(alloc, names.as_slice(), files),
        Options::Gen { n } => {
            let source = generated_source(alloc, *n)?;
            let mut sources = Seq::new(alloc);
            sources.push(source)?;
            Ok(sources)
        }
    }
}

/// The generated file of `n` rules.
fn generated_source(alloc: Global, n: u32) -> Result<Source, Memory>
    requires some { 1 ≤ n }
    requires most { n ≤ 4000 }
    ensures name { IfOk result (λ source. source.name ≡ codes "gen.yml") }
    ensures bytes { IfOk result (λ source. source.bytes ≡ generated n) }
{
    let text = gen_text(alloc, n)?;
    let name = Text::of(alloc, "gen.yml")?;
    let bytes = Seq::of(alloc, text.as_str().as_bytes())?;
    Ok(Source { name, bytes })
}

/// The files of these names, each read whole, in their order.
fn read_files<F: Files>(
    alloc: Global,
    names: &[Text],
    files: &mut F,
) -> Result<Seq<Source>, Unreported>
    requires calm { F.faults files.old ≡ 0 }
    requires opens { F.opens files.old ≤ 2 ^ 31 }

    ensures few { OnOk result (length names.now ≤ most_files) }
    ensures read { IfOk result (λ sources. AllZip (IsReadFile (F.held files.old)) names.now (files_of sources)) }
    ensures short { IfOk result (λ sources. AreShort (files_of sources)) }
    ensures why { IfErr result (λ why. (opened : ℕ) × (F.opens files.new ≡ F.opens files.old + opened) × IsWhyUnread (F.held files.old) (F.left files.new) names.now (F.faults files.old) (F.faults files.new) opened why) }
    ensures opened { OnOk result (F.opens files.new ≡ F.opens files.old + length names.now) }
    ensures calm { OnOk result (F.faults files.new ≡ F.faults files.old) }
    ensures kept { (name : List ℕ) → F.held files.new name ≡ F.held files.old name }
{
    if names.len() > MOST_FILES {
        return Err(Unreported::Limit {
            quantity: FILES,
            found: names.len() as u64,
        });
    }
    let mut sources = Seq::new(alloc);
    read_each(alloc, names, files, &mut sources)?;
    Ok(sources)
}

/// Reads the files of these names, and appends them to no others.
fn read_each<F: Files>(
    alloc: Global,
    names: &[Text],
    files: &mut F,
    sources: &mut Seq<Source>,
) -> Result<(), Unreported>
    requires calm { F.faults files.old ≡ 0 }
    requires opens { F.opens files.old ≤ 2 ^ 31 }
    requires few { length names.now ≤ most_files }
    requires none { sources.old ≡ [] }

    ensures read { OnOk result (AllZip (IsReadFile (F.held files.old)) names.now (files_of sources.new)) }
    ensures short { OnOk result (AreShort (files_of sources.new)) }
    ensures why { IfErr result (λ why. (opened : ℕ) × (F.opens files.new ≡ F.opens files.old + opened) × IsWhyUnread (F.held files.old) (F.left files.new) names.now (F.faults files.old) (F.faults files.new) opened why) }
    ensures opened { OnOk result (F.opens files.new ≡ F.opens files.old + length names.now) }
    ensures calm { OnOk result (F.faults files.new ≡ F.faults files.old) }
    ensures kept { (name : List ℕ) → F.held files.new name ≡ F.held files.old name }
{
    let mut before = 0;
    for name in names {
        match read_next(alloc, files, name, before, sources) {
            Ok(count) => before += count,
            Err(end) => return Err(why_unread(sources.len() as u32, before, end)),
        }
    }
    Ok(())
}

/// Reads the file of this name, behind files of so many bytes, appends it, and says how many bytes it has.
fn read_next<F: Files>(
    alloc: Global,
    files: &mut F,
    name: &Text,
    before: u32,
    sources: &mut Seq<Source>,
) -> Result<u32, ReadEnd>
    requires calm { F.faults files.old ≡ 0 }
    requires opens { F.opens files.old < 2 ^ 32 }
    requires within { before ≤ most_bytes_in_all }

    ensures read { IfOk result (λ count. (source : Source) × (sources.new ≡ sources.old ++ source ∷ []) × IsReadFile (F.held files.old) name.now (file_of source) × (length source.bytes ≡ count)) }
    ensures within { IfOk result (λ count. count ≤ room_behind before) }
    ensures failed { result ≡ Err read_end.Failed → F.faults files.old < F.faults files.new }
    ensures too_long { result ≡ Err read_end.TooLong → (bytes : List ℕ) × AreAsTold (F.held files.old name.now) bytes × (room_behind before < length bytes) × AreAsTold (F.left files.new) (drop (room_behind before + 1) bytes) }
    ensures same { OnErr result (sources.new ≡ sources.old) }
    ensures opened { result ≢ Err read_end.Memory → F.opens files.new ≡ F.opens files.old + 1 }
    ensures opened_once { (F.opens files.old ≤ F.opens files.new) × (F.opens files.new ≤ F.opens files.old + 1) }
    ensures calm { result ≢ Err read_end.Failed → F.faults files.new ≡ F.faults files.old }
    ensures kept { (other : List ℕ) → F.held files.new other ≡ F.held files.old other }
{
    let most = MOST_BYTES.min(MOST_BYTES_IN_ALL - before);
    let name_of_file = name.copy()?;
    let bytes = read_whole(alloc, files, name, most)?;
    let count = bytes.len() as u32;
    sources.push(Source {
        name: name_of_file,
        bytes,
    })?;
    Ok(count)
}

/// Why there is no report, where the file with this number isn't read behind files of so many bytes.
fn why_unread(file: u32, before: u32, end: ReadEnd) -> Unreported
    requires within { before ≤ most_bytes_in_all }
    ensures { result ≡ unread_by file before end }
{
    match end {
        ReadEnd::Failed => Unreported::Read { file },
        ReadEnd::Memory => Unreported::Memory,
        ReadEnd::TooLong if before <= MOST_BYTES_IN_ALL - MOST_BYTES => Unreported::Limit {
            quantity: FILE_BYTES,
            found: u64::from(MOST_BYTES) + 1,
        },
        ReadEnd::TooLong => Unreported::Limit {
            quantity: BYTES_IN_ALL,
            found: u64::from(MOST_BYTES_IN_ALL) + 1,
        },
    }
}
