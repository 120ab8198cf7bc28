//! What stands in files: their rules, and why some of them are refused.
ghost use Rattle.std.specs.Prelude.{◌≡◌, ◌≤◌, ◌<◌, ◌^◌, ◌++◌, ℕ, Some, length, map, slice_get, IfOk, OnOk};
ghost use Rattle.lf_ast.specs.Rules.{rule_trees};
ghost use Rattle.lf_base.specs.declared.refusal.Refusal.TheVariants as refusal_of;
ghost use Rattle.lf_accept.specs.Taken.{FileTakes};
ghost use Rattle.lf_judge.specs.Allowance.{AreAllowed, AreTaken};
ghost use Rattle.lf_judge.specs.Founds.{AreContents, HasContent, rules_in};
ghost use Rattle.lf_judge.specs.Judged.{file_of, files_of};
ghost use Rattle.lf_judge.specs.declared.source.Source.{Source};
ghost use Rattle.lf_judge.specs.views.Accepting.{IsFoundIn, IsOfContents, IsOfFiles, content_in, content_of, refusal_in, taken_in};

use crate::Source;
use crate::allowance::{TakenSoFar, allow};
use crate::moving::taken_out;
use lf_accept::{Acceptance, accept_counted};
use lf_ast::Rule;
use lf_base::{Gate, Memory, Refusal, Seq};
use lf_board::map_pieces;
use lf_report::Refused;
use std::alloc::Global;
use std::thread::Threads;

/// The phase in which workers accept files, a piece being a file.
const ACCEPTING: u8 = 0;

/// What stands in a file.
#[derive(Drop)]
pub enum FileContent {
    /// Its rules, in its order.
    Rules { of: Seq<Rule> },
    /// Why it is refused.
    Refused { why: Refused },
}

/// What stands in a file, and what was taken of allowances for its patterns.
#[derive(Drop)]
pub struct Counted {
    pub found: FileContent,
    pub taken: u64,
}

/// What stands in files.
#[derive(Drop)]
pub struct Accepted {
    /// Why each file is refused, where it is, in the order of the files.
    pub refusals: Seq<Option<Refused>>,
    /// The rules of the files that aren't refused, file by file.
    pub rules: Seq<Rule>,
}

/// What stands in these files, which are numbered from 0. Where their patterns count more in all than those of a run may, memory is wanting.
pub fn accept_all<R: Threads + Sync, G: Gate + Sync>(
    rt: &R,
    alloc: Global,
    files: &Seq<Source>,
    workers: u32,
    gate: &G,
) -> Result<Accepted, Memory>
    requires room { (k : ℕ) (file : Source) → slice_get files.now k ≡ Some file → length file.bytes ≤ 2 ^ 31 }
    requires few { length files.now < 2 ^ 32 }
    requires workers { (0 < workers) × (workers ≤ 64) }
    ensures found { IfOk result (IsOfFiles (files_of files.now)) }
    ensures allowed { IfOk result (λ accepted. AreAllowed (files_of files.now)) }
{
    let found = accept_each(rt, alloc, files, workers, gate)?;
    allow(found.as_slice())?;
    put_together(alloc, found)
}

/// What stands in each of these files, and what was taken for it.
fn accept_each<R: Threads + Sync, G: Gate + Sync>(
    rt: &R,
    alloc: Global,
    files: &Seq<Source>,
    workers: u32,
    gate: &G,
) -> Result<Seq<Counted>, Memory>
    requires room { (k : ℕ) (file : Source) → slice_get files.now k ≡ Some file → length file.bytes ≤ 2 ^ 31 }
    requires few { length files.now < 2 ^ 32 }
    requires workers { (0 < workers) × (workers ≤ 64) }
    ensures found { IfOk result (λ found. AreContents (files_of files.now) (map content_in found)) }
    ensures taken { IfOk result (λ found. AreTaken (files_of files.now) (map taken_in found)) }
{
    let so_far = TakenSoFar::nothing();
    let accept_one = |number: u32| -> Result<Counted, Memory>
        requires room { (k : ℕ) (file : Source) → slice_get files.now k ≡ Some file → length file.bytes ≤ 2 ^ 31 }
        requires within { number < length files.now }
        ensures { IfOk result (IsFoundIn (files_of files.entry.now) number) }
    { accept_file(alloc, &so_far, files.get(number as usize), number) };
    map_pieces(
        rt,
        alloc,
        files.len() as u32,
        workers,
        gate,
        ACCEPTING,
        &accept_one,
    )
}

/// What stands in the file with this number, and what was taken for it. It isn't read where more than may be was taken already.
fn accept_file(
    alloc: Global,
    so_far: &TakenSoFar,
    file: &Source,
    number: u32,
) -> Result<Counted, Memory>
    requires { length file.now.bytes ≤ 2 ^ 31 }
    ensures found { IfOk result (λ counted. HasContent number (file_of file.now) (content_in counted)) }
    ensures taken { IfOk result (λ counted. FileTakes file.now.bytes counted.taken) }
{
    if so_far.is_over() {
        return Err(Memory);
    }
    let Acceptance { answer, taken } = accept_counted(alloc, file.bytes.as_slice(), number);
    so_far.add(taken);
    match answer {
        Ok(of) => {
            let found = FileContent::Rules { of };
            Ok(Counted { found, taken })
        }
        Err(refusal) => {
            let why = refused(refusal)?;
            let found = FileContent::Refused { why };
            Ok(Counted { found, taken })
        }
    }
}

/// Why a file is refused, unless memory ran out.
fn refused(refusal: Refusal) -> Result<Refused, Memory>
    ensures { IfOk result (λ why. refusal ≡ refusal_of.At why.kind why.span) }
{
    match refusal {
        Refusal::At { kind, span } => Ok(Refused { kind, span }),
        Refusal::Memory => Err(Memory),
    }
}

/// What stands in all files, by what stands in each.
fn put_together(alloc: Global, found: Seq<Counted>) -> Result<Accepted, Memory>
    ensures { IfOk result (IsOfContents (map content_in found)) }
{
    let mut taken = taken_out(alloc, found)?;
    let mut refusals = Seq::new(alloc);
    let mut rules = Seq::new(alloc);
    while let Some(next) = taken.pop() {
        let refusal = move_found(alloc, &mut rules, next.found)?;
        refusals.push(refusal)?;
    }
    Ok(Accepted { refusals, rules })
}

/// Moves the rules of a file behind these, unless it is refused. Answers why it is, if so.
fn move_found(
    alloc: Global,
    rules: &mut Seq<Rule>,
    found: FileContent,
) -> Result<Option<Refused>, Memory>
    ensures refusal { IfOk result (λ refusal. refusal ≡ refusal_in (content_of found)) }
    ensures rules { OnOk result (rule_trees rules.new ≡ rule_trees rules.old ++ rules_in (content_of found)) }
{
    match found {
        FileContent::Rules { of } => {
            move_behind(alloc, rules, of)?;
            Ok(None)
        }
        FileContent::Refused { why } => Ok(Some(why)),
    }
}

/// Moves rules behind others.
fn move_behind(alloc: Global, rules: &mut Seq<Rule>, more: Seq<Rule>) -> Result<(), Memory>
    ensures { OnOk result (rules.new ≡ rules.old ++ more) }
{
    if rules.len() == 0 {
        *rules = more;
        return Ok(());
    }
    let mut taken = taken_out(alloc, more)?;
    while let Some(rule) = taken.pop() {
        rules.push(rule)?;
    }
    Ok(())
}
