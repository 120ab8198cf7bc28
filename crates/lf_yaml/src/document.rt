//! A file and its tree.
ghost use Rattle.std.specs.Prelude.{◌≡◌, ℕ, [], ◌∷◌, ◌≤◌, ◌^◌, length, false, MatchOption, IfOk, IfSome};
ghost use Rattle.std.specs.Str.{IsCharBoundary};
ghost use Rattle.lf_base.specs.Answers.{AnswersAs, Found, Only, Refused, Breach, RefusedIn};
ghost use Rattle.lf_scalar.specs.Cells.{cells};
ghost use Rattle.lf_scalar.specs.views.Built.{refused};
ghost use Rattle.lf_scalar.specs.Lines.{is_tail as is_tail_of};
ghost use Rattle.lf_yaml.specs.Rows.{is_opening_text as is_opening_text_of, is_opening as is_opening_of};
ghost use Rattle.lf_yaml.specs.Tree.{tree};
ghost use Rattle.lf_yaml.specs.Document.{document_rows, IsTree, TreeBreaks};
ghost use Rattle.lf_yaml.specs.Insides.{Inside};
ghost use Rattle.lf_yaml.specs.reading.Trees.{document_of};
ghost use Rattle.lf_yaml.specs.views.Shown.{shown};
ghost use Rattle.lf_yaml.specs.views.Cursor.{rows_after, IsRowOf};
ghost use Rattle.lf_yaml.specs.reading.BlockTurns.{behind_fault};

use crate::below::first_row;
use crate::block_turns::begins_block;
use crate::characters::{check_characters, mark_length};
use crate::head::{indent, indent_fault, row_fault};
use crate::made::empty;
use crate::nested::node;
use crate::node::Node;
use crate::row::ContentLine;
use crate::source::YamlSource;
use lf_base::Refusal;
use lf_scalar::lines::wrong_behind;
use std::alloc::Global;

/// The tree of a rule file, by the profile of YAML 1.2 in docs/yaml-profile.md.
///
/// A file of more than one document, or with a form that the profile leaves out, is refused. A refusal is the first breach of the file: its kind, and its span in bytes
/// from the file's first. A byte order mark at the file's start is skipped; spans count it. A file without a node is the empty text at offset 0.
pub fn read_tree(alloc: Global, bytes: &[u8]) -> Result<Node, Refusal>
    requires room { length bytes.now ≤ 2 ^ 31 }
    // What is read is the file's tree.
    ensures found { Found tree (IsTree bytes.now) result }
    // The file's tree is read, unless memory runs out.
    ensures only { Only tree (IsTree bytes.now) result }
    // What is refused is the file's breach.
    ensures refused { Refused (TreeBreaks bytes.now) result }
    // A breach is refused, unless memory runs out.
    ensures breach { Breach tree (TreeBreaks bytes.now) result }
    // The span of a refusal lies in the file.
    ensures refused_inside { RefusedIn (length bytes.now) result }
    // So do the spans of the tree, and the offsets of a scalar never fall and lie in its span.
    ensures inside { IfOk result (λ n. Inside (length bytes.now) (tree n)) }
{
    match check_characters(bytes) {
        Ok(_) => document(YamlSource { alloc, bytes }),
        Err(refusal) => Err(refusal),
    }
}

/// The tree of a file whose characters are allowed.
fn document(source: YamlSource<'_>) -> Result<Node, Refusal>
    ensures { AnswersAs tree result (document_of source.entry.bytes.now (document_rows source.entry.bytes.now)) }
{
    match root_row(source) {
        None => empty(source.alloc, 0),
        Some((row, behind)) => {
            let (root, left) = node(source, 16, false, 0, row, behind)?;
            match first_row(source, left) {
                None => Ok(root),
                Some((next, _)) => Err(behind_root(row, next)),
            }
        }
    }
}

/// The row on which the root begins, and where the line behind it begins.
fn root_row(source: YamlSource<'_>) -> Option<(ContentLine<'_>, usize)>
    ensures rows { MatchOption result (document_rows source.entry.bytes.now ≡ []) (λ x. document_rows source.entry.bytes.now ≡ shown x.0 ∷ rows_after source.entry.bytes.now x.1) }
    ensures row { IfSome result (λ x. IsRowOf source.entry.bytes.now x.0) }
    ensures start { IfSome result (λ x. IsCharBoundary source.entry.bytes.now x.1) }
{
    match first_row(source, mark_length(source.bytes)) {
        Some((row, behind)) => {
            if is_opening(row) {
                first_row(source, behind)
            } else {
                Some((row, behind))
            }
        }
        None => None,
    }
}

/// Whether nothing but blanks and a comment, whose `#` stands behind a blank, is left of a line.
fn is_tail(text: &[u8]) -> bool
    ensures { (at : ℕ) → result ≡ is_tail_of false (cells at text.now) }
{
    match wrong_behind(text) {
        Some(_) => false,
        None => true,
    }
}

/// Whether a row is `---` with nothing but blanks and a comment behind it, at indent 0.
fn is_opening(row: ContentLine<'_>) -> bool
    ensures { result ≡ is_opening_of (shown row.entry) }
{
    indent(row) == 0 && is_opening_text(row.text)
}

/// Whether a text is `---` with nothing but blanks and a comment behind it.
fn is_opening_text(text: &[u8]) -> bool
    ensures { (at : ℕ) → result ≡ is_opening_text_of (cells at text.now) }
{
    match text {
        [] => false,
        [_] => false,
        [_, _] => false,
        [a, b, c, rest @ ..] => *a == b'-' && *b == b'-' && *c == b'-' && is_tail(rest),
    }
}

/// What is told of a row behind the root, which begins on another row.
fn behind_root(root: ContentLine<'_>, next: ContentLine<'_>) -> Refusal
    ensures { result ≡ refused (behind_fault (shown root.entry) (shown next.entry)) }
{
    if begins_block(root) {
        indent_fault(next)
    } else {
        row_fault(next)
    }
}
