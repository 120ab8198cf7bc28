//! Where something stands in a file.
//!
//! A file is marked every few bytes, so that each place in it is found from a mark near by, in whatever order places are looked up.
ghost use Rattle.std.specs.Prelude.{◌≡◌, ◌++◌, ◌≤◌, ◌<◌, ℕ, List, length, min, codes, IfOk, Some, slice_get, slice_index_or};
ghost use Rattle.std.specs.Fmt.{decimal};
ghost use Rattle.lf_report.specs.declared.report.FileReport.{FileReport};
ghost use Rattle.lf_report.specs.views.LineIndex.{AreIndexed, ArePositions, IsPosition, IsPositionOf};

use crate::{FileReport, Report};
use lf_base::{Memory, Text};
use std::alloc::Global;

/// How many bytes stand between two marks of a file.
const STRIDE: usize = 64;

/// A byte offset of a file, with its line and its column, both counted from 1 and the column in bytes.
#[derive(Clone, Copy, PartialEq, Eq, Debug)]
pub struct Position {
    pub offset: usize,
    pub line: usize,
    pub column: usize,
}

impl Position {
    /// The position of a file's first byte.
    pub fn first() -> Position
        ensures position { (bytes : List ℕ) → IsPosition bytes result }
        ensures start { result.offset ≡ 0 }
    {
        Position {
            offset: 0,
            line: 1,
            column: 1,
        }
    }
}

/// The marks of a file, from which places in it are found.
#[derive(Drop)]
pub struct LineIndex {
    /// One for each multiple of the stride that is an offset of the file, in their order.
    pub positions: Vec<Position>,
}

/// The line indexes of all files of a report, each at the number of its file.
pub fn line_indexes_of(alloc: Global, files: &[FileReport]) -> Result<Vec<LineIndex>, Memory>
    ensures { IfOk result (λ indexes. AreIndexed files.now indexes.items) }
{
    let mut indexes = Vec::new(alloc);
    for file in files {
        indexes.push(line_index_of(alloc, file.source.as_slice())?)?;
    }
    Ok(indexes)
}

/// The line index of a file. Its bytes are gone through once.
fn line_index_of(alloc: Global, bytes: &[u8]) -> Result<LineIndex, Memory>
    ensures { IfOk result (λ index. ArePositions bytes.now index.positions.items) }
{
    let mut positions = Vec::new(alloc);
    let mut at = Position::first();
    for k in 0..bytes.len() / STRIDE + 1 {
        at = position_from(bytes, at, k * STRIDE);
        positions.push(at)?;
    }
    Ok(LineIndex { positions })
}

/// The position of an offset of the file with this number, or of the file's end where it is shorter.
pub fn position_in(report: &Report, indexes: &[LineIndex], file: usize, offset: u32) -> Position
    requires file { file < length report.now.files }
    requires indexes { AreIndexed report.now.files indexes.now }
    ensures { (it : FileReport) → slice_get report.now.files file ≡ Some it → IsPositionOf it.source offset result }
{
    let bytes = report.files.get(file).source.as_slice();
    position_of(bytes, index_at(indexes, file).positions.as_slice(), offset)
}

/// The line index at a number.
fn index_at(indexes: &[LineIndex], file: usize) -> &LineIndex
    requires { file < length indexes.now }
    ensures { result.now ≡ slice_index_or indexes.entry.now file result.now }
{
    &indexes[file]
}

/// The position of an offset, or of the file's end where the file is shorter.
fn position_of(bytes: &[u8], marks: &[Position], offset: u32) -> Position
    requires { ArePositions bytes.now marks.now }
    ensures { IsPositionOf bytes.now offset result }
{
    let offset = offset as usize;
    position_from(bytes, position_before(bytes, marks, offset), offset)
}

/// A mark that is near an offset and before it, or else the first byte.
fn position_before(bytes: &[u8], marks: &[Position], offset: usize) -> Position
    requires { ArePositions bytes.now marks.now }
    ensures { IsPosition bytes.now result }
{
    match marks.get(bytes.len().min(offset) / STRIDE) {
        Some(mark) => *mark,
        None => Position::first(),
    }
}

/// The position of an offset, or of the file's end where the file is shorter. From a position before it only the bytes between are gone through.
pub fn position_from(bytes: &[u8], from: Position, offset: usize) -> Position
    requires { IsPosition bytes.now from }
    ensures position { IsPosition bytes.now result }
    ensures of { IsPositionOf bytes.now offset result }
{
    let end = bytes.len().min(offset);
    moved(bytes, not_behind(from, end), end)
}

/// A position that isn't behind an offset: this one, or else the first.
fn not_behind(position: Position, offset: usize) -> Position
    ensures position { (bytes : List ℕ) → IsPosition bytes position → IsPosition bytes result }
    ensures order { result.offset ≤ offset }
{
    if offset < position.offset {
        Position::first()
    } else {
        position
    }
}

/// The position of an offset that is no less than that of a position.
fn moved(bytes: &[u8], from: Position, end: usize) -> Position
    requires from { IsPosition bytes.now from }
    requires order { from.offset ≤ end }
    requires within { end ≤ length bytes.now }
    ensures position { IsPosition bytes.now result }
    ensures offset { result.offset ≡ end }
{
    let mut line = from.line;
    let mut column = from.column;
    for k in from.offset..end {
        if bytes[k] == b'\n' {
            line += 1;
            column = 1;
        } else {
            column += 1;
        }
    }
    Position {
        offset: end,
        line,
        column,
    }
}

/// `FILE:LINE:COLUMN` of a position of a file with this name.
pub fn place_at(alloc: Global, file: &str, position: Position) -> Result<Text, Memory>
    ensures { IfOk result (λ place. place ≡ file.now ++ codes ":" ++ decimal position.line ++ codes ":" ++ decimal position.column) }
{
    let line = position.line;
    let column = position.column;
    let place = format!(in alloc; "{file}:{line}:{column}")?;
    Ok(Text::from_string(place))
}
