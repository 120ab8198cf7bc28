//! Scalars between quotes.
ghost use Rattle.std.specs.Prelude.{false, ◌≡◌, ℕ, ◌+◌, ◌<◌, ◌≤◌, ◌^◌, length, drop, cond, ◌++◌, IfOk, OnOk};
ghost use Rattle.lf_scalar.specs.Cells.{cells};
ghost use Rattle.lf_scalar.specs.reading.Quoted.{Reaches, is_blank_value, LineAnswers, broken, line_at, line_of, next_line};
ghost use Rattle.lf_scalar.specs.Quoted.{filled};
ghost use Rattle.lf_scalar.specs.Lines.{is_blank};
ghost use Rattle.std.specs.List.{list_all};

use crate::builder::{ScalarBuilder, feed, fold_break};
use crate::escapes::{PieceValue, piece, push_piece_value};
use crate::lines::{blanks, past};
use crate::markers::is_marker;
use crate::quotes::Quotes;
use lf_base::{Kind, Memory, Refusal, Span};

/// How far the pieces at the front of a line go.
#[derive(Clone, Copy, PartialEq, Eq, Debug)]
pub struct Reach {
    /// How many bytes of the line are pieces.
    pub stop: usize,
    /// How long the text is without the blanks at the end of what they gave, those of escapes aside.
    pub kept: usize,
}

/// Appends what the pieces at the front of a line between quotes give, as many as stand there.
pub fn push_pieces(
    builder: &mut ScalarBuilder,
    kind: Quotes,
    line: &[u8],
    at: u32,
) -> Result<Reach, Memory>
    requires { at + length line.now < 2 ^ 32 }
    ensures reaches { IfOk result (λ reach. Reaches kind (cells at line.now) builder.old builder.new reach.kept (cells (at + reach.stop) (drop reach.stop line.now))) }
    ensures within { IfOk result (λ reach. reach.stop ≤ length line.now) }
{
    let mut stop: usize = 0;
    let mut kept = builder.len();
    while stop < line.len() {
        let place = at + stop as u32;
        let Some((given, behind)) = piece(kind, past(line, stop), place) else {
            break;
        };
        push_piece_value(builder, given, place)?;
        kept = kept_behind(builder.len(), given, kept);
        stop += 1 + behind;
    }
    Ok(Reach { stop, kept })
}

/// How long the text is without blanks at its end, once a piece made it so long.
fn kept_behind(len: usize, given: PieceValue, kept: usize) -> usize
    ensures { result ≡ cond (is_blank_value given) kept len }
{
    match given {
        PieceValue::Byte(b' ') => kept,
        PieceValue::Byte(b'\t') => kept,
        PieceValue::Byte(_) => len,
        PieceValue::Char(_) => len,
    }
}

/// What becomes of a line break between quotes.
#[derive(Clone, Copy, PartialEq, Eq, Debug)]
pub enum AtBreak {
    /// It is folded.
    Fold,
    /// A backslash before it drops it.
    Drop,
}

/// Appends what a line between quotes gives, without the blanks before a line break that is folded. It ends at the line's end or at the quote that closes, and is refused
/// where a backslash begins no escape.
pub fn push_line(
    builder: &mut ScalarBuilder,
    kind: Quotes,
    line: &[u8],
    at: u32,
) -> Result<AtBreak, Refusal>
    requires { at + length line.now + 1 < 2 ^ 32 }
    ensures { (break_at : ℕ) → LineAnswers result builder.old builder.new break_at (line_of kind (line_at at line.now break_at)) }
{
    let reach = match push_pieces(builder, kind, line, at) {
        Ok(reach) => reach,
        Err(_) => return Err(Refusal::Memory),
    };
    if reach.stop >= line.len() {
        builder.truncate(reach.kept);
        return Ok(AtBreak::Fold);
    }
    if line[reach.stop] != b'\\' {
        return Ok(AtBreak::Fold);
    }
    if reach.stop + 1 >= line.len() {
        return Ok(AtBreak::Drop);
    }
    let place = at + reach.stop as u32;
    Err(Refusal::At {
        kind: Kind::BadEscape,
        span: Span {
            start: place,
            end: place + 1,
        },
    })
}

/// Appends what a line break at an offset becomes, with so many blank lines behind it.
pub fn fill(
    builder: &mut ScalarBuilder,
    at_break: AtBreak,
    blank: usize,
    at: u32,
) -> Result<(), Memory>
    ensures { OnOk result (builder.new ≡ builder.old ++ filled (broken at_break at) blank) }
{
    match at_break {
        AtBreak::Fold => fold_break(builder, blank, at),
        AtBreak::Drop => feed(builder, blank, at),
    }
}

/// A line break that waits for what follows it: what becomes of it, where it stands, and how many blank lines stand behind it.
#[derive(Clone, Copy, PartialEq, Eq, Debug)]
pub struct PendingBreak {
    pub at_break: AtBreak,
    pub at: u32,
    pub blank: usize,
}

/// Appends what a line break becomes and what the line behind it gives. The line isn't blank, and is refused where it begins with the marker of a document.
pub fn push_next(
    builder: &mut ScalarBuilder,
    kind: Quotes,
    pending: PendingBreak,
    line: &[u8],
    at: u32,
) -> Result<AtBreak, Refusal>
    requires room { at + length line.now + 1 < 2 ^ 32 }
    requires full { list_all is_blank (cells at line.now) ≡ false }
    ensures { (break_at : ℕ) → LineAnswers result builder.old builder.new break_at (next_line kind (broken pending.at_break pending.at) pending.blank (line_at at line.now break_at)) }
{
    if is_marker(line) {
        return Err(Refusal::At {
            kind: Kind::LeftOut,
            span: Span {
                start: at,
                end: at + 1,
            },
        });
    }
    match fill(builder, pending.at_break, pending.blank, pending.at) {
        Ok(()) => {}
        Err(_) => return Err(Refusal::Memory),
    }
    let skipped = blanks(line);
    push_line(builder, kind, past(line, skipped), at + skipped as u32)
}
