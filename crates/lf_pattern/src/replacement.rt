//! Plain replacements: texts in which `$$` stands for `$`, and `$n` and `${n}` stand for a group.
ghost use Rattle.std.specs.Prelude.{◌≡◌, ℕ, List, ◌∷◌, ◌++◌, map, IfOk};
ghost use Rattle.std.specs.Char.{digit_value};
ghost use Rattle.lf_pattern.specs.Replacement.{HasPieces};
ghost use Rattle.lf_pattern.specs.reading.Replacement.{bounded, pieces_of, with_digit};

use lf_base::{Memory, Seq, Text};
use std::alloc::Global;

/// A piece of a replacement.
#[derive(Clone, Copy, PartialEq, Eq, Debug)]
pub enum ReplacementPiece {
    /// This character.
    Char(char),
    /// The text of the group with this number.
    Group(usize),
}

/// What was read of the piece that is open.
#[derive(Clone, Copy)]
enum ReplacementMode {
    /// Nothing: no piece is open.
    Text,
    /// A `$`.
    Dollar,
    /// A `$` and the digits of this number.
    Number(usize),
    /// A `${` and the digits of this number.
    Braced(usize),
}

/// The pieces of a plain replacement. A number that the machine's numbers don't reach is told as the greatest of them.
pub fn pieces(alloc: Global, replacement: &Text) -> Result<Seq<ReplacementPiece>, Memory>
    ensures { (ps : List ReplacementPiece) → HasPieces replacement.now ps → IfOk result (λ found. found ≡ map bounded ps) }
{
    let characters: Vec<char> = replacement.as_str().chars().collect(alloc)?;
    scan(alloc, &characters)
}

/// The pieces of the characters.
fn scan(alloc: Global, characters: &[char]) -> Result<Seq<ReplacementPiece>, Memory>
    ensures { IfOk result (λ found. found ≡ pieces_of ReplacementMode.Text characters.now) }
{
    let mut pieces = Seq::new(alloc);
    let mut mode = ReplacementMode::Text;
    for c in characters {
        mode = step(&mut pieces, mode, *c)?;
    }
    if let ReplacementMode::Number(n) = mode {
        pieces.push(ReplacementPiece::Group(n))?;
    }
    Ok(pieces)
}

/// Reads a character, and says what is open behind it.
fn step(
    pieces: &mut Seq<ReplacementPiece>,
    mode: ReplacementMode,
    c: char,
) -> Result<ReplacementMode, Memory>
    ensures { (cs : List ℕ) → IfOk result (λ m. pieces.old ++ pieces_of mode (c ∷ cs) ≡ pieces.new ++ pieces_of m cs) }
{
    match mode {
        ReplacementMode::Text => text(pieces, c),
        ReplacementMode::Dollar => dollar(pieces, c),
        ReplacementMode::Number(n) => match c.to_digit(10) {
            Some(digit) => Ok(ReplacementMode::Number(with_digit(n, digit))),
            None => {
                pieces.push(ReplacementPiece::Group(n))?;
                text(pieces, c)
            }
        },
        ReplacementMode::Braced(n) => braced(pieces, n, c),
    }
}

/// Reads a character that no piece is open before.
#[tactic(auto, unfolding(crate::specs::reading::Replacement::pieces_of))]
fn text(pieces: &mut Seq<ReplacementPiece>, c: char) -> Result<ReplacementMode, Memory>
    ensures { (cs : List ℕ) → IfOk result (λ m. pieces.old ++ pieces_of ReplacementMode.Text (c ∷ cs) ≡ pieces.new ++ pieces_of m cs) }
{
    if c == '$' {
        return Ok(ReplacementMode::Dollar);
    }
    pieces.push(ReplacementPiece::Char(c))?;
    Ok(ReplacementMode::Text)
}

/// Reads a character behind a `$`.
#[tactic(auto, unfolding(crate::specs::reading::Replacement::pieces_of))]
fn dollar(pieces: &mut Seq<ReplacementPiece>, c: char) -> Result<ReplacementMode, Memory>
    ensures { (cs : List ℕ) → IfOk result (λ m. pieces.old ++ pieces_of ReplacementMode.Dollar (c ∷ cs) ≡ pieces.new ++ pieces_of m cs) }
{
    if c == '$' {
        pieces.push(ReplacementPiece::Char(c))?;
        return Ok(ReplacementMode::Text);
    }
    if c == '{' {
        return Ok(ReplacementMode::Braced(0));
    }
    match c.to_digit(10) {
        Some(digit) => Ok(ReplacementMode::Number(digit as usize)),
        None => Ok(ReplacementMode::Text),
    }
}

/// Reads a character behind a `${` and the digits of a number.
#[tactic(auto, unfolding(crate::specs::reading::Replacement::pieces_of))]
fn braced(pieces: &mut Seq<ReplacementPiece>, n: usize, c: char) -> Result<ReplacementMode, Memory>
    ensures { (cs : List ℕ) → IfOk result (λ m. pieces.old ++ pieces_of (ReplacementMode.Braced n) (c ∷ cs) ≡ pieces.new ++ pieces_of m cs) }
{
    if let Some(digit) = c.to_digit(10) {
        return Ok(ReplacementMode::Braced(with_digit(n, digit)));
    }
    if c == '}' {
        pieces.push(ReplacementPiece::Group(n))?;
    }
    Ok(ReplacementMode::Text)
}

/// A number with one more digit, or the greatest number.
fn with_digit(n: usize, digit: u32) -> usize
    ensures { (c : ℕ) → digit ≡ digit_value c → result ≡ with_digit n c }
{
    n.saturating_mul(10).saturating_add(digit as usize)
}
