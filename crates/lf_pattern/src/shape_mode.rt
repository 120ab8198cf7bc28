//! What was read last of a pattern, as far as its shape goes, and what a character begins.
ghost use Rattle.std.specs.Prelude.{◌≡◌};
ghost use Rattle.lf_pattern.specs.ShapeScan.{kind_of, may_end};

use crate::plain::is_special;

/// What was read last, as far as the next character depends on it.
#[derive(Clone, Copy)]
pub(crate) enum ShapeMode {
    /// Nothing that a count may follow.
    Ready,
    /// An atom.
    Atom,
    /// A count.
    Lazy,
    /// A backslash.
    Escape,
    /// A `(`.
    Open,
    /// A `(?`.
    Quiet,
    /// A `[`.
    ClassStart,
    /// A `[` and at least one member. `opaque` says that it holds a backslash or a `[`.
    Class {
        first: char,
        last: char,
        opaque: bool,
    },
    /// A `[^`.
    NegatedStart,
    /// A `[^` and at least one member.
    Negated,
    /// A `{`.
    Brace,
    /// A `{` and the digits of a least count.
    Least(u32),
    /// The same and a comma.
    Comma(u32),
    /// The same and digits behind it.
    Most(u32),
    /// What isn't of the shape.
    Outside,
}

/// What a character can be that begins something.
#[derive(Clone, Copy)]
pub(crate) enum CharacterKind {
    Bar,
    Open,
    Close,
    Bracket,
    Backslash,
    Dot,
    /// `^` or `$`.
    Anchor,
    /// A character that begins nothing.
    Odd,
    Ordinary,
}

/// Whether the pattern may end in this mode.
pub(crate) fn may_end(mode: ShapeMode) -> bool
    ensures { result ≡ may_end mode }
{
    matches!(
        mode,
        ShapeMode::Ready | ShapeMode::Atom | ShapeMode::Lazy | ShapeMode::Open
    )
}

/// What a character is that begins something.
pub(crate) fn kind_of(c: char) -> CharacterKind
    ensures { result ≡ kind_of c }
{
    match c {
        '|' => CharacterKind::Bar,
        '(' => CharacterKind::Open,
        ')' => CharacterKind::Close,
        '[' => CharacterKind::Bracket,
        '\\' => CharacterKind::Backslash,
        '.' => CharacterKind::Dot,
        '^' | '$' => CharacterKind::Anchor,
        _ if is_special(c) => CharacterKind::Odd,
        _ => CharacterKind::Ordinary,
    }
}
