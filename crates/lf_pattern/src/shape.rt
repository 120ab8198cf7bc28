//! The shape of a pattern, read from left to right for its low and its high sample.
ghost use Rattle.std.specs.Prelude.{◌≡◌, IfOk, reverse};
ghost use Rattle.std.specs.Str.{chars};
ghost use Rattle.lf_pattern.specs.ShapeScan.{barred, begun, behind_atom, class_pair, closed_onto, ended, escaped_by, flushed, in_class, in_least, in_mode, in_most, is_hidden, opened, read_from, start, state_of, stepped, value_of, with_atom, with_count};

use crate::plain::is_escapable;
use crate::sample::{Both, Sample};
use crate::shape_mode::{CharacterKind, ShapeMode, kind_of, may_end};
use lf_base::{Memory, Seq, Text};
use std::alloc::Global;

/// An open group, or the whole pattern: the low sample of its first alternative where that has ended, and the samples of the branch that is being read, but for its last
/// piece.
#[derive(Drop)]
struct GroupFrame {
    first: Option<Sample>,
    branch: Both,
}

/// What was read of a pattern.
#[derive(Drop)]
struct Reader {
    mode: ShapeMode,
    /// The samples of the last piece of the branch.
    piece: Both,
    frame: GroupFrame,
    /// The frames round this one, the innermost last.
    stack: Seq<GroupFrame>,
}

/// The low and the high sample of a pattern, or None where it isn't of the shape.
pub fn read_shape(alloc: Global, text: &Text) -> Result<Option<Both>, Memory>
    ensures { IfOk result (λ r. r ≡ read_from start (chars text.now)) }
{
    let characters: Vec<char> = text.as_str().chars().collect(alloc)?;
    read(alloc, &characters)
}

fn read(alloc: Global, characters: &[char]) -> Result<Option<Both>, Memory>
    ensures { IfOk result (λ r. r ≡ read_from start characters.now) }
{
    let mut reader = Reader::new(alloc);
    for c in characters {
        reader = reader.step(alloc, *c)?;
    }
    reader.end(alloc)
}

impl GroupFrame {
    /// The samples of the group, if its last branch ends here.
    fn value(self) -> Both
        ensures { result ≡ value_of self }
    {
        let GroupFrame { first, branch } = self;
        match first {
            None => branch,
            Some(low) => Both {
                low,
                high: branch.high,
            },
        }
    }
}

impl Reader {
    fn new(alloc: Global) -> Reader
        ensures { state_of result ≡ start }
    {
        Reader {
            mode: ShapeMode::Ready,
            piece: Both::nothing(alloc),
            frame: GroupFrame {
                first: None,
                branch: Both::nothing(alloc),
            },
            stack: Seq::new(alloc),
        }
    }

    /// The samples, if the pattern may end here.
    fn end(self, alloc: Global) -> Result<Option<Both>, Memory>
        ensures { IfOk result (λ r. r ≡ ended (state_of self)) }
    {
        if self.stack.len() > 0 || !may_end(self.mode) {
            return Ok(None);
        }
        let reader = self.flush(alloc)?;
        Ok(Some(reader.frame.value()))
    }

    /// Reads a character.
    #[tactic(auto, unfolding(crate::specs::ShapeScan::stepped))]
    fn step(self, alloc: Global, c: char) -> Result<Reader, Memory>
        ensures { IfOk result (λ r. state_of r ≡ stepped (state_of self) c) }
    {
        match self.mode {
            ShapeMode::Ready => self.begin(alloc, c),
            ShapeMode::Atom => self.behind_atom(alloc, c),
            ShapeMode::Lazy if c == '?' => Ok(self.in_mode(ShapeMode::Ready)),
            ShapeMode::Lazy => self.begin(alloc, c),
            ShapeMode::Escape => self.escaped(alloc, c),
            ShapeMode::Open if c == '?' => Ok(self.in_mode(ShapeMode::Quiet)),
            ShapeMode::Open => self.begin(alloc, c),
            ShapeMode::Quiet if c == ':' => Ok(self.in_mode(ShapeMode::Ready)),
            ShapeMode::Quiet => Ok(self.in_mode(ShapeMode::Outside)),
            ShapeMode::ClassStart if c == '^' => Ok(self.in_mode(ShapeMode::NegatedStart)),
            ShapeMode::ClassStart => Ok(self.in_mode(ShapeMode::Class {
                first: c,
                last: c,
                opaque: is_hidden(c),
            })),
            ShapeMode::Class {
                first,
                last,
                opaque,
            } => self.in_class(alloc, first, last, opaque, c),
            ShapeMode::NegatedStart => Ok(self.in_mode(ShapeMode::Negated)),
            ShapeMode::Negated if c == ']' => {
                let piece = Both::of(alloc, '0', 'a')?;
                Ok(self.with_atom(piece))
            }
            ShapeMode::Negated => Ok(self.in_mode(ShapeMode::Negated)),
            ShapeMode::Brace => match c.to_digit(10) {
                Some(digit) => Ok(self.in_mode(ShapeMode::Least(digit))),
                None => Ok(self.in_mode(ShapeMode::Outside)),
            },
            ShapeMode::Least(n) => self.in_least(alloc, n, c),
            ShapeMode::Comma(n) | ShapeMode::Most(n) => self.in_most(alloc, n, c),
            ShapeMode::Outside => Ok(self),
        }
    }

    fn in_mode(self, mode: ShapeMode) -> Reader
        ensures { state_of result ≡ in_mode mode (state_of self) }
    {
        Reader { mode, ..self }
    }

    /// An atom with these samples was read.
    fn with_atom(self, piece: Both) -> Reader
        ensures { state_of result ≡ with_atom piece (state_of self) }
    {
        Reader {
            mode: ShapeMode::Atom,
            piece,
            ..self
        }
    }

    /// A count was read, with this least number.
    fn with_count(self, alloc: Global, least: u32) -> Result<Reader, Memory>
        ensures { IfOk result (λ r. state_of r ≡ with_count least (state_of self)) }
    {
        let piece = self.piece.counted(alloc, least)?;
        Ok(Reader {
            mode: ShapeMode::Lazy,
            piece,
            ..self
        })
    }

    /// Puts the last piece into its branch.
    fn flush(self, alloc: Global) -> Result<Reader, Memory>
        ensures { IfOk result (λ r. state_of r ≡ flushed (state_of self)) }
    {
        let Reader {
            mode,
            piece,
            frame,
            stack,
        } = self;
        let branch = frame.branch.followed(&piece)?;
        Ok(Reader {
            mode,
            piece: Both::nothing(alloc),
            frame: GroupFrame {
                first: frame.first,
                branch,
            },
            stack,
        })
    }

    /// Reads a character that begins something.
    fn begin(self, alloc: Global, c: char) -> Result<Reader, Memory>
        ensures { IfOk result (λ r. state_of r ≡ begun (state_of self) c) }
    {
        let reader = self.flush(alloc)?;
        match kind_of(c) {
            CharacterKind::Bar => Ok(reader.bar(alloc)),
            CharacterKind::Open => reader.open(alloc),
            CharacterKind::Close => Ok(reader.close()),
            CharacterKind::Bracket => Ok(reader.in_mode(ShapeMode::ClassStart)),
            CharacterKind::Backslash => Ok(reader.in_mode(ShapeMode::Escape)),
            CharacterKind::Dot => {
                let piece = Both::of(alloc, '0', 'a')?;
                Ok(reader.with_atom(piece))
            }
            CharacterKind::Anchor => Ok(reader.with_atom(Both::nothing(alloc))),
            CharacterKind::Odd => Ok(reader.in_mode(ShapeMode::Outside)),
            CharacterKind::Ordinary => {
                let piece = Both::of(alloc, c, c)?;
                Ok(reader.with_atom(piece))
            }
        }
    }

    /// Reads a `|`.
    fn bar(self, alloc: Global) -> Reader
        ensures { state_of result ≡ barred (state_of self) }
    {
        let Reader {
            piece,
            frame,
            stack,
            ..
        } = self;
        let first = frame.value().low;
        Reader {
            mode: ShapeMode::Ready,
            piece,
            frame: GroupFrame {
                first: Some(first),
                branch: Both::nothing(alloc),
            },
            stack,
        }
    }

    /// Reads a `(`.
    fn open(self, alloc: Global) -> Result<Reader, Memory>
        ensures { IfOk result (λ r. state_of r ≡ opened (state_of self)) }
    {
        let Reader {
            piece,
            frame,
            mut stack,
            ..
        } = self;
        stack.push(frame)?;
        Ok(Reader {
            mode: ShapeMode::Open,
            piece,
            frame: GroupFrame {
                first: None,
                branch: Both::nothing(alloc),
            },
            stack,
        })
    }

    /// Reads a `)`.
    fn close(self) -> Reader
        ensures { state_of result ≡ closed_onto (reverse self.stack) (state_of self) }
    {
        let Reader {
            piece,
            frame,
            mut stack,
            ..
        } = self;
        match stack.pop() {
            None => Reader {
                mode: ShapeMode::Outside,
                piece,
                frame,
                stack,
            },
            Some(outer) => Reader {
                mode: ShapeMode::Atom,
                piece: frame.value(),
                frame: outer,
                stack,
            },
        }
    }

    /// Reads a character behind an atom.
    fn behind_atom(self, alloc: Global, c: char) -> Result<Reader, Memory>
        ensures { IfOk result (λ r. state_of r ≡ behind_atom (state_of self) c) }
    {
        match c {
            '*' | '?' => self.with_count(alloc, 0),
            '+' => self.with_count(alloc, 1),
            '{' => Ok(self.in_mode(ShapeMode::Brace)),
            _ => self.begin(alloc, c),
        }
    }

    /// Reads a character behind a backslash.
    fn escaped(self, alloc: Global, c: char) -> Result<Reader, Memory>
        ensures { IfOk result (λ r. state_of r ≡ escaped_by (state_of self) c) }
    {
        let stands_for = match c {
            'd' => '0',
            'w' => 'a',
            's' => ' ',
            _ if is_escapable(c) => c,
            _ => return Ok(self.in_mode(ShapeMode::Outside)),
        };
        let piece = Both::of(alloc, stands_for, stands_for)?;
        Ok(self.with_atom(piece))
    }

    /// Reads a character in a class behind its first member.
    fn in_class(
        self,
        alloc: Global,
        first: char,
        last: char,
        opaque: bool,
        c: char,
    ) -> Result<Reader, Memory>
        ensures { IfOk result (λ r. state_of r ≡ in_class first last opaque (state_of self) c) }
    {
        if c != ']' {
            let opaque = opaque || is_hidden(c);
            return Ok(self.in_mode(ShapeMode::Class {
                first,
                last: c,
                opaque,
            }));
        }
        let piece = class_samples(alloc, first, last, opaque)?;
        Ok(self.with_atom(piece))
    }

    /// Reads a character behind the digits of a least count.
    fn in_least(self, alloc: Global, n: u32, c: char) -> Result<Reader, Memory>
        ensures { IfOk result (λ r. state_of r ≡ in_least n (state_of self) c) }
    {
        if let Some(digit) = c.to_digit(10) {
            let longer = n.saturating_mul(10).saturating_add(digit);
            let mode = if longer <= 64 {
                ShapeMode::Least(longer)
            } else {
                ShapeMode::Outside
            };
            return Ok(self.in_mode(mode));
        }
        match c {
            '}' => self.with_count(alloc, n),
            ',' => Ok(self.in_mode(ShapeMode::Comma(n))),
            _ => Ok(self.in_mode(ShapeMode::Outside)),
        }
    }

    /// Reads a character behind the comma of a count.
    fn in_most(self, alloc: Global, n: u32, c: char) -> Result<Reader, Memory>
        ensures { IfOk result (λ r. state_of r ≡ in_most n (state_of self) c) }
    {
        if c.is_ascii_digit() {
            return Ok(self.in_mode(ShapeMode::Most(n)));
        }
        match c {
            '}' => self.with_count(alloc, n),
            _ => Ok(self.in_mode(ShapeMode::Outside)),
        }
    }
}

/// The samples of a class, by its first and its last member.
fn class_samples(alloc: Global, first: char, last: char, opaque: bool) -> Result<Both, Memory>
    ensures { IfOk result (λ b. b ≡ class_pair first last opaque) }
{
    if opaque {
        Both::of(alloc, '0', 'a')
    } else {
        Both::of(alloc, first, last)
    }
}

/// Whether it is a backslash or a `[`.
fn is_hidden(c: char) -> bool
    ensures { result ≡ is_hidden c }
{
    c == '\\' || c == '['
}
