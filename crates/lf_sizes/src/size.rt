//! The size of a pattern and its width, which are read from left to right.
ghost use Rattle.std.specs.Prelude.{◌≡◌, IfOk};
ghost use Rattle.lf_sizes.specs.Sizes.{atom, class, count, ending, escaped, in_size, in_width, is_flag, mark, measured, more, no_mark, opens, said, said_in_braces, said_in_brackets, size_of, width_of};
ghost use Rattle.lf_sizes.specs.views.Size.{reads, size_from, start, state_of, stepped, total};

use lf_base::{Memory, Seq};
use std::alloc::Global;

/// What classes, loops, alternatives, groups and commas in braces count.
#[derive(Clone, Copy)]
struct Weights {
    /// What `\w`, `\p` and their opposites count, a class in brackets where letters match their other cases too, and what may be anything.
    letters: u64,
    /// What `\d` and `\D` count.
    digits: u64,
    /// What `\s` and `\S` count, a dot, and mostly a class in brackets, beside each byte in it.
    few: u64,
    /// What a character counts where letters match their other cases too.
    folded: u64,
    /// What a comma in braces counts, by which some of what is counted may be left out.
    optional: u64,
    /// What a `*`, a `+` and a `?` count.
    repeated: u64,
    /// What a `|` counts.
    either: u64,
    /// What the end of a group counts beside 1.
    ended: u64,
}

/// Where the next byte stands.
#[derive(Clone, Copy)]
enum Mode {
    /// Nowhere in particular.
    Ready,
    /// Behind a backslash.
    Escape,
    /// Behind a `(`.
    Open,
    /// Behind a `(?` and perhaps letters.
    Flags,
    /// In the name of a group, in which brackets may stand too.
    Name,
    /// In so many brackets, behind the `[` of the innermost.
    Bracket(u64),
    /// In so many brackets, behind the `[^` of the innermost.
    Negated(u64),
    /// In so many brackets.
    Class(u64),
    /// In so many brackets, behind a backslash.
    ClassEscape(u64),
    /// In braces, behind numbers of which this is the greatest, and digits of another.
    Count { greatest: u64, number: u64 },
    /// Behind the flag `x`, by which blanks and comments count as nothing.
    Verbose,
}

/// What was read of a pattern.
#[derive(Drop)]
struct Reader {
    weights: Weights,
    mode: Mode,
    /// The size of a character.
    character: u64,
    /// The size of what a count would count.
    last: u64,
    /// The size of what stands before that in its group.
    sum: u64,
    /// The sizes of what stands before each open group, in the group round it. The first is the group that is put round the pattern.
    outer: Seq<u64>,
}

/// The size of a pattern, counted byte by byte: a character counts 1, one beyond ASCII a 1 more for each further byte, and a character behind a flag `i` 8; a dot 16, a class of
/// Unicode's characters 16 to 512, and a class in brackets 16, or 512 behind that flag, and a 1 for each byte in it; a `|` 6, a `*`, a `+` and a `?` 4, and the end of a
/// group 3. What stands before a number in braces counts as often as the number says, and once at least; so does the `x` of `\x{41}`. No size is greater than 2^64 - 1, which
/// that of a pattern with a number in braces behind the flag `x` is.
pub fn pattern_size(alloc: Global, pattern: &str) -> Result<u64, Memory>
    ensures { IfOk result (λ size. size ≡ size_of pattern.now) }
{
    measure(alloc, Weights::in_size(), pattern)
}

/// The width of a pattern: about in how many states at once a program may be that tries it. It is counted as the size is, but that a `|`, a `*`, a `+`, a `?`, the end of a group
/// and a comma in braces count 1, a class of Unicode's characters 2 to 8, a dot and a character behind a flag `i` 2, and a class in brackets 2, or 8 behind that flag, and a 1
/// for each byte in it.
pub fn pattern_width(alloc: Global, pattern: &str) -> Result<u64, Memory>
    ensures { IfOk result (λ width. width ≡ width_of pattern.now) }
{
    measure(alloc, Weights::in_width(), pattern)
}

/// What a pattern counts by these weights.
#[tactic(auto, using(crate::proofs::Sizes::law))]
fn measure(alloc: Global, weights: Weights, pattern: &str) -> Result<u64, Memory>
    ensures { IfOk result (λ n. n ≡ measured weights pattern.now) }
{
    read(alloc, weights, pattern.as_bytes())
}

/// What a pattern of these bytes counts.
fn read(alloc: Global, weights: Weights, bytes: &[u8]) -> Result<u64, Memory>
    ensures { IfOk result (λ n. n ≡ size_from (start weights) bytes.now) }
{
    let mut reader = Reader::new(alloc, weights)?;
    for byte in bytes {
        reader = reader.step(*byte)?;
    }
    Ok(reader.total())
}

impl Weights {
    /// In a size: about as many as a class has ranges of characters, of up to four bytes each. The letters of Unicode are some hundred.
    fn in_size() -> Weights
        ensures { result ≡ in_size }
    {
        Weights {
            letters: 512,
            digits: 64,
            few: 16,
            folded: 8,
            optional: 0,
            repeated: 4,
            either: 6,
            ended: 2,
        }
    }

    /// In a width: about as many as a class has ranges of first bytes, which are gone through to find the next state.
    fn in_width() -> Weights
        ensures { result ≡ in_width }
    {
        Weights {
            letters: 8,
            digits: 4,
            few: 2,
            folded: 2,
            optional: 1,
            repeated: 1,
            either: 1,
            ended: 0,
        }
    }

    /// What a byte behind a backslash counts: a class of Unicode's characters, or a character.
    fn escaped(self, byte: u8) -> u64
        ensures { result ≡ escaped self byte }
    {
        match byte {
            b'p' | b'P' | b'w' | b'W' => self.letters,
            b'd' | b'D' => self.digits,
            b's' | b'S' => self.few,
            _ => 1,
        }
    }

    /// What a class in brackets counts where a character counts so much. Where letters match their other cases too, these are looked for in all of it.
    fn class(self, character: u64) -> u64
        ensures { result ≡ class self character }
    {
        if character == self.folded {
            self.letters
        } else {
            self.few
        }
    }
}

impl Reader {
    fn new(alloc: Global, weights: Weights) -> Result<Reader, Memory>
        ensures { IfOk result (λ r. state_of r ≡ start weights) }
    {
        let mut outer = Seq::new(alloc);
        outer.push(0)?;
        Ok(Reader {
            weights,
            mode: Mode::Ready,
            character: 1,
            last: 0,
            sum: 0,
            outer,
        })
    }

    /// What all that was read counts.
    fn total(self) -> u64
        ensures { result ≡ total (state_of self) }
    {
        let mut outer = self.outer;
        let mut size = self.sum.saturating_add(self.last);
        while let Some(before) = outer.pop() {
            size = size.saturating_add(before);
        }
        size
    }

    /// Reads a byte.
    #[tactic(auto, unfolding(crate::specs::views::Size::stepped))]
    fn step(self, byte: u8) -> Result<Reader, Memory>
        ensures { IfOk result (λ r. state_of r ≡ stepped (state_of self) byte) }
    {
        match self.mode {
            Mode::Ready => self.begin(byte),
            Mode::Escape => {
                let size = self.weights.escaped(byte);
                Ok(self.with_atom(size))
            }
            Mode::Open if byte == b'?' => Ok(self.in_mode(Mode::Flags)),
            Mode::Open => self.begin(byte),
            Mode::Flags if byte == b'x' => Ok(self.in_mode(Mode::Verbose)),
            Mode::Flags if byte == b'i' => Ok(self.folding()),
            Mode::Flags if is_flag(byte) => Ok(self),
            Mode::Flags if byte == b'<' => Ok(self.in_name(Mode::Name)),
            Mode::Flags => self.begin(byte),
            Mode::Name if byte == b'>' => Ok(self.in_name(Mode::Ready)),
            Mode::Name => Ok(self.in_name(Mode::Name)),
            Mode::Bracket(depth) if byte == b'^' => Ok(self.in_mode(Mode::Negated(depth))),
            Mode::Bracket(depth) | Mode::Negated(depth) if byte == b']' => {
                Ok(self.larger(1, Mode::Class(depth)))
            }
            Mode::Bracket(depth) | Mode::Negated(depth) | Mode::Class(depth) => {
                Ok(self.in_brackets(depth, byte))
            }
            Mode::ClassEscape(depth) => {
                let size = self.weights.escaped(byte);
                Ok(self.larger(size, Mode::Class(depth)))
            }
            Mode::Count { greatest, number } => Ok(self.in_count(greatest, number, byte)),
            Mode::Verbose if byte == b'{' => Ok(self.counted(u64::MAX, Mode::Verbose)),
            Mode::Verbose => {
                let size = self.weights.letters;
                Ok(self.larger(size, Mode::Verbose))
            }
        }
    }

    fn in_mode(self, mode: Mode) -> Reader
        ensures { state_of result ≡ reads (no_mark mode self.character) (state_of self) }
    {
        Reader { mode, ..self }
    }

    /// Letters match their other cases from here on.
    fn folding(self) -> Reader
        ensures { state_of result ≡ reads (no_mark self.mode self.weights.folded) (state_of self) }
    {
        Reader {
            character: self.weights.folded,
            ..self
        }
    }

    /// An atom of this size was read.
    fn with_atom(self, size: u64) -> Reader
        ensures { state_of result ≡ reads (mark (atom size) Mode.Ready self.character) (state_of self) }
    {
        Reader {
            mode: Mode::Ready,
            last: size,
            sum: self.sum.saturating_add(self.last),
            ..self
        }
    }

    /// A byte of a group's name was read.
    fn in_name(self, mode: Mode) -> Reader
        ensures { state_of result ≡ reads (mark (atom self.character) mode self.character) (state_of self) }
    {
        let size = self.character;
        self.with_atom(size).in_mode(mode)
    }

    /// What was read last is so much larger.
    fn larger(self, size: u64, mode: Mode) -> Reader
        ensures { state_of result ≡ reads (mark (more size) mode self.character) (state_of self) }
    {
        Reader {
            mode,
            last: self.last.saturating_add(size),
            ..self
        }
    }

    /// What was read last counts this often.
    fn counted(self, times: u64, mode: Mode) -> Reader
        ensures { state_of result ≡ reads (mark (count times) mode self.character) (state_of self) }
    {
        Reader {
            mode,
            last: self.last.saturating_mul(times.max(1)),
            ..self
        }
    }

    /// Reads a byte that stands nowhere in particular.
    fn begin(self, byte: u8) -> Result<Reader, Memory>
        ensures { IfOk result (λ r. state_of r ≡ reads (said self.weights self.character byte) (state_of self)) }
    {
        match byte {
            b'(' => self.open(),
            b')' => Ok(self.close()),
            b'[' => {
                let size = self.weights.class(self.character);
                Ok(self.with_atom(size).in_mode(Mode::Bracket(1)))
            }
            b'{' => Ok(self.in_mode(Mode::Count {
                greatest: 0,
                number: 0,
            })),
            b'\\' => Ok(self.in_mode(Mode::Escape)),
            b'.' => {
                let size = self.weights.few;
                Ok(self.with_atom(size))
            }
            b'*' | b'+' | b'?' => {
                let size = self.weights.repeated;
                Ok(self.larger(size, Mode::Ready))
            }
            b'|' => {
                let size = self.weights.either;
                Ok(self.with_atom(size))
            }
            // A byte of a character behind its first.
            0x80..=0xBF => Ok(self.larger(1, Mode::Ready)),
            _ => {
                let size = self.character;
                Ok(self.with_atom(size))
            }
        }
    }

    /// Reads a `(`.
    fn open(self) -> Result<Reader, Memory>
        ensures { IfOk result (λ r. state_of r ≡ reads (mark opens Mode.Open self.character) (state_of self)) }
    {
        let before = self.sum.saturating_add(self.last);
        let mut outer = self.outer;
        outer.push(before)?;
        Ok(Reader {
            weights: self.weights,
            mode: Mode::Open,
            character: self.character,
            last: 0,
            sum: 0,
            outer,
        })
    }

    /// Reads a `)`. Where no group is open, not even the one that is put round the pattern, it counts as much, by itself.
    fn close(self) -> Reader
        ensures { state_of result ≡ reads (ending self.weights self.character) (state_of self) }
    {
        let size = self.sum.saturating_add(self.last);
        let mut outer = self.outer;
        let (last, sum) = match outer.pop() {
            Some(before) => (size.saturating_add(1), before),
            None => (1, size),
        };
        Reader {
            weights: self.weights,
            mode: Mode::Ready,
            character: self.character,
            last: last.saturating_add(self.weights.ended),
            sum,
            outer,
        }
    }

    /// Reads a byte in so many brackets.
    fn in_brackets(self, depth: u64, byte: u8) -> Reader
        ensures { state_of result ≡ reads (said_in_brackets self.weights depth self.character byte) (state_of self) }
    {
        match byte {
            b'[' => {
                let size = self.weights.class(self.character);
                self.larger(size, Mode::Bracket(depth.saturating_add(1)))
            }
            b']' if depth <= 1 => self.in_mode(Mode::Ready),
            b']' => self.in_mode(Mode::Class(depth - 1)),
            b'\\' => self.in_mode(Mode::ClassEscape(depth)),
            _ => self.larger(1, Mode::Class(depth)),
        }
    }

    /// Reads a byte in braces.
    fn in_count(self, greatest: u64, number: u64, byte: u8) -> Reader
        ensures { state_of result ≡ reads (said_in_braces self.weights greatest number self.character byte) (state_of self) }
    {
        match byte {
            b'0'..=b'9' => self.in_mode(Mode::Count {
                greatest,
                number: number
                    .saturating_mul(10)
                    .saturating_add(u64::from(byte - b'0')),
            }),
            b'}' => self.counted(greatest.max(number), Mode::Ready),
            b',' => {
                let size = self.weights.optional;
                let greatest = greatest.max(number);
                self.larger(
                    size,
                    Mode::Count {
                        greatest,
                        number: 0,
                    },
                )
            }
            _ => self.in_mode(Mode::Count {
                greatest: greatest.max(number),
                number: 0,
            }),
        }
    }
}

/// Whether a byte behind a `(?` may be one of several flags.
fn is_flag(byte: u8) -> bool
    ensures { result ≡ is_flag byte }
{
    matches!(byte, b'-' | b'A'..=b'Z' | b'a'..=b'z')
}
