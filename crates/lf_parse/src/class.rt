//! What a word is to the grammar.
ghost use Rattle.std.specs.Prelude.{◌≡◌, map};
ghost use Rattle.std.specs.Char.{to_ascii_lowercase};
ghost use Rattle.std.specs.Str.{bytes_eq};
ghost use Rattle.lf_parse.specs.views.Values.{entries};
ghost use Rattle.lf_parse.specs.Tokens as tokens;

use lf_ast::{Agg, Op};

/// The two ways to say the labels of a group: those that are kept and those that are dropped.
#[derive(Clone, Copy, Drop)]
pub enum Clause {
    By,
    Without,
}

/// The two ways to say the labels of a signature: those that are compared and those that aren't.
#[derive(Clone, Copy, Drop)]
pub enum Scope {
    On,
    Ignoring,
}

/// The side of an operator that has several samples for one of the other.
#[derive(Clone, Copy, Drop)]
pub enum Side {
    Left,
    Right,
}

/// The two ends of the range of a query.
#[derive(Clone, Copy, Drop)]
pub enum RangeEnd {
    Start,
    End,
}

/// The class of a word without a colon.
#[derive(Clone, Copy, Drop)]
pub enum WordClass {
    /// A metric, a function or a label.
    Plain,
    /// `start` and `end`: ordinary words but behind an `@`.
    Edge(RangeEnd),
    /// `inf` and `nan`
    Numeric,
    /// `and`, `or`, `unless` and `atan2`
    Operator(Op),
    /// The name of an aggregation.
    Aggregation(Agg),
    /// `by` and `without`
    Grouping(Clause),
    /// `on` and `ignoring`
    Matching(Scope),
    /// `group_left` and `group_right`
    Group(Side),
    /// `offset`
    Offset,
    /// `bool`
    Bool,
}

/// The words that are more than names, in lower case: those of two bytes.
const OF_TWO: [(&str, WordClass); 3] = [
    ("or", WordClass::Operator(Op::Or)),
    ("by", WordClass::Grouping(Clause::By)),
    ("on", WordClass::Matching(Scope::On)),
];

/// Those of three bytes.
const OF_THREE: [(&str, WordClass); 8] = [
    ("and", WordClass::Operator(Op::And)),
    ("inf", WordClass::Numeric),
    ("nan", WordClass::Numeric),
    ("end", WordClass::Edge(RangeEnd::End)),
    ("sum", WordClass::Aggregation(Agg::Sum)),
    ("min", WordClass::Aggregation(Agg::Min)),
    ("max", WordClass::Aggregation(Agg::Max)),
    ("avg", WordClass::Aggregation(Agg::Avg)),
];

/// Those of four bytes.
const OF_FOUR: [(&str, WordClass); 2] = [
    ("bool", WordClass::Bool),
    ("topk", WordClass::Aggregation(Agg::Topk)),
];

/// Those of five bytes.
const OF_FIVE: [(&str, WordClass); 4] = [
    ("atan2", WordClass::Operator(Op::Atan2)),
    ("start", WordClass::Edge(RangeEnd::Start)),
    ("group", WordClass::Aggregation(Agg::Group)),
    ("count", WordClass::Aggregation(Agg::Count)),
];

/// Those of six bytes.
const OF_SIX: [(&str, WordClass); 4] = [
    ("unless", WordClass::Operator(Op::Unless)),
    ("offset", WordClass::Offset),
    ("stddev", WordClass::Aggregation(Agg::Stddev)),
    ("stdvar", WordClass::Aggregation(Agg::Stdvar)),
];

/// Those of seven bytes.
const OF_SEVEN: [(&str, WordClass); 2] = [
    ("without", WordClass::Grouping(Clause::Without)),
    ("bottomk", WordClass::Aggregation(Agg::Bottomk)),
];

/// Those of eight bytes.
const OF_EIGHT: [(&str, WordClass); 2] = [
    ("ignoring", WordClass::Matching(Scope::Ignoring)),
    ("quantile", WordClass::Aggregation(Agg::Quantile)),
];

/// Those of ten bytes.
const OF_TEN: [(&str, WordClass); 1] = [("group_left", WordClass::Group(Side::Left))];

/// Those of eleven bytes.
const OF_ELEVEN: [(&str, WordClass); 1] = [("group_right", WordClass::Group(Side::Right))];

/// Those of twelve bytes.
const OF_TWELVE: [(&str, WordClass); 1] = [(
    "count_values",
    WordClass::Aggregation(Agg::CountValues),
)];

/// The class of a word without a colon, in any case of letters. It is compared with the words that are as long.
pub fn class_of(text: &str) -> WordClass
    ensures { result ≡ tokens.class_of text.now }
{
    match text.len() {
        0 => WordClass::Plain,
        1 => WordClass::Plain,
        2 => class_in(text, &OF_TWO),
        3 => class_in(text, &OF_THREE),
        4 => class_in(text, &OF_FOUR),
        5 => class_in(text, &OF_FIVE),
        6 => class_in(text, &OF_SIX),
        7 => class_in(text, &OF_SEVEN),
        8 => class_in(text, &OF_EIGHT),
        9 => WordClass::Plain,
        10 => class_in(text, &OF_TEN),
        11 => class_in(text, &OF_ELEVEN),
        12 => class_in(text, &OF_TWELVE),
        13.. => WordClass::Plain,
    }
}

/// The class that a table gives to a word, in any case of letters, or else `Plain`.
fn class_in(text: &str, words: &[(&str, WordClass)]) -> WordClass
    ensures { result ≡ tokens.class_in (map to_ascii_lowercase text.now) (entries words.now) }
{
    for (word, class) in words {
        if is_word(text, word) {
            return *class;
        }
    }
    WordClass::Plain
}

/// Whether a text is a word, in any case of letters.
fn is_word(text: &str, word: &str) -> bool
    ensures { result ≡ bytes_eq (map to_ascii_lowercase text.now) (map to_ascii_lowercase word.now) }
{
    text.eq_ignore_ascii_case(word)
}
