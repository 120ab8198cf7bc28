//! What the actions of a template are made of.

/// A word, by what it does at the head of an action.
#[derive(Clone, Copy, PartialEq, Eq, Debug)]
pub enum Word {
    If,
    Range,
    With,
    Define,
    Block,
    Else,
    End,
    /// Any other word.
    Other,
}

/// A variable, by its name.
#[derive(Clone, Copy, PartialEq, Eq, Debug)]
pub enum Variable {
    /// `$labels`
    Labels,
    /// `$` alone, which stands for the data that the template is given.
    Root,
    /// Any other.
    Other,
}

/// What stands between the braces of an action.
#[derive(Clone, Copy, PartialEq, Eq, Debug)]
pub enum ActionToken {
    /// A space or a tab (`inline`), or a byte of a line break.
    Blank { inline: bool },
    /// The `-` of `{{-` or `-}}`.
    Trim,
    /// A comment, `/*` and `*/` included.
    Comment,
    Word { word: Word },
    Variable { variable: Variable },
    /// A dot and a word, which is `Labels` or another.
    Field { labels: bool },
    /// `(`
    Open,
    /// `)`
    Close,
    /// `:=`, `=` or `,`: what stands behind a variable that is set.
    Setting,
    /// A string, a number, a lone dot, or one of `|`, `+` and `-`.
    Plain,
    /// A byte that begins none of these.
    Wrong,
}

/// A token as it stands in an action.
#[derive(Clone, Copy, PartialEq, Eq, Debug)]
pub struct Lexeme {
    /// What it is.
    pub token: ActionToken,
    /// How many bytes it has.
    pub len: usize,
}

/// A reference to a label, by offsets in the text.
#[derive(Clone, Copy, PartialEq, Eq, Debug)]
pub struct ReferenceSpan {
    /// Where it begins.
    pub start: usize,
    /// Where the label's name begins.
    pub name: usize,
    /// Where both end.
    pub end: usize,
}

/// What stands before a token in its action, as far as the token depends on it.
#[derive(Clone, Copy, PartialEq, Eq, Debug)]
pub enum TokenContext {
    /// Nothing: it comes right behind `{{`.
    Start,
    /// A trim mark.
    Trimmed,
    /// A trim mark and its blank.
    Ready,
    /// A space or a tab.
    Blanked,
    /// Anything else.
    Inside,
}

/// What a byte begins.
#[derive(Clone, Copy, PartialEq, Eq, Debug)]
pub enum Beginning {
    /// A token of this one byte.
    Alone { token: ActionToken },
    /// A string with backslashes.
    Quote,
    /// A string in back quotes.
    BackQuote,
    /// A word.
    Letter,
    /// A variable.
    Dollar,
    /// A field, or a lone dot.
    Dot,
    /// A number.
    Digit,
    /// `:=`, where an equal sign follows.
    Colon,
    /// A comment, where one can stand and a star follows.
    Slash,
    /// The `-` of a trim mark, or another.
    Minus,
}
