//! Names, and what they stand for.
ghost use Rattle.std.specs.Prelude.{◌≡◌, ◌≤◌, length};
ghost use Rattle.lf_templates.specs.Tokens as tokens;
ghost use Rattle.lf_templates.specs.reading.Templates as reading;

use crate::bytes::{ActionByteClass, row_len};
use crate::token::{ActionToken, Variable, Word};
use lf_base::names::begins_label;

/// How many bytes the word at the front has, 0 where none begins.
#[tactic(auto, unfolding(crate::specs::reading::Templates::name_len))]
pub fn name_len(rest: &[u8]) -> usize
    ensures value { result ≡ reading.name_len rest.now }
    ensures within { result ≤ length rest.now }
{
    match rest {
        [] => 0,
        [first, more @ ..] => {
            if begins_label(*first) {
                1 + row_len(more, ActionByteClass::Word)
            } else {
                0
            }
        }
    }
}

/// What a word is at the head of an action.
#[tactic(auto, unfolding(crate::specs::Tokens::word_of))]
pub fn word_of(name: &[u8]) -> Word
    ensures { result ≡ tokens.word_of name.now }
{
    if name == b"if".as_slice() {
        Word::If
    } else if name == b"range".as_slice() {
        Word::Range
    } else if name == b"with".as_slice() {
        Word::With
    } else if name == b"define".as_slice() {
        Word::Define
    } else if name == b"block".as_slice() {
        Word::Block
    } else if name == b"else".as_slice() {
        Word::Else
    } else if name == b"end".as_slice() {
        Word::End
    } else {
        Word::Other
    }
}

/// The variable whose name stands behind a `$`.
#[tactic(auto, unfolding(crate::specs::Tokens::variable_of))]
pub fn variable_of(name: &[u8]) -> Variable
    ensures { result ≡ tokens.variable_of name.now }
{
    if name == b"".as_slice() {
        Variable::Root
    } else if name == b"labels".as_slice() {
        Variable::Labels
    } else {
        Variable::Other
    }
}

/// What a dot and a name behind it are: a field, or a lone dot where there is no name.
#[tactic(auto, unfolding(crate::specs::Tokens::field_of))]
pub fn field_of(name: &[u8]) -> ActionToken
    ensures { result ≡ tokens.field_of name.now }
{
    if name == b"".as_slice() {
        ActionToken::Plain
    } else {
        ActionToken::Field {
            labels: name == b"Labels".as_slice(),
        }
    }
}
