//! What is known between two actions of a template.
ghost use Rattle.std.specs.Prelude.{◌≡◌, [], ◌+◌, ◌≤◌, ◌<◌, ◌^◌, length, reverse, None, false, ◌||◌, OnOk, Some, Err, List, ℕ};
ghost use Rattle.lf_templates.specs.Actions as actions;
ghost use Rattle.lf_templates.specs.Actions.{tokens_of, head_of, first};
ghost use Rattle.lf_base.specs.Answers.{Answers, IfAt};
ghost use Rattle.lf_templates.specs.Templates as templates;
ghost use Rattle.lf_templates.specs.reading.Templates as reading;
ghost use Rattle.lf_templates.specs.views.Steps.{Steps};

use crate::action::Braced;
use crate::body::OpenBody;
use crate::finding::push_references;
use crate::reference::Reference;
use crate::saying::{head, is_sound, sets_labels, word_at};
use crate::token::{ActionToken, Lexeme, Word};
use lf_base::{Kind, Memory, Refusal, Seq, Span};
use std::alloc::Global;

/// What the actions so far leave behind.
#[derive(Debug, Drop)]
pub struct TemplateState {
    /// The bodies that are open, the outermost first.
    pub bodies: Seq<OpenBody>,
    /// The first action that is wrong in itself.
    pub flaw: Option<Span>,
    /// Some action set `$labels` anew.
    pub renamed: bool,
    /// The references so far.
    pub found: Seq<Reference>,
}

/// The state before the first action.
pub fn begin(alloc: Global) -> TemplateState
    ensures bodies { result.bodies ≡ [] }
    ensures flaw { result.flaw ≡ None }
    ensures renamed { result.renamed ≡ false }
    ensures found { result.found ≡ [] }
{
    TemplateState {
        bodies: Seq::new(alloc),
        flaw: None,
        renamed: false,
        found: Seq::new(alloc),
    }
}

fn opens_body(word: Word) -> bool
    ensures { result ≡ templates.opens_body word }
{
    match word {
        Word::If => true,
        Word::Range => true,
        Word::With => true,
        Word::Define => true,
        Word::Block => true,
        _ => false,
    }
}

fn takes_else(word: Word) -> bool
    ensures { result ≡ templates.takes_else word }
{
    match word {
        Word::If => true,
        Word::Range => true,
        Word::With => true,
        _ => false,
    }
}

fn hides(word: Word) -> bool
    ensures { result ≡ templates.hides word }
{
    match word {
        Word::If => false,
        _ => true,
    }
}

/// The innermost of the bodies.
fn innermost(bodies: &[OpenBody]) -> Option<OpenBody>
    ensures { result ≡ first (reverse bodies.now) }
{
    match bodies.last() {
        Some(body) => Some(*body),
        None => None,
    }
}

/// The place of the outermost of the bodies.
fn outermost(bodies: &[OpenBody]) -> Option<Span>
    ensures { result ≡ reading.outermost (reverse bodies.now) }
{
    match bodies.first() {
        Some(body) => Some(body.span),
        None => None,
    }
}

/// Whether an action with this word at its head has no body that it belongs to.
fn is_stray(word: Word, innermost: Option<OpenBody>) -> bool
    ensures { result ≡ templates.is_stray word (reading.word_of_body innermost) }
{
    match word {
        Word::End => innermost.is_none(),
        Word::Else => match innermost {
            Some(body) => !takes_else(body.word),
            None => true,
        },
        _ => false,
    }
}

/// Whether an action is wrong in itself: it isn't well formed, or it is stray.
fn is_bad(bodies: &[OpenBody], tokens: &[Lexeme], head: Option<ActionToken>, word: Word) -> bool
    requires head { head ≡ head_of (tokens_of tokens.now) }
    ensures { result ≡ reading.is_bad_by (first (reverse bodies.now)) (tokens_of tokens.now) word }
{
    !is_sound(tokens, head) || is_stray(word, innermost(bodies))
}

/// Whether `$labels` is set anew, by an action or by one before it.
fn sets_anew(renamed: bool, tokens: &[Lexeme]) -> bool
    ensures { result ≡ (renamed || actions.sets_labels (tokens_of tokens.now)) }
{
    renamed || sets_labels(tokens)
}

/// Whether references are hidden in a body.
fn hides_references(body: Option<OpenBody>) -> bool
    ensures { result ≡ reading.hidden_in body }
{
    match body {
        Some(body) => body.hides,
        None => false,
    }
}

/// Whether references are hidden, by an action that set `$labels` anew or by the innermost of the bodies.
fn is_hidden(renamed: bool, bodies: &[OpenBody]) -> bool
    ensures { result ≡ (renamed || reading.is_hidden (reverse bodies.now)) }
{
    renamed || hides_references(innermost(bodies))
}

/// Closes the innermost body, if an action with this word at its head does.
fn close_by(bodies: &mut Seq<OpenBody>, word: Word)
    ensures { reverse bodies.new ≡ reading.closed_by word (reverse bodies.old) }
{
    match word {
        Word::End => {
            let _body = bodies.pop();
        }
        _ => {}
    }
}

/// Opens the body of an action, if one with this word at its head does.
fn open_by(bodies: &mut Seq<OpenBody>, word: Word, span: Span) -> Result<(), Memory>
    ensures { OnOk result (reverse bodies.new ≡ reading.opened_by word span (reverse bodies.old)) }
{
    if !opens_body(word) {
        return Ok(());
    }
    let hides = hides(word) || hides_references(innermost(bodies.as_slice()));
    bodies.push(OpenBody { word, hides, span })
}

/// The first flaw, where an action stands at a span and is perhaps wrong.
fn or_else(flaw: Option<Span>, wrong: bool, span: Span) -> Option<Span>
    ensures { result ≡ reading.or_else flaw wrong span }
{
    match flaw {
        Some(flaw) => Some(flaw),
        None => { if wrong { Some(span) } else { None } }
    }
}

/// The flaw that is told whatever comes: one with no body open before it.
fn settled(bodies: &[OpenBody], flaw: Option<Span>) -> Option<Span>
    ensures { result ≡ reading.settled (reverse bodies.now) flaw }
{
    if bodies.is_empty() { flaw } else { None }
}

/// The state behind an action that begins at an offset, or a refusal that is told whatever comes.
pub fn step(
    state: TemplateState,
    alloc: Global,
    text: &str,
    from: &[u32],
    action: &Braced,
    start: usize,
) -> Result<TemplateState, Refusal>
    requires from { length from.now ≡ length text.now + 1 }
    requires small { length text.now < 2 ^ 63 }
    requires end { action.now.end ≡ start + (reading.total action.now.tokens.items + 4) }
    requires within { action.now.end ≤ length text.now }
    requires named { reading.Named text.now (start + 2) action.now.tokens.items }
    ensures { Steps from.now text.now state (reading.action_at start action.now.tokens.items) result }
{
    let TemplateState {
        mut bodies,
        flaw,
        renamed,
        mut found,
    } = state;
    let tokens = action.tokens.as_slice();
    let span = Span {
        start: from[start],
        end: from[action.end],
    };
    let head = head(tokens);
    let word = word_at(head);
    let bad = is_bad(bodies.as_slice(), tokens, head, word);
    let flaw = or_else(flaw, bad, span);
    close_by(&mut bodies, word);
    let renamed = sets_anew(renamed, tokens);
    let hidden = is_hidden(renamed, bodies.as_slice());
    push_references(&mut found, alloc, text, from, hidden, tokens, start + 2)?;
    open_by(&mut bodies, word, span)?;
    match settled(bodies.as_slice(), flaw) {
        Some(span) => Err(Refusal::At {
            kind: Kind::BadAction,
            span,
        }),
        None => Ok(TemplateState {
            bodies,
            flaw,
            renamed,
            found,
        }),
    }
}

/// The action that is told at the end, if one is: that of the outermost body that is open, or else the first that is wrong.
fn flaw_at_end(bodies: &[OpenBody], flaw: Option<Span>) -> Option<Span>
    ensures { result ≡ reading.flaw_at_end (reverse bodies.now) flaw }
{
    match outermost(bodies) {
        Some(span) => Some(span),
        None => flaw,
    }
}

/// The refusal before an action that begins at an offset and doesn't end.
pub fn endless(state: TemplateState, from: &[u32], at: usize) -> Refusal
    requires { at + 2 < length from.now }
    ensures { IfAt result (λ f. reading.ending from.now (reverse state.bodies) state.flaw state.found (Some at) ≡ Err f) }
{
    match flaw_at_end(state.bodies.as_slice(), state.flaw) {
        Some(span) => Refusal::At {
            kind: Kind::BadAction,
            span,
        },
        None => Refusal::At {
            kind: Kind::OpenAction,
            span: Span {
                start: from[at],
                end: from[at + 2],
            },
        },
    }
}

/// The answer at the end of the text.
pub fn finish(state: TemplateState) -> Result<Seq<Reference>, Refusal>
    ensures { (from : List ℕ) → Answers result (reading.ending from (reverse state.bodies) state.flaw state.found None) }
{
    let TemplateState {
        bodies,
        flaw,
        renamed: _,
        found,
    } = state;
    match flaw_at_end(bodies.as_slice(), flaw) {
        Some(span) => Err(Refusal::At {
            kind: Kind::BadAction,
            span,
        }),
        None => Ok(found),
    }
}
