//! Tests of lf_classes: that calls succeed which no file that is linted reaches.

ghost use Rattle.std.specs.Prelude.{◌≡◌, ◌∷◌, [], length, true, false, IfOk};
ghost use Rattle.lf_classes.specs.RowWords.{in_order, row_of_words, row_word};
ghost use Rattle.lf_semantics.specs.Listing.{universe_of};

use crate::deep::deepest;
use lf_ast::{Expr, MatchOp, Matcher, Sight};
use lf_base::{Kind, Memory, Refusal, Seq, Span, Text};
use lf_classes::{Row, Universe, check_patterns, passes, recorded_names};
use std::alloc::Global;
use std::process::Abort;
use std::test::Fail;
use std::thread::join;

const NOWHERE: Span = Span { start: 0, end: 0 };

const SOMEWHERE: Span = Span { start: 7, end: 9 };

/// A matcher on a label, with its text at the same place each time.
fn matcher(alloc: Global, op: MatchOp, value: &str) -> Result<Matcher, Memory> {
    Ok(Matcher {
        label: Text::of(alloc, "env")?,
        op,
        value: Text::of(alloc, value)?,
        label_span: NOWHERE,
        value_span: SOMEWHERE,
    })
}

/// A matcher passes a text, or doesn't.
fn judges(
    rt: &impl Abort,
    alloc: Global,
    op: MatchOp,
    value: &str,
    text: &str,
    wanted: bool,
) -> Result<(), Fail> {
    let text = Text::of(alloc, text)?;
    let found = passes(alloc, &matcher(alloc, op, value)?, &text)?;
    assert_eq!(rt; found, wanted);
    Ok(())
}

#[test]
fn a_pattern_matches_the_whole_text_and_is_refused_where_it_stands(
    rt: HostRuntime,
) -> Result<(), Fail> {
    let alloc = rt.alloc();
    judges(&rt, alloc, MatchOp::Equal, "p", "p", true)?;
    judges(&rt, alloc, MatchOp::NotEqual, "p", "p", false)?;
    judges(&rt, alloc, MatchOp::Matches, "a|b", "b", true)?;
    judges(&rt, alloc, MatchOp::Matches, "x.*", "yx", false)?;
    judges(&rt, alloc, MatchOp::NotMatches, "a", "ba", true)?;
    judges(&rt, alloc, MatchOp::NotMatches, "(", "a", false)?;
    let mut matchers = Seq::new(alloc);
    matchers.push(matcher(alloc, MatchOp::Matches, "(")?)?;
    let expr = Expr::Selector {
        name: Some(Text::of(alloc, "up")?),
        matchers,
        sight: Sight {
            range: None,
            step: None,
            offset: None,
            at: None,
            range_span: NOWHERE,
        },
        span: NOWHERE,
    };
    let refusal = Refusal::At {
        kind: Kind::BadPattern,
        span: SOMEWHERE,
    };
    assert_eq!(&rt; check_patterns(alloc, &expr), Err(refusal));
    Ok(())
}

/// Rows of the two labels of no rules, `__name__` and `*`, with two classes each: the full row and the empty one.
fn rows(alloc: Global, universe: &Universe) -> Result<(Row, Row), Memory>
    requires { universe.now ≡ universe_of [] }
    ensures full { IfOk result (λ r. r.0 ≡ (true ∷ true ∷ []) ∷ (true ∷ true ∷ []) ∷ []) }
    ensures none { IfOk result (λ r. r.1 ≡ (false ∷ false ∷ []) ∷ (false ∷ false ∷ []) ∷ []) }
{
    Ok((Row::full(alloc, universe)?, Row::empty(alloc, universe)?))
}

#[test]
fn a_row_follows_its_label(rt: HostRuntime) -> Result<(), Fail> {
    let universe = Universe::build(rt.alloc(), &Seq::new(rt.alloc()))?;
    let (mut row, empty) = rows(rt.alloc(), &universe)?;
    row.narrow_classes(1, &[false, true]);
    row.set_class(0, 1);
    let mut other = row.copy()?;
    row.fill_label(0);
    assert!(&rt; row.has(0, 0) && row.has(1, 1) && !row.has(1, 0));
    assert!(&rt; other.has(0, 1) && !other.has(0, 0) && row.covers(&empty));
    other.fill_label(1);
    other.take_label(1, &row);
    other.join(&empty);
    assert!(&rt; row.covers(&other) && !other.covers(&row) && !other.has(1, 0));
    other.meet_label(1, &empty);
    assert!(&rt; other.is_empty() && empty.is_empty() && !row.is_empty());
    row.keep(1, 1, false);
    assert!(&rt; row.is_empty());
    Ok(())
}

/// The row of one word, of the universe of no rules.
fn row_of(alloc: Global, universe: &Universe, word: u64) -> Result<Row, Memory>
    requires { universe.now ≡ universe_of [] }
    ensures { IfOk result (λ row. row ≡ row_of_words universe.now (word ∷ [])) }
{
    let mut words = Seq::new(alloc);
    words.push(word)?;
    Row::from_words(alloc, universe, &words)
}

/// The only word of a row of the universe of no rules.
fn word_of(row: &Row) -> u64
    requires { length (in_order row.now) ≡ 4 }
    ensures { result ≡ row_word row.now 0 }
{
    row.word(0)
}

// `__name__` has the bits 0 and 1, and `*` the bits 2 and 3.
#[test]
fn a_row_has_its_words(rt: HostRuntime) -> Result<(), Fail> {
    let universe = Universe::build(rt.alloc(), &Seq::new(rt.alloc()))?;
    let (full, empty) = rows(rt.alloc(), &universe)?;
    assert_eq!(rt; universe.words(), 1);
    assert_eq!(rt; word_of(&full), 15);
    assert_eq!(rt; word_of(&empty), 0);
    Ok(())
}

// A row in which a label has no class is the empty one, and the bits from 4 on aren't looked at.
#[test]
fn a_row_is_made_of_its_words(rt: HostRuntime) -> Result<(), Fail> {
    let universe = Universe::build(rt.alloc(), &Seq::new(rt.alloc()))?;
    for (word, is_empty) in [
        (15, false),
        (9, false),
        (6, false),
        (249, false),
        (3, true),
        (12, true),
        (240, true),
    ] {
        let row = row_of(rt.alloc(), &universe, word)?;
        assert_eq!(rt; row.is_empty(), is_empty);
    }
    Ok(())
}

#[test]
fn no_rule_records_no_name(rt: HostRuntime) -> Result<(), Fail> {
    let names = recorded_names(rt.alloc(), &[])?;
    assert_eq!(rt; names.len(), 0);
    Ok(())
}

#[test]
fn the_deepest_expression_is_checked_on_another_thread(rt: HostRuntime) -> Result<(), Fail> {
    let alloc = rt.alloc();
    let expr = deepest(alloc)?;
    let (here, there) = join(
        &rt,
        || check_patterns(alloc, &expr).is_ok(),
        || check_patterns(alloc, &expr).is_ok(),
    );
    assert!(rt; here);
    assert!(rt; there);
    Ok(())
}
