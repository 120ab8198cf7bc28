//! Tests of lf_ast: types of small expressions, and of the deepest; label sets.
ghost use Rattle.std.specs.Prelude.{codes};
ghost use Rattle.std.specs.Str.{bytes_eq};

use crate::deep::{NUMBER, deepest, number};
use lf_ast::{Expr, ExprType, LabelChoice, LabelSet, type_of};
use lf_base::{Kind, Memory, Refusal, Seq, Span, Text};
use std::alloc::Global;
use std::cmp::Ordering;
use std::test::Fail;
use std::thread::join;

/// A call with a number as its one argument.
fn call(alloc: Global, name: &str) -> Result<Expr, Memory> {
    let mut args = Seq::new(alloc);
    args.push(number(alloc)?)?;
    let name = Text::of(alloc, name)?;
    let span = Span { start: 0, end: 6 };
    Ok(Expr::Call { name, args, span })
}

#[test]
fn types_and_refuses(rt: HostRuntime) -> Result<(), Fail> {
    let vector = type_of(rt.alloc(), &call(rt.alloc(), "vector")?);
    assert_eq!(rt; vector, Ok(ExprType::Vector));
    let wrong = type_of(rt.alloc(), &call(rt.alloc(), "scalar")?);
    let kind = Kind::WrongType;
    let span = NUMBER;
    assert_eq!(rt; wrong, Err(Refusal::At { kind, span }));
    Ok(())
}

#[test]
fn deepest_expression_has_a_type_on_another_thread(rt: HostRuntime) -> Result<(), Fail> {
    let alloc = rt.alloc();
    let expr = deepest(alloc)?;
    let (here, there) = join(
        &rt,
        || type_of(alloc, &expr).is_ok(),
        || type_of(alloc, &expr).is_ok(),
    );
    assert!(rt; here);
    assert!(rt; there);
    Ok(())
}

#[test]
fn a_new_label_set_has_no_label(rt: HostRuntime) {
    assert!(rt; LabelSet::new(rt.alloc()).get("job").is_none());
}

/// A label set of these labels and texts.
fn labels(alloc: Global, pairs: &[(&str, &str)]) -> Result<LabelSet, Memory> {
    let mut set = LabelSet::new(alloc);
    for (name, text) in pairs {
        set.set(&Text::of(alloc, name)?, &Text::of(alloc, text)?)?;
    }
    Ok(set)
}

#[test]
fn labels_stand_in_the_order_of_their_names(rt: HostRuntime) -> Result<(), Fail> {
    let alloc = rt.alloc();
    let set = labels(
        alloc,
        &[("job", "a"), ("env", "b"), ("zone", "c"), ("env", "d")],
    )?;
    assert_eq!(rt; set.len(), 3);
    let (name, text) = set.pair(0);
    assert_eq!(rt; name.as_str(), "env");
    assert_eq!(rt; text.as_str(), "d");
    let (last, _) = set.pair(2);
    assert_eq!(rt; last.as_str(), "zone");
    Ok(())
}

#[test]
fn an_empty_text_removes_a_label(rt: HostRuntime) -> Result<(), Fail> {
    let alloc = rt.alloc();
    let set = labels(alloc, &[("job", "a"), ("env", "b"), ("job", "")])?;
    assert_eq!(rt; set.len(), 1);
    assert!(rt; set.get("job").is_none());
    assert!(rt; set.get("env").is_some());
    Ok(())
}

/// The metric name alone.
struct MetricName;

impl LabelChoice for MetricName {
    ghost chooses = { λ choice label. bytes_eq label (codes "__name__") };

    fn chooses(&self, label: &str) -> bool {
        label == "__name__"
    }
}

#[test]
fn label_sets_are_copied_chosen_from_and_put_in_order(rt: HostRuntime) -> Result<(), Fail> {
    let alloc = rt.alloc();
    let up = labels(alloc, &[("__name__", "up"), ("job", "a")])?;
    let copied = up.copy()?;
    assert!(rt; up == copied);
    let named = up.kept(&MetricName)?;
    assert_eq!(rt; named.len(), 1);
    assert_eq!(rt; named.cmp(&up), Ordering::Less);
    let other = labels(alloc, &[("__name__", "up"), ("job", "b")])?;
    assert_eq!(rt; other.cmp(&up), Ordering::Greater);
    Ok(())
}
