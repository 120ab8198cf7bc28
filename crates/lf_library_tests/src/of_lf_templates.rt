//! Tests of lf_templates: that references are found where there is memory. Templates of every sort are data: `tests/vectors/templates.jsonl` and
//! `templates-more.jsonl`, which `./test` runs.

use crate::of_lf_lex::rises;
use lf_ast::Template;
use lf_base::{Seq, Span, Text};
use lf_templates::{one_reading, references};
use std::test::Fail;

#[test]
fn a_reference(rt: HostRuntime) -> Result<(), Fail> {
    one_reading();
    let text = Text::of(rt.alloc(), "{{ $labels.job }} is down")?;
    let mut from = Seq::new(rt.alloc());
    for offset in 0..26 {
        from.push(offset)?;
    }
    assert_eq!(rt; from.len(), text.len().saturating_add(1));
    assert!(rt; rises(from.as_slice()));
    match references(rt.alloc(), &Template { text, from }) {
        Ok(found) => {
            assert_eq!(rt; found.len(), 1);
            let reference = found.get(0);
            assert_eq!(rt; reference.label.as_str(), "job");
            assert_eq!(rt; reference.span, Span { start: 3, end: 14 });
        }
        Err(_) => assert!(rt; false, "refused"),
    }
    Ok(())
}
