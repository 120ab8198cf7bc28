//! Names, sets of them, and which of two breaches is told.

use lf_base::{Fault, Kind, NameSet, Refusal, Span, names};
use std::test::Fail;

#[test]
fn names_are_told(rt: HostRuntime) {
    let rows = [
        ("job", true, true),
        ("job:rate5m", false, true),
        ("_0", true, true),
        ("0_", false, false),
        ("a-b", false, false),
        ("", false, false),
    ];
    for (text, label, metric) in rows {
        assert_eq!(rt; names::is_label_name(text.as_bytes()), label);
        assert_eq!(rt; names::is_metric_name(text.as_bytes()), metric);
    }
    assert!(rt; names::is_hexadecimal(b'f') && !names::is_hexadecimal(b'g'));
}

#[test]
fn names_are_put_into_a_set_once(rt: HostRuntime) -> Result<(), Fail> {
    let mut set = NameSet::new(rt.alloc());
    assert!(rt; set.add("job")?);
    assert!(rt; !set.add("job")?);
    assert!(rt; set.contains("job") && !set.contains("jo"));
    Ok(())
}

#[test]
fn the_first_breach_is_told(rt: HostRuntime) {
    let span = Span { start: 3, end: 4 };
    let syntax = Fault::when(true, Kind::Syntax, span);
    let deep = Fault::when(true, Kind::TooDeep, span);
    assert!(rt; Fault::when(false, Kind::Syntax, span).is_none());
    assert_eq!(rt; Fault::first(syntax, deep), deep);
    assert_eq!(rt; Fault::first(None, syntax), syntax);
    let refusal = syntax.map(|fault| Refusal::from(fault));
    assert_eq!(rt;
        refusal,
        Some(Refusal::At {
            kind: Kind::Syntax,
            span
        })
    );
}
