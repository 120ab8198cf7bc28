//! Names and texts of kinds of refusals.

use lf_base::Kind;

#[test]
fn kinds_are_printed(rt: HostRuntime) {
    let rows = [
        (Kind::BadUtf8, "BadUtf8", "the bytes aren't UTF-8"),
        (Kind::TooDeep, "TooDeep", "nested too deep"),
        (Kind::OpenAction, "OpenAction", "the template can't be read"),
        (Kind::BadAction, "BadAction", "the template can't be read"),
    ];
    for (kind, name, text) in rows {
        assert_eq!(rt; kind.name(), name);
        assert_eq!(rt; kind.text(), text);
    }
}
