//! Lines and columns.

use lf_base::{Place, place_of};

#[test]
fn places_are_counted_from_one(rt: HostRuntime) {
    let rows = [
        ("", 0, 1, 1),
        ("ab", 0, 1, 1),
        ("ab", 2, 1, 3),
        ("a\nb", 1, 1, 2),
        ("a\nb", 2, 2, 1),
        ("a\nb", 3, 2, 2),
        ("\n\n\n", 0, 1, 1),
        ("\n\n\n", 2, 3, 1),
        ("\n\n\n", 3, 4, 1),
        ("a\r\nbc", 2, 1, 3),
        ("a\r\nbc", 3, 2, 1),
        ("a\r\nbc", 5, 2, 3),
        ("a\rb", 2, 1, 3),
        ("é\né", 2, 1, 3),
        ("é\né", 5, 2, 3),
    ];
    for (text, offset, line, column) in rows {
        let bytes = text.as_bytes();
        assert!(rt; offset as usize <= bytes.len());
        assert!(rt; bytes.len() < 100);
        assert_eq!(rt;
            place_of(bytes, offset),
            Place { line, column },
            "{offset} in {text:?}"
        );
    }
}
