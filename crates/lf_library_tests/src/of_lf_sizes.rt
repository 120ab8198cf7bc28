//! Tests of lf_sizes: the sizes of the patterns that docs/limits.md names.

use lf_sizes::pattern_size;
use std::test::Fail;

#[test]
fn sizes_of_patterns(rt: HostRuntime) -> Result<(), Fail> {
    let small = pattern_size(rt.alloc(), "api-[12].*")?;
    let names = pattern_size(rt.alloc(), "^(\\w+\\.){3}\\w+:\\d{1,5}$")?;
    let counted = pattern_size(rt.alloc(), ".*a.{10000}")?;
    assert!(rt; small == 42);
    assert!(rt; names == 2399);
    assert!(rt; counted == 160_021);
    Ok(())
}

#[test]
fn a_bracket_that_ends_no_group_counts_as_the_end_of_one(rt: HostRuntime) -> Result<(), Fail> {
    let round = pattern_size(rt.alloc(), "ab){3}c")?;
    let none = pattern_size(rt.alloc(), "ab){3}c){5}")?;
    assert!(rt; round == 16);
    assert!(rt; none == 31);
    Ok(())
}

#[test]
fn names_of_groups_have_no_classes(rt: HostRuntime) -> Result<(), Fail> {
    let named = pattern_size(rt.alloc(), "(?P<a[>(b){2}){3}")?;
    let unnamed = pattern_size(rt.alloc(), "(?:[a](b){2}){3}")?;
    assert!(rt; named == 45);
    assert!(rt; unnamed == 87);
    Ok(())
}
