//! Tests of lf_pattern: what no case can ask for. Each call is run on cases kept as data, among them the examples of the documents and the refusals:
//! `tests/vectors/patterns.jsonl` and `patterns-more.jsonl`, which `./test` runs.

use lf_base::Text;
use lf_pattern::{PatternError, samples};
use std::test::Fail;

#[test]
fn an_open_parenthesis_has_no_samples(rt: HostRuntime) -> Result<(), Fail> {
    let open = samples(rt.alloc(), &Text::of(rt.alloc(), "(")?);
    assert!(rt; matches!(open, Err(PatternError::BadPattern)));
    Ok(())
}
