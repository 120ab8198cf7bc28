//! Runs that end before a report is made.

use super::run;
use lf_base::{MemFiles, MemSink};
use lf_lint::Status;
use std::test::Fail;

#[test]
fn each_call_of_the_file_source_fails_in_turn(rt: HostRuntime) -> Result<(), Fail> {
    // One call opens the file, two read its bytes, and one finds its end. There is no fifth. The file is one comment.
    let bytes = vec![in rt.alloc(); b'#'; 20_000]?;
    for call in 1..6 {
        let mut files = MemFiles::new(rt.alloc());
        files.add("a.yml", bytes.as_slice())?;
        files.fail_calls(&[call])?;
        let mut out = MemSink::new(rt.alloc(), 1000, 1000)?;
        let end = run(&rt, rt.alloc(), "lint a.yml", &mut files, &mut out)?;
        let failed = call < 5;
        assert_eq!(rt; end == Status::Read { file: 0 }, failed, "call {call}");
        assert_eq!(rt; end == Status::Clean, !failed, "call {call}");
        assert_eq!(rt; out.bytes().is_empty(), failed, "call {call}");
    }
    Ok(())
}

#[test]
fn the_file_of_a_failed_call_is_told(rt: HostRuntime) -> Result<(), Fail> {
    // Of each file one call opens it, one reads its bytes, if it has some, and one finds its end. There is no ninth.
    for (call, file) in [
        (1, 0),
        (2, 0),
        (3, 0),
        (4, 1),
        (5, 1),
        (6, 1),
        (7, 2),
        (8, 2),
    ] {
        let mut files = MemFiles::new(rt.alloc());
        files.add("a.yml", b"# a file\n")?;
        files.add("b.yml", b"groups: &x []\n")?;
        files.add("c.yml", b"")?;
        files.fail_calls(&[call])?;
        let mut out = MemSink::new(rt.alloc(), 1000, 1000)?;
        let end = run(
            &rt,
            rt.alloc(),
            "lint a.yml b.yml c.yml",
            &mut files,
            &mut out,
        )?;
        assert_eq!(rt; end, Status::Read { file }, "call {call}");
        assert_eq!(rt; out.bytes(), b"".as_slice(), "call {call}");
    }
    Ok(())
}

#[test]
fn a_thousand_files_may_be_named(rt: HostRuntime) -> Result<(), Fail> {
    for (count, limit) in [(1_000, false), (1_001, true)] {
        let names = " a".repeat(rt.alloc(), count)?;
        let line = format!(in rt.alloc(); "lint{names}")?;
        let mut files = MemFiles::new(rt.alloc());
        files.add("a", b"")?;
        let mut out = MemSink::new(rt.alloc(), 1000, 1000)?;
        let end = run(&rt, rt.alloc(), line.as_str(), &mut files, &mut out)?;
        let passed = Status::Limit {
            quantity: 1,
            found: 1_001,
        };
        assert_eq!(rt; end == passed, limit, "{count}");
        assert_eq!(rt; end == Status::Clean, !limit, "{count}");
    }
    Ok(())
}
