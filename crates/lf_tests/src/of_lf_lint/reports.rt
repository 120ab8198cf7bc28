//! Runs that come to a report.

use super::run;
use lf_base::{MemFiles, MemSink};
use lf_lint::Status;
use std::test::Fail;

const RULE: &str =
    "groups:\n- name: g\n  rules:\n  - record: job:foo:sum\n    expr: sum by (job) (foo{env=\"p\"})\n";

const RULE_REPORT: &str = "files 1, refused 0, rules 1, problems 0, notes 0\n";

const REFUSED_REPORT: &str =
    "b.yml:1:9: refused [LeftOut] this form is left out of the profile\nfiles 1, refused 1, rules 0, problems 0, notes 0\n";

const LABELS_JSON: &str =
    "{\"files\":[{\"name\":\"a.yml\",\"refusal\":null,\"rules\":[{\"column\":13,\"empty\":false,\"findings\":[],\"kind\":\"record\",\"labels\":[{\"label\":\"__name__\",\"verdict\":\"impossible\"},{\"label\":\"job\",\"verdict\":\"possible\",\"with\":{\"sample\":{\"job\":\"v1\"},\"series\":[{\"__name__\":\"foo\",\"env\":\"p\",\"job\":\"v1\"}],\"steps\":[]},\"without\":{\"sample\":{},\"series\":[{\"__name__\":\"foo\",\"env\":\"p\"}],\"steps\":[]}},{\"label\":\"env\",\"verdict\":\"impossible\"},{\"label\":\"*\",\"verdict\":\"impossible\"}],\"line\":4,\"name\":\"job:foo:sum\"}]}],\"summary\":{\"files\":1,\"notes\":0,\"problems\":0,\"refused\":0,\"rules\":1,\"verdicts\":{\"empty\":0,\"guaranteed\":0,\"impossible\":3,\"possible\":1,\"unresolved\":0}}}\n";

const ALL_REPORT: &str =
    "b.yml:1:9: refused [LeftOut] this form is left out of the profile\nfiles 3, refused 1, rules 1, problems 0, notes 0\n";

const GENERATED_REPORT: &str =
    "files 1, refused 0, rules 4, problems 1, notes 0\nverdicts guaranteed 1, impossible 14, possible 5, unresolved 0, empty 0\n";

#[test]
fn files_are_reported_as_the_words_ask(rt: HostRuntime) -> Result<(), Fail> {
    for (line, end, report) in [
        ("lint a.yml", Status::Clean, RULE_REPORT),
        ("lint b.yml", Status::Refused, REFUSED_REPORT),
        ("lint a.yml b.yml c.yml", Status::Refused, ALL_REPORT),
        (
            "lint --format json --workers 2 --labels a.yml",
            Status::Clean,
            LABELS_JSON,
        ),
        ("gen 4", Status::Problems, GENERATED_REPORT),
    ] {
        let mut files = MemFiles::new(rt.alloc());
        files.add("a.yml", RULE.as_bytes())?;
        files.add("b.yml", b"groups: &x []\n")?;
        files.add("c.yml", b"")?;
        let mut out = MemSink::new(rt.alloc(), 1000, 1000)?;
        assert_eq!(rt;
            run(&rt, rt.alloc(), line, &mut files, &mut out)?,
            end,
            "{line}"
        );
        assert_eq!(rt; out.bytes(), report.as_bytes(), "{line}");
    }
    Ok(())
}

#[test]
fn each_write_of_a_report_fails_in_turn(rt: HostRuntime) -> Result<(), Fail> {
    // The report has 49 bytes, so five writes of up to ten; of an empty file it has as many.
    for text in ["", RULE] {
        for call in 1..6 {
            let mut files = MemFiles::new(rt.alloc());
            files.add("r.yml", text.as_bytes())?;
            let mut out = MemSink::new(rt.alloc(), 1000, 10)?;
            out.fail_calls(&[call])?;
            let end = run(&rt, rt.alloc(), "lint r.yml", &mut files, &mut out)?;
            assert_eq!(rt; end, Status::Write, "call {call}");
            assert_eq!(rt; out.bytes().len(), 10 * (call as usize - 1), "call {call}");
            if call == 3 {
                assert_eq!(rt; out.bytes(), b"files 1, refused 0, ".as_slice());
            }
        }
    }
    Ok(())
}

#[test]
fn each_write_of_a_byte_fails_in_turn(rt: HostRuntime) -> Result<(), Fail> {
    // The report of an empty file has 49 bytes. A fiftieth write isn't made.
    for call in 1..51 {
        let mut files = MemFiles::new(rt.alloc());
        files.add("r.yml", b"")?;
        let mut out = MemSink::new(rt.alloc(), 1000, 1)?;
        out.fail_calls(&[call])?;
        let end = run(&rt, rt.alloc(), "lint r.yml", &mut files, &mut out)?;
        let failed = call < 50;
        assert_eq!(rt; end == Status::Write, failed, "call {call}");
        assert_eq!(rt; end == Status::Clean, !failed, "call {call}");
        assert_eq!(rt; out.bytes().len(), call as usize - 1, "call {call}");
    }
    Ok(())
}

#[test]
fn a_report_is_offered_whole(rt: HostRuntime) -> Result<(), Fail> {
    // The second write would fail, and none is made.
    let mut files = MemFiles::new(rt.alloc());
    files.add("a.yml", RULE.as_bytes())?;
    let mut out = MemSink::new(rt.alloc(), 1000, 1000)?;
    out.fail_calls(&[2])?;
    let end = run(&rt, rt.alloc(), "lint a.yml", &mut files, &mut out)?;
    assert_eq!(rt; end, Status::Clean);
    assert_eq!(rt; out.bytes(), RULE_REPORT.as_bytes());
    Ok(())
}

#[test]
fn verdicts_are_told_by_the_least_environment(rt: HostRuntime) -> Result<(), Fail> {
    for (rules, end, report) in [
        // A selector that contradicts itself.
        (
            "  - record: a\n    expr: foo{x=\"1\",x=\"2\"}\n",
            Status::Problems,
            "r.yml:4:13: rule a\n  empty\nr.yml:5:11: problem [expr/empty] the expression has no sample in any run\nfiles 1, refused 0, rules 1, problems 1, notes 0\nverdicts guaranteed 0, impossible 0, possible 0, unresolved 0, empty 1\n",
        ),
        // What a rule records is read by another one, which stands before it.
        (
            "  - record: b\n    expr: sum by (x) (a)\n  - record: a\n    expr: foo{x=\"1\"}\n",
            Status::Clean,
            "r.yml:4:13: rule b\n  __name__: impossible\n  x: guaranteed\n  *: impossible\nr.yml:6:13: rule a\n  __name__: guaranteed\n  x: guaranteed\n  *: possible\nfiles 1, refused 0, rules 2, problems 0, notes 0\nverdicts guaranteed 3, impossible 2, possible 1, unresolved 0, empty 0\n",
        ),
        // Two rules that read nothing but each other.
        (
            "  - record: a\n    expr: b\n  - record: b\n    expr: a\n",
            Status::Problems,
            "r.yml:4:13: rule a\n  empty\nr.yml:5:11: note [rule/dependency] b is read in its own making\nr.yml:5:11: problem [expr/empty] the expression has no sample in any run\nr.yml:6:13: rule b\n  empty\nr.yml:7:11: note [rule/dependency] a is read in its own making\nr.yml:7:11: problem [expr/empty] the expression has no sample in any run\nfiles 1, refused 0, rules 2, problems 2, notes 2\nverdicts guaranteed 0, impossible 0, possible 0, unresolved 0, empty 2\n",
        ),
    ] {
        let mut text = String::from_str(rt.alloc(), "groups:\n- name: g\n  rules:\n")?;
        text.push_str(rules)?;
        let mut files = MemFiles::new(rt.alloc());
        files.add("r.yml", text.as_str().as_bytes())?;
        let mut out = MemSink::new(rt.alloc(), 1000, 1000)?;
        let ended = run(&rt, rt.alloc(), "lint --labels r.yml", &mut files, &mut out)?;
        assert_eq!(rt; ended, end, "{rules}");
        assert_eq!(rt; out.bytes(), report.as_bytes(), "{rules}");
    }
    Ok(())
}
