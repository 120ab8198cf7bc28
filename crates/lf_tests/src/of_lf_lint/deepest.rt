//! The deepest files that are read, each linted whole on a thread of its own.

use super::run;
use lf_base::{MemFiles, MemSink, Memory};
use lf_lint::Status;
use std::alloc::{AllocError, Global};
use std::test::Fail;
use std::thread::{Threads, join};

/// A way of nesting. A hundred pairs of parentheses may stand in one another, with a hundred signs and operators right inside each.
#[derive(Clone, Copy)]
struct Nesting {
    /// What opens a level.
    opening: &'static str,
    /// The signs or operators before what a level holds, as often as told.
    before: &'static str,
    /// The operators behind it, as often.
    behind: &'static str,
    often: usize,
    /// What closes a level.
    closing: &'static str,
    levels: usize,
}

const NESTINGS: [Nesting; 6] = [
    // Signs.
    Nesting {
        opening: "(",
        before: "-",
        behind: "",
        often: 100,
        closing: ")",
        levels: 100,
    },
    // Operators that nest on the left.
    Nesting {
        opening: "(",
        before: "",
        behind: "+b",
        often: 100,
        closing: ")",
        levels: 100,
    },
    // Operators that nest on the right.
    Nesting {
        opening: "(",
        before: "b^",
        behind: "",
        often: 100,
        closing: ")",
        levels: 100,
    },
    // Operators and signs that nest on the right in turn.
    Nesting {
        opening: "(",
        before: "b^-",
        behind: "",
        often: 50,
        closing: ")",
        levels: 100,
    },
    // Signs in the arguments of calls.
    Nesting {
        opening: "abs(",
        before: "-",
        behind: "",
        often: 100,
        closing: ")",
        levels: 100,
    },
    // Subqueries of signs, each with two pairs of parentheses.
    Nesting {
        opening: "max_over_time((",
        before: "-",
        behind: "",
        often: 100,
        closing: ")[5m:1m])",
        levels: 50,
    },
];

/// Of each of them without verdicts.
const TOTALS: &str = "files 1, refused 0, rules 1, problems 0, notes 0\n";

/// And with them: what is computed of samples drops the metric name, and scraped samples may have any other label or none, as two worlds show.
const VERDICTS: &str =
    "r.yml:4:13: rule rec:0\n  __name__: impossible\n  *: possible\nfiles 1, refused 0, rules 1, problems 0, notes 0\nverdicts guaranteed 0, impossible 1, possible 1, unresolved 0, empty 0\n";

/// A file with one rule, whose expression nests a selector in this way.
fn nested(alloc: Global, nesting: &Nesting) -> Result<String, AllocError> {
    let before = nesting.before.repeat(alloc, nesting.often)?;
    let behind = nesting.behind.repeat(alloc, nesting.often)?;
    let front = format!(in alloc; "{}{before}", nesting.opening)?;
    let back = format!(in alloc; "{behind}{}", nesting.closing)?;
    let fronts = front.as_str().repeat(alloc, nesting.levels)?;
    let backs = back.as_str().repeat(alloc, nesting.levels)?;
    format!(in alloc;
        "groups:\n- name: g\n  rules:\n  - record: rec:0\n    expr: {fronts}a{backs}\n"
    )
}

/// Whether a whole run of these words on a file of this text writes this report, and ends well.
fn is_reported<R: Threads + Sync>(
    rt: &R,
    alloc: Global,
    words: &str,
    text: &str,
    report: &str,
) -> Result<bool, Memory> {
    let mut files = MemFiles::new(alloc);
    files.add("r.yml", text.as_bytes())?;
    let mut out = MemSink::new(alloc, 1000, 1000)?;
    let end = run(rt, alloc, words, &mut files, &mut out)?;
    Ok(end == Status::Clean && out.bytes() == report.as_bytes())
}

/// The number of the first nesting, if there is one, of which a run of these words, called on a new thread, doesn't write this report.
fn first_unreported<R: Threads + Sync>(
    rt: &R,
    alloc: Global,
    words: &str,
    report: &str,
) -> Result<Option<usize>, Memory> {
    for (number, nesting) in NESTINGS.iter().enumerate() {
        let text = nested(alloc, nesting)?;
        // The first of these is called on a new thread.
        let (reported, ()) = join(
            rt,
            || is_reported(rt, alloc, words, text.as_str(), report),
            || (),
        );
        if !reported? {
            return Ok(Some(number));
        }
    }
    Ok(None)
}

#[test]
fn the_deepest_files_are_linted_on_another_thread(rt: HostRuntime) -> Result<(), Fail> {
    assert_eq!(rt;
        first_unreported(&rt, rt.alloc(), "lint r.yml", TOTALS)?,
        None
    );
    Ok(())
}

#[test]
fn the_deepest_files_have_verdicts_on_another_thread(rt: HostRuntime) -> Result<(), Fail> {
    assert_eq!(rt;
        first_unreported(&rt, rt.alloc(), "lint --labels r.yml", VERDICTS)?,
        None
    );
    Ok(())
}
