//! Runs by several workers: they work beside one another, and no byte shows how many they are.
ghost use Rattle.std.specs.Prelude.{◌≡◌, IfOk};

use super::run_at;
use lf_base::{Gate, MemFiles, MemSink, Memory, OpenGate};
use lf_lint::Status;
use std::alloc::{AllocError, Global};
use std::sync::atomic::AtomicU64;
use std::sync::atomic::Ordering::SeqCst;
use std::test::Fail;
use std::thread::Threads;

const ONE_RULE: &str =
    "groups:\n- name: g\n  rules:\n  - record: job:foo:sum\n    expr: sum by (job) (foo{env=\"p\"})\n";

const TWO_RULES: &str =
    "groups:\n- name: g\n  rules:\n  - record: a\n    expr: foo > ignoring (x) bar\n  - record: b\n    expr: foo > bar\n";

const THREE_RULES: &str =
    "groups:\n- name: g\n  rules:\n  - record: a\n    expr: foo{a=\"\"}\n  - record: b\n    expr: foo{a!=\"\"}\n  - record: c\n    expr: foo{a=~\".+\"}\n";

const OF_ONE_NAME: &str =
    "groups:\n- name: g\n  rules:\n  - record: a:t\n    expr: sum by (job) (a:t)\n  - record: a:t\n    expr: sum by (job, env) (x)\n";

/// How a run of these words ends at a gate, and what it writes. There are files of one, two and three rules, one of two rules that record one name, one that is refused and
/// one that is empty.
fn reported<R: Threads + Sync, G: Gate + Sync>(
    rt: &R,
    alloc: Global,
    line: &str,
    gate: &G,
) -> Result<(Status, MemSink), Memory> {
    let mut files = MemFiles::new(alloc);
    files.add("one.yml", ONE_RULE.as_bytes())?;
    files.add("two.yml", TWO_RULES.as_bytes())?;
    files.add("three.yml", THREE_RULES.as_bytes())?;
    files.add("twice.yml", OF_ONE_NAME.as_bytes())?;
    files.add("refused.yml", b"groups: &x []\n")?;
    files.add("empty.yml", b"")?;
    let mut out = MemSink::new(alloc, 10_000, 10_000)?;
    let end = run_at(rt, alloc, line, &mut files, &mut out, gate)?;
    Ok((end, out))
}

/// Holds up the workers of the first two pieces of a phase until both have come, or for so many turns.
#[derive(Drop)]
struct Meeting {
    phase: u8,
    turns: u64,
    first: AtomicU64,
    second: AtomicU64,
    gave_up: AtomicU64,
}

impl Meeting {
    fn at(phase: u8, turns: u64) -> Meeting {
        Meeting {
            phase,
            turns,
            first: AtomicU64::new(0),
            second: AtomicU64::new(0),
            gave_up: AtomicU64::new(0),
        }
    }

    /// Notes that one came, and waits for the other.
    fn meet(&self, own: &AtomicU64, other: &AtomicU64) {
        own.store(1, SeqCst);
        for _ in 0..self.turns {
            if other.load(SeqCst) == 1 {
                return;
            }
        }
        self.gave_up.fetch_add(1, SeqCst);
    }

    /// Whether both came and neither gave up.
    fn is_met(&self) -> bool {
        let both = self.first.load(SeqCst) == 1 && self.second.load(SeqCst) == 1;
        both && self.gave_up.load(SeqCst) == 0
    }
}

impl Gate for Meeting {
    fn pass(&self, phase: u8, piece: u32) {
        if phase == self.phase {
            match piece {
                0 => self.meet(&self.first, &self.second),
                1 => self.meet(&self.second, &self.first),
                _ => (),
            }
        }
    }
}

/// Whether two workers meet at the first two pieces of a phase in a run of these words, which ends and writes as one of other words at the open gate.
fn is_met<R: Threads + Sync>(
    rt: &R,
    alloc: Global,
    phase: u8,
    line: &str,
    other: &str,
) -> Result<bool, Memory> {
    let meeting = Meeting::at(phase, 100_000_000);
    let (end, out) = reported(rt, alloc, line, &meeting)?;
    let (other_end, other_out) = reported(rt, alloc, other, &OpenGate)?;
    Ok(meeting.is_met() && end == other_end && out.bytes() == other_out.bytes())
}

#[test]
fn two_workers_meet_at_two_rules(rt: HostRuntime) -> Result<(), Fail> {
    let met = is_met(
        &rt,
        rt.alloc(),
        2,
        "lint --labels --workers 2 two.yml",
        "lint --labels two.yml",
    )?;
    assert!(rt; met);
    Ok(())
}

#[test]
fn two_workers_meet_at_two_files(rt: HostRuntime) -> Result<(), Fail> {
    let met = is_met(
        &rt,
        rt.alloc(),
        0,
        "lint --workers 2 one.yml refused.yml empty.yml",
        "lint one.yml refused.yml empty.yml",
    )?;
    assert!(rt; met);
    Ok(())
}

#[test]
fn two_workers_meet_at_two_rows(rt: HostRuntime) -> Result<(), Fail> {
    let met = is_met(
        &rt,
        rt.alloc(),
        1,
        "lint --labels --workers 2 twice.yml",
        "lint --labels twice.yml",
    )?;
    assert!(rt; met);
    Ok(())
}

#[test]
fn a_generated_file_has_several_workers(rt: HostRuntime) -> Result<(), Fail> {
    let met = is_met(&rt, rt.alloc(), 2, "gen 4", "gen 4")?;
    assert!(rt; met);
    Ok(())
}

#[test]
fn there_is_one_worker_where_no_number_is_given(rt: HostRuntime) -> Result<(), Fail> {
    // The first piece waits for the second, which the same worker would come to.
    let meeting = Meeting::at(2, 1000);
    reported(&rt, rt.alloc(), "lint two.yml", &meeting)?;
    assert_eq!(rt; meeting.gave_up.load(SeqCst), 1);
    Ok(())
}

#[test]
fn there_may_be_more_workers_than_rules(rt: HostRuntime) -> Result<(), Fail> {
    let (end, out) = reported(
        &rt,
        rt.alloc(),
        "lint --labels --workers 64 three.yml",
        &OpenGate,
    )?;
    let (other_end, other_out) = reported(&rt, rt.alloc(), "lint --labels three.yml", &OpenGate)?;
    assert_eq!(rt; end, other_end);
    assert_eq!(rt; out.bytes(), other_out.bytes());
    Ok(())
}

/// Forty files, each with a rule of one name that reads a metric of its own.
fn forty_files(alloc: Global) -> Result<MemFiles, Memory>
    ensures faults { IfOk result (λ files. files.calls.faults ≡ 0) }
    ensures opens { IfOk result (λ files. files.opens ≡ 0) }
{
    let mut files = MemFiles::new(alloc);
    for k in 1..41u32 {
        let name = format!(in alloc; "{k}.yml")?;
        let text = format!(in alloc;
            "groups:\n- name: g\n  rules:\n  - record: job:foo:sum\n    expr: sum by (job) (foo_{k}{{env=\"p\"}})\n"
        )?;
        files.add(name.as_str(), text.as_str().as_bytes())?;
    }
    Ok(files)
}

/// Words that name these files, for so many workers.
fn words_on_forty(alloc: Global, workers: u32) -> Result<String, AllocError> {
    let mut line = format!(in alloc; "lint --labels --workers {workers}")?;
    for k in 1..41u32 {
        let name = format!(in alloc; " {k}.yml")?;
        line.push_str(name.as_str())?;
    }
    Ok(line)
}

/// What so many workers write of forty files.
fn forty_reported<R: Threads + Sync>(
    rt: &R,
    alloc: Global,
    workers: u32,
) -> Result<MemSink, Memory> {
    let line = words_on_forty(alloc, workers)?;
    let mut files = forty_files(alloc)?;
    let mut out = MemSink::new(alloc, 100_000, 100_000)?;
    run_at(rt, alloc, line.as_str(), &mut files, &mut out, &OpenGate)?;
    Ok(out)
}

#[test]
fn no_byte_shows_the_number_of_workers(rt: HostRuntime) -> Result<(), Fail> {
    let one = forty_reported(&rt, rt.alloc(), 1)?;
    assert!(rt; one.bytes().len() > 1000);
    for workers in [2, 7] {
        let other = forty_reported(&rt, rt.alloc(), workers)?;
        assert_eq!(rt; other.bytes(), one.bytes(), "{workers}");
    }
    Ok(())
}
