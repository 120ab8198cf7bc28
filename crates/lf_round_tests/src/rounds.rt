//! Rounds over rules that read themselves or one another, and a gate at which two workers meet.
ghost use Rattle.std.specs.Prelude.{◌≡◌, ◌*◌, length, IfOk};
ghost use Rattle.lf_ast.specs.Rules.{rule_trees};
ghost use Rattle.lf_classes.specs.RowWords.{word_count};
ghost use Rattle.lf_rounds.specs.Tasks.{IsBelowLeast};
ghost use Rattle.lf_semantics.specs.Environments.{CoversRules, recorded_names};

use lf_accept::accept;
use lf_ast::Rule;
use lf_base::{Gate, Memory, OpenGate, Seq};
use lf_classes::{ClassError, Universe};
use lf_rounds::{Round, RoundEnd, first_words, solve_shared};
use std::alloc::Global;
use std::sync::atomic::AtomicU64;
use std::sync::atomic::Ordering::SeqCst;
use std::test::Fail;
use std::thread::Threads;

/// Two rules that read one another: one sums the other by a label, and the other has what the first has, or the samples of a metric.
pub(crate) const READ_ONE_ANOTHER: &str =
    "groups:\n- name: g\n  rules:\n  - record: a:x\n    expr: sum by (job) (b:x)\n  - record: b:x\n    expr: a:x or foo\n";

/// Two rules of one name: one sums its own samples by a label, and the other a metric by two.
pub(crate) const OF_ONE_NAME: &str =
    "groups:\n- name: g\n  rules:\n  - record: a:t\n    expr: sum by (job) (a:t)\n  - record: a:t\n    expr: sum by (job, env) (x)\n";

/// The universe of rules, which covers them.
pub(crate) fn universe_of(alloc: Global, rules: &Seq<Rule>) -> Result<Universe, ClassError>
    ensures { IfOk result (λ universe. CoversRules universe (rule_trees rules.now)) }
{
    let universe = Universe::build(alloc, rules)?;
    Ok(universe)
}

/// What a round of one seat makes of words.
fn one_round(
    alloc: Global,
    universe: &Universe,
    rules: &Seq<Rule>,
    words: &Seq<u64>,
) -> Result<RoundEnd, Memory>
    requires covers { CoversRules universe.now (rule_trees rules.now) }
    requires count { length words.now ≡ length (recorded_names (rule_trees rules.now)) * word_count universe.now }
    requires below { IsBelowLeast universe.now (rule_trees rules.now) words.now }
    ensures count { IfOk result (λ end. length end.words ≡ length (recorded_names (rule_trees rules.now)) * word_count universe.now) }
    ensures below { IfOk result (λ end. IsBelowLeast universe.now (rule_trees rules.now) end.words) }
{
    let (round, mut seat) = Round::new(alloc, universe, rules, words, 1)?;
    round.work(alloc, &mut seat, universe, rules, &OpenGate)?;
    let end = round.close(alloc, seat)?;
    Ok(end)
}

/// Whether each of three rounds in turn changed a word, and whether the last one left the words as they were.
fn three_rounds(
    alloc: Global,
    universe: &Universe,
    rules: &Seq<Rule>,
) -> Result<([bool; 3], bool), Memory>
    requires covers { CoversRules universe.now (rule_trees rules.now) }
{
    let words = first_words(alloc, universe, rules)?;
    let first = one_round(alloc, universe, rules, &words)?;
    let second = one_round(alloc, universe, rules, &first.words)?;
    let third = one_round(alloc, universe, rules, &second.words)?;
    let same = third.words.as_slice() == second.words.as_slice();
    Ok(([first.changed, second.changed, third.changed], same))
}

/// The same, of rules alone.
fn rounds_of(alloc: Global, rules: &Seq<Rule>) -> Result<([bool; 3], bool), ClassError> {
    let universe = universe_of(alloc, rules)?;
    let told = three_rounds(alloc, &universe, rules)?;
    Ok(told)
}

#[test]
fn a_round_in_order_needs_no_other(rt: HostRuntime) -> Result<(), Fail> {
    let rules = accept(rt.alloc(), OF_ONE_NAME.as_bytes(), 0)?;
    let told = rounds_of(rt.alloc(), &rules)?;
    assert_eq!(rt; told, ([true, false, false], true));
    Ok(())
}

#[test]
fn rules_that_read_one_another_need_a_round_more(rt: HostRuntime) -> Result<(), Fail> {
    let rules = accept(rt.alloc(), READ_ONE_ANOTHER.as_bytes(), 0)?;
    let told = rounds_of(rt.alloc(), &rules)?;
    assert_eq!(rt; told, ([true, true, false], true));
    Ok(())
}

/// Holds up the workers of the first two pieces until both have come, or for so many turns.
#[derive(Drop)]
struct Meeting {
    came: AtomicU64,
    gave_up: AtomicU64,
}

impl Gate for Meeting {
    fn pass(&self, phase: u8, piece: u32) {
        if phase == 1 && piece < 2 {
            self.came.fetch_add(1, SeqCst);
            for _ in 0..100_000_000_u64 {
                if self.came.load(SeqCst) >= 2 {
                    return;
                }
            }
            self.gave_up.store(1, SeqCst);
        }
    }
}

/// Whether a name has a row in the least environment, which two workers find at a gate.
fn has_row<R: Threads + Sync, G: Gate + Sync>(
    rt: &R,
    alloc: Global,
    rules: &Seq<Rule>,
    name: &str,
    gate: &G,
) -> Result<bool, ClassError> {
    let universe = universe_of(alloc, rules)?;
    let env = solve_shared(rt, alloc, &universe, rules, 2, gate)?;
    Ok(env.row(name).is_some())
}

#[test]
fn two_workers_meet_in_a_round(rt: HostRuntime) -> Result<(), Fail> {
    let rules = accept(rt.alloc(), OF_ONE_NAME.as_bytes(), 0)?;
    let gate = Meeting {
        came: AtomicU64::new(0),
        gave_up: AtomicU64::new(0),
    };
    assert!(rt; has_row(&rt, rt.alloc(), &rules, "a:t", &gate)?);
    assert_eq!(rt; gate.gave_up.load(SeqCst), 0);
    Ok(())
}
