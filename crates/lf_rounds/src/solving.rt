//! The least environment by rounds.
ghost use Rattle.std.specs.Prelude.{◌≡◌, ◌≢◌, ◌⊎◌, true, false, ◌*◌, ◌+◌, ◌<◌, ◌≤◌, length, sum, IfOk};
ghost use Rattle.std.specs.Thread.{IsSync};
ghost use Rattle.lf_ast.specs.Rules.{rule_trees};
ghost use Rattle.lf_classes.specs.RowWords.{word_count};
ghost use Rattle.lf_deps.specs.views.Sources.{IsSourcesOf};
ghost use Rattle.lf_flow.specs.Reads.{names_of};
ghost use Rattle.lf_semantics.specs.Environments.{CoversRules, IsEnvironment, IsEnvironmentOf, IsLeast};
ghost use Rattle.lf_rounds.specs.Tasks.{AreTaskPieces};
ghost use Rattle.lf_rounds.specs.Words.{environment_of};
ghost use Rattle.lf_rounds.specs.views.Standings.{IsStanding, Rises};
ghost use Rattle.lf_board.specs.views.Workers.{HasRoomFor};
ghost use Rattle.lf_rounds.specs.views.Workers.{IsFresh, IsOf, IsShut};

use crate::between::Standing;
use crate::round::{recording_rules_by, take_row};
use crate::table_words::TableWords;
use crate::{Round, RoundSeat};
use lf_ast::Rule;
use lf_base::{Gate, Memory, Seq};
use lf_classes::Universe;
use lf_deps::Sources;
use lf_fix::solve_by;
use lf_flow::{Env, read_all};
use std::alloc::Global;
use std::thread::{Threads, join};

/// Of so many rounds the last has one worker.
const TURNS: u32 = 2;

/// Over how many words a round is shared at most. Each worker of a shared round has rows of all recorded names for itself, of words of half a mebibyte at most by this; more would take it
/// longer to make, and to load from the words, than it saves the others.
const SHARED_WORDS: usize = 65_536;

/// How many rows selectors without a name may read together where the environment is found in rounds. Each of them reads the rows of all recorded names, and in a round each
/// row that a rule reads is loaded for this rule; `solve` has the join of all rows at hand.
const READ_ROWS: usize = 65_536;

/// The least environment of rules, by 1 to 64 workers: round by round they raise the words of the rows, until a round changes none, or leaves no rule due. It is the same for
/// every number of workers, whoever of them computes which rule and when.
///
/// The first round takes all recording rules, and each later one those that are due, since a row that they read was raised after they were computed last, and those that
/// read what a rule taken before them records. Each second round is made by one worker, who takes the rules in their order, and so is each round over more words than each
/// worker should have for itself. Where several take the rules, one may come to a rule while another is still at what it reads, and a long chain of such rules would take as
/// many rounds.
///
/// Where many selectors say no name, one worker finds the environment by `solve`: rounds would take as long as there are such rules times the recorded names.
pub fn solve_shared<R: Threads + Sync, G: Gate + Sync>(
    rt: &R,
    alloc: Global,
    universe: &Universe,
    rules: &Seq<Rule>,
    workers: u32,
    gate: &G,
) -> Result<Env, Memory>
    requires workers { (0 < workers) × (workers ≤ 64) }
    requires covers { CoversRules universe.now (rule_trees rules.now) }
    ensures { IfOk result (IsLeast universe.now (rule_trees rules.now)) }
{
    let sources = Sources::of(alloc, rules)?;
    solve_shared_by(rt, alloc, universe, rules, &sources, workers, gate)
}

/// As `solve_shared`, by the index of the same rules.
pub fn solve_shared_by<R: Threads + Sync, G: Gate + Sync>(
    rt: &R,
    alloc: Global,
    universe: &Universe,
    rules: &Seq<Rule>,
    sources: &Sources,
    workers: u32,
    gate: &G,
) -> Result<Env, Memory>
    requires workers { (0 < workers) × (workers ≤ 64) }
    requires covers { CoversRules universe.now (rule_trees rules.now) }
    requires sources { IsSourcesOf (rule_trees rules.now) sources.now }
    ensures { IfOk result (IsLeast universe.now (rule_trees rules.now)) }
{
    if read_many(sources) {
        return solve_by(alloc, universe, rules, sources);
    }
    solve_in_rounds(rt, alloc, universe, rules, sources, workers, gate)
}

/// The same, round by round.
fn solve_in_rounds<R: Threads + Sync, G: Gate + Sync>(
    rt: &R,
    alloc: Global,
    universe: &Universe,
    rules: &Seq<Rule>,
    sources: &Sources,
    workers: u32,
    gate: &G,
) -> Result<Env, Memory>
    requires workers { (0 < workers) × (workers ≤ 64) }
    requires covers { CoversRules universe.now (rule_trees rules.now) }
    requires sources { IsSourcesOf (rule_trees rules.now) sources.now }
    ensures { IfOk result (IsLeast universe.now (rule_trees rules.now)) }
{
    // For what its contract says of the universe.
    let _labels = universe.labels();
    let mut env = Env::bottom(alloc, universe, rules)?;
    let all = recording_rules_by(alloc, rules, sources)?;
    let mut standing = Standing::first(alloc, universe, rules, &all, sources)?;
    let mut turn = 0;
    'rounds: loop {
        let seats = seats_in(turn, workers, standing.words.len());
        let before = standing.words.total();
        standing = behind_round(
            rt, alloc, universe, rules, &all, standing, seats, &mut env, gate,
        )?;
        if is_last(&standing, before) {
            let env = environment(alloc, universe, env, &standing.words)?;
            return Ok(env);
        }
        turn = (turn % TURNS + 1) % TURNS;
    }
}

/// Whether the rules that have a selector without a name read more rows together than rounds should load. It is for speed alone which way is taken, so no clause says it.
fn read_many(sources: &Sources) -> bool {
    let mut rules = 0_usize;
    for k in 0..sources.rule_count() {
        if read_all(sources.selected_by(k)) {
            rules = rules.saturating_add(1);
        }
    }
    rules.saturating_mul(sources.recorded().len()) > READ_ROWS
}

/// Whether no further round is needed behind one at whose start the words had this sum: no rule is due, or no word changed.
fn is_last(standing: &Standing, before: u128) -> bool
    ensures last { result ≡ true → (length standing.now.due ≡ 0) ⊎ (sum standing.now.words ≡ before) }
    ensures more { result ≡ false → sum standing.now.words ≢ before }
{
    if standing.due.len() == 0 {
        return true;
    }
    standing.words.total() == before
}

/// What a round leaves that takes the rules that are due.
fn behind_round<R: Threads + Sync, G: Gate + Sync>(
    rt: &R,
    alloc: Global,
    universe: &Universe,
    rules: &Seq<Rule>,
    all: &Seq<u32>,
    before: Standing,
    seats: u32,
    env: &mut Env,
    gate: &G,
) -> Result<Standing, Memory>
    requires seats { (0 < seats) × (seats ≤ 64) }
    requires covers { CoversRules universe.now (rule_trees rules.now) }
    requires all { AreTaskPieces (rule_trees rules.now) all.now }
    requires before { IsStanding universe.now (rule_trees rules.now) before }
    requires env { IsEnvironmentOf universe.now (rule_trees rules.now) env.old }
    ensures standing { IfOk result (IsStanding universe.now (rule_trees rules.now)) }
    ensures rises { IfOk result (λ next. Rises universe.now (rule_trees rules.now) before.words next.words) }
    ensures env { IfOk result (λ _. IsEnvironmentOf universe.now (rule_trees rules.now) env.new) }
{
    let Standing {
        known,
        words,
        sums,
        due,
    } = before;
    let (round, seat) = Round::of_due(alloc, universe, rules, known, due, words, seats)?;
    let seat = make(rt, alloc, &round, seat, universe, rules, seats, env, gate)?;
    let settled = round.settle(alloc, seat)?;
    let next = Standing::after(alloc, universe, rules, all, sums, settled)?;
    Ok(next)
}

/// All work of a round. One worker does it in the environment that is at hand.
fn make<R: Threads + Sync, G: Gate + Sync>(
    rt: &R,
    alloc: Global,
    round: &Round,
    mut seat: RoundSeat,
    universe: &Universe,
    rules: &Seq<Rule>,
    workers: u32,
    env: &mut Env,
    gate: &G,
) -> Result<RoundSeat, Memory>
    requires over { IsOf round.now universe.now rules.now }
    requires fresh { IsFresh round.now seat }
    requires workers { HasRoomFor workers seat.room }
    requires env { IsEnvironmentOf round.now.universe (rule_trees round.now.rules) env.old }
    ensures shut { IfOk result (IsShut seat) }
    ensures env { IfOk result (λ _. IsEnvironmentOf round.now.universe (rule_trees round.now.rules) env.new) }
{
    if workers == 1 {
        round.work_in(alloc, &mut seat, universe, rules, env, gate)?;
        return Ok(seat);
    }
    run(rt, alloc, round, seat, universe, rules, workers, gate)
}

/// How many workers make the round of a turn, which are counted from 0, over so many words.
fn seats_in(turn: u32, workers: u32, words: usize) -> u32
    requires { (0 < workers) × (workers ≤ 64) }
    ensures { (0 < result) × (result ≤ 64) }
{
    if turn == TURNS - 1 || words > SHARED_WORDS {
        1
    } else {
        workers
    }
}

/// Halves the workers until each has a thread of its own, where one can be made. Seats are joined after their workers.
#[cycle(workers)]
fn run<R: Threads + Sync, G: Gate + Sync>(
    rt: &R,
    alloc: Global,
    round: &Round,
    mut seat: RoundSeat,
    universe: &Universe,
    rules: &Seq<Rule>,
    workers: u32,
    gate: &G,
) -> Result<RoundSeat, Memory>
    requires over { IsOf round.now universe.now rules.now }
    requires fresh { IsFresh round.now seat }
    requires workers { HasRoomFor workers seat.room }
    ensures { IfOk result (IsShut seat) }
{
    if workers == 1 {
        round.work(alloc, &mut seat, universe, rules, gate)?;
        return Ok(seat);
    }
    let low = workers / 2;
    let high = workers - low;
    let theirs = round.split(&mut seat, low - 1);
    let front = move || -> Result<RoundSeat, Memory>
        requires threads { IsSync R.row × IsSync G.row }
        requires run { IsOf round.now universe.now rules.now × IsFresh round.now theirs × HasRoomFor low theirs.room }
        ensures { IfOk result (IsShut theirs) }
    { run(rt, alloc, round, theirs, universe, rules, low, gate) };
    let back = move || -> Result<RoundSeat, Memory>
        requires threads { IsSync R.row × IsSync G.row }
        requires run { IsOf round.now universe.now rules.now × IsFresh round.now seat × HasRoomFor high seat.room }
        ensures { IfOk result (IsShut seat) }
    { run(rt, alloc, round, seat, universe, rules, high, gate) };
    let (front, back) = join(rt, front, back);
    let other = front?;
    let mut mine = back?;
    round.join_all(&mut mine, other)?;
    Ok(mine)
}

/// An environment in which the rows are those for which words stand. A row at hand that has these words stays.
fn environment(
    alloc: Global,
    universe: &Universe,
    mut env: Env,
    words: &TableWords,
) -> Result<Env, Memory>
    requires env { IsEnvironment universe.now env }
    requires words { length words.now ≡ length env * word_count universe.now }
    ensures { IfOk result (λ made. made ≡ environment_of universe.now (names_of env) words.now) }
{
    let _labels = universe.labels();
    let width = universe.words() as usize;
    let mut own = vec![in alloc; 0; width]?;
    for name in 0..env.names() {
        let at = name as usize * width;
        let part = &words.row_words()[at..at + width];
        take_row(alloc, universe, &mut env, name, part, &mut own)?;
    }
    Ok(env)
}
