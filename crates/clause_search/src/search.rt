//! The search as others see it.
ghost use Rattle.std.specs.Prelude.{◌≡◌, ◌+◌, ◌≤◌, true, IfOk};

use crate::simplifier::simplify;
use clause_engine::engine::{Engine, Progress};
use clause_engine::exchange::Message;
use clause_engine::stable::set_each;
use clause_engine::step_log::StepLog;
use clause_kernel::{ClauseList, Formula, Kernel};
use clause_store::arena::{NO_CLAUSE, short};
use clause_store::trail::{TRUE, Trail, filled};
use std::alloc::{AllocError, Global};
use std::marker::Model;
use std::mem;

/// An answer is what a run of a search came to.
#[derive(Clone, Copy, PartialEq, Eq, Debug)]
pub enum SearchAnswer {
    /// Values were found (`Search::values`). They are not checked.
    Satisfied,
    /// The kernel holds the empty clause.
    Refuted,
    /// The conflicts were not enough, or the kernel refused a step.
    Open,
    /// The words were not enough.
    Full,
}

/// The limits of a search.
#[derive(Clone, Copy, Debug)]
pub struct SearchLimits {
    /// The most words, of 4 bytes, that a search holds in clauses. The kernel holds equally many.
    pub words: usize,
}

/// A search is a solver's state: clauses, values and what it has learned so far.
#[derive(Drop)]
pub struct Search {
    engine: Engine,
    conflicts: u64,
    limits: SearchLimits,
    values: Vec<bool>,
    /// No run ended for want of memory.
    is_whole: bool,
}

impl Model for Search {
    ghost use Rattle.clause_search.specs.Spent.{Spent};
    ghost use Rattle.std.specs.Prelude.{vec_len};

    ghost Value = { Spent };

    ghost view = { λ s. record { conflicts = s.conflicts; words = vec_len s.engine.arena.words; most_words = s.limits.words } };
}

/// Writes the literals of a clause, each once. Returns false if the clause is always true.
fn take_distinct(
    clause: &[u32],
    seen: &mut [u32],
    round: u32,
    distinct: &mut Vec<u32>,
) -> Result<bool, AllocError> {
    distinct.clear();
    for literal in clause {
        if seen.get((*literal ^ 1) as usize).copied() == Some(round) {
            return Ok(false);
        }
        if let Some(stamp) = seen.get_mut(*literal as usize) {
            if *stamp != round {
                *stamp = round;
                distinct.push(*literal)?;
            }
        }
    }
    Ok(true)
}

fn add_all(engine: &mut Engine, alloc: Global, formula: &ClauseList) -> Result<(), AllocError> {
    let mut seen = filled(alloc, formula.literal_count(), 0)?;
    let mut distinct = Vec::new(alloc);
    for place in 0..formula.len() {
        let number = short(place);
        let round = number.saturating_add(1);
        let clause = formula.get(place);
        if !take_distinct(clause, &mut seen, round, &mut distinct)? {
            continue;
        }
        if distinct.len() < clause.len() {
            engine.add_shorter(&distinct, number)?;
        } else {
            engine.add(&distinct, number)?;
        }
    }
    Ok(())
}

fn note_values(trail: &Trail, values: &mut [bool]) {
    let mut literal = 0u32;
    for value in values.iter_mut() {
        *value = trail.value(literal) == TRUE;
        literal = literal.saturating_add(2);
    }
}

/// Simplifies the clauses and watches them.
fn begin<F: Formula>(engine: &mut Engine, kernel: &mut Kernel<F>) -> Result<(), AllocError> {
    engine.begin(kernel)?;
    if !engine.is_done(kernel) {
        simplify(engine, kernel)?;
    }
    if !engine.is_done(kernel) {
        engine.clean(kernel)?;
    }
    engine.watch()
}

/// Goes on until the clauses are decided, or for `budget` conflicts more.
fn run_engine<F: Formula>(
    engine: &mut Engine,
    conflicts: &mut u64,
    kernel: &mut Kernel<F>,
    budget: u64,
) -> Result<SearchAnswer, AllocError>
    ensures budget { conflicts.new ≤ conflicts.old + budget }
    ensures refuted { IfOk result (λ answer. answer ≡ SearchAnswer.Refuted → kernel.new.refuted ≡ true) }
{
    let end = conflicts.saturating_add(budget);
    if budget > 0 && !engine.is_watched() && !engine.is_full {
        begin(engine, kernel)?;
    }
    for _ in 0..u64::MAX {
        if kernel.is_refuted() {
            return Ok(SearchAnswer::Refuted);
        }
        if engine.refused > 0 || end <= *conflicts {
            break;
        }
        let conflict = engine.propagate()?;
        if conflict == NO_CLAUSE {
            match engine.step(kernel, *conflicts)? {
                Progress::Goes => {}
                Progress::Ends => return Ok(SearchAnswer::Satisfied),
                Progress::Full => return Ok(SearchAnswer::Full),
            }
        } else if engine.trail.depth() == 0 {
            engine.refute(kernel, conflict)?;
        } else {
            *conflicts += 1;
            engine.learn(kernel, conflict)?;
        }
    }
    Ok(SearchAnswer::Open)
}

impl Search {
    /// Takes the clauses of a formula. The number of a clause in the kernel is its place.
    pub fn new(
        alloc: Global,
        formula: &ClauseList,
        limits: SearchLimits,
    ) -> Result<Search, AllocError>
        ensures conflicts { IfOk result (λ search. search.conflicts ≡ 0) }
        ensures words { IfOk result (λ search. search.words ≤ limits.words) }
        ensures limits { IfOk result (λ search. search.most_words ≡ limits.words) }
    {
        let variables = short(formula.literal_count() / 2);
        let mut engine = Engine::new(alloc, variables, limits.words)?;
        add_all(&mut engine, alloc, formula)?;
        engine.keep_within(limits.words);
        Ok(Search {
            engine,
            conflicts: 0,
            limits,
            values: filled(alloc, variables as usize, false)?,
            is_whole: true,
        })
    }

    /// Aims at values and not at a refutation: decides by activity, with the values of the longest
    /// trail so far, and restarts seldom. To be called before the first run.
    pub fn prefer_values(&mut self)
        ensures { self.new ≡ self.old }
    {
        let variables = self.engine.variables;
        self.engine.is_stable = true;
        set_each(&mut self.engine.trail, variables, true);
    }

    /// Begins each variable as true, and not as false. To be called before the first run.
    pub fn begin_with_true(&mut self)
        ensures { self.new ≡ self.old }
    {
        let variables = self.engine.variables;
        set_each(&mut self.engine.trail, variables, true);
    }

    /// Tells of learned clauses of literals of at most `glue` levels from now on.
    pub fn tell_up_to(&mut self, glue: u32)
        ensures { self.new ≡ self.old }
    {
        self.engine.exchange.tell_up_to(glue);
    }

    /// What was learned since the last call, for other searches of the formula.
    pub fn tell<F: Formula>(&mut self, kernel: &Kernel<F>) -> Result<Vec<Message<F>>, AllocError>
        ensures { self.new ≡ self.old }
    {
        self.engine.exchange.tell(&self.engine.trail, kernel)
    }

    /// Takes what another search of the formula has sent, if this one has begun.
    pub fn take<F: Formula>(
        &mut self,
        kernel: &mut Kernel<F>,
        message: &Message<F>,
    ) -> Result<(), AllocError>
        ensures conflicts { self.new.conflicts ≡ self.old.conflicts }
        ensures memory { self.new.words ≤ self.new.most_words }
        ensures limits { self.new.most_words ≡ self.old.most_words }
    {
        let can_take = self.is_whole && self.engine.is_watched() && !kernel.is_refuted();
        let taken = if can_take {
            self.engine.take(kernel, message)
        } else {
            Ok(())
        };
        self.engine.keep_within(self.limits.words);
        self.is_whole = self.is_whole && taken.is_ok();
        taken
    }

    /// Logs from now on what the kernel learns and forgets. To be called before the first run. What
    /// `take` receives is not in the log.
    pub fn keep_log(&mut self)
        ensures { self.new ≡ self.old }
    {
        let alloc = self.engine.alloc;
        self.engine.log = Some(StepLog::new(alloc));
    }

    /// The steps since the last call, or since `keep_log`; none without a log.
    pub fn take_log(&mut self) -> Option<StepLog>
        ensures { self.new ≡ self.old }
    {
        let alloc = self.engine.alloc;
        match &mut self.engine.log {
            Some(log) => Some(mem::replace(log, StepLog::new(alloc))),
            None => None,
        }
    }

    /// The conflicts counted so far.
    pub fn conflicts(&self) -> u64
        ensures { result ≡ self.now.conflicts }
    {
        self.conflicts
    }

    /// The words that clauses take now.
    pub fn words(&self) -> usize
        ensures { result ≡ self.now.words }
    {
        self.engine.arena.words.len()
    }

    /// Steps that the kernel refused: each is a fault of this crate.
    pub fn refused(&self) -> u64 {
        self.engine.refused
    }

    /// The values of the variables, after `Satisfied`.
    pub fn values(&self) -> &[bool] {
        &self.values
    }

    /// Searches until the clauses are decided, or for `conflicts` conflicts more. After an `Err`
    /// each later run answers `Open`, or `Refuted` if the kernel is.
    pub fn run<F: Formula>(
        &mut self,
        kernel: &mut Kernel<F>,
        conflicts: u64,
    ) -> Result<SearchAnswer, AllocError>
        ensures budget { self.new.conflicts ≤ self.old.conflicts + conflicts }
        ensures memory { self.new.words ≤ self.new.most_words }
        ensures limits { self.new.most_words ≡ self.old.most_words }
        ensures refuted { IfOk result (λ answer. answer ≡ SearchAnswer.Refuted → kernel.new.refuted ≡ true) }
    {
        let budget = if self.is_whole { conflicts } else { 0 };
        let outcome = run_engine(&mut self.engine, &mut self.conflicts, kernel, budget);
        self.engine.keep_within(self.limits.words);
        match outcome {
            Ok(answer) => {
                note_values(&self.engine.trail, &mut self.values);
                self.engine.extension.extend(&mut self.values);
                Ok(answer)
            }
            Err(fault) => {
                self.is_whole = false;
                Err(fault)
            }
        }
    }
}
