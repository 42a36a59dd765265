//! The parts of a search, and its steps.
ghost use Rattle.std.specs.Prelude.{◌≤◌, vec_len};

use crate::analysis::{Analysis, Lesson};
use crate::averages::Average;
use crate::exchange::Exchange;
use crate::extension::Extension;
use crate::stable::Stable;
use crate::step_log::{StepLog, note_learned};
use clause_kernel::{Formula, Kernel};
use clause_store::arena::{Arena, GONE, HEAD, LEARNED, NO_CLAUSE, clause_at};
use clause_store::queue::{NO_VARIABLE, Queue};
use clause_store::trail::{FALSE, OPEN, Trail};
use clause_store::watches::Watches;
use std::alloc::{AllocError, Global};

/// Conflicts before the first reduction, and how much later each next one comes.
const REDUCTION: u64 = 300;

/// The last learned clauses that a new one may subsume.
const LAST: usize = 20;

/// What a step that met no conflict came to.
#[derive(Clone, Copy, PartialEq, Eq)]
pub enum Progress {
    Goes,
    /// All variables have values.
    Ends,
    /// There is no room for a learned clause, also after a reduction.
    Full,
}

/// An engine is the state of a search. Nothing of it is believed.
#[derive(Drop)]
pub struct Engine {
    pub alloc: Global,
    pub arena: Arena,
    pub trail: Trail,
    pub watches: Watches,
    pub queue: Queue,
    pub analysis: Analysis,
    /// Places of the given clauses that are left, and of resolvents.
    pub clauses: Vec<u32>,
    pub learned: Vec<u32>,
    /// Places of the given clauses that are shorter than in the kernel.
    shorter: Vec<u32>,
    /// Literals before this place of the trail are known to the kernel as clauses.
    pub settled: usize,
    /// Literals of the trail when clauses were last cleaned of them.
    pub cleaned: usize,
    /// Steps that the kernel refused.
    pub refused: u64,
    fast: Average,
    slow: Average,
    restart_at: u64,
    pub reduce_at: u64,
    pub reductions: u64,
    /// A learned clause found no room.
    is_crowded: bool,
    is_watched: bool,
    /// A given clause is empty, or two are opposite units.
    is_contradictory: bool,
    /// A given clause found no room.
    pub is_full: bool,
    pub extension: Extension,
    pub stable: Stable,
    /// Decisions are those of `stable`.
    pub is_stable: bool,
    pub exchange: Exchange,
    /// What the kernel learned and forgot since it was taken out; none unless it is asked for.
    pub log: Option<StepLog>,
    pub variables: u32,
}

impl Engine {
    pub fn new(alloc: Global, variables: u32, words: usize) -> Result<Engine, AllocError> {
        Ok(Engine {
            alloc,
            arena: Arena::new(alloc, words),
            trail: Trail::new(alloc, variables)?,
            watches: Watches::new(alloc, 2 * variables as usize)?,
            queue: Queue::new(alloc, variables)?,
            analysis: Analysis::new(alloc, variables)?,
            clauses: Vec::new(alloc),
            learned: Vec::new(alloc),
            shorter: Vec::new(alloc),
            settled: 0,
            cleaned: 0,
            refused: 0,
            fast: Average::new(5),
            slow: Average::new(17),
            restart_at: 2,
            reduce_at: REDUCTION,
            reductions: 0,
            is_crowded: false,
            is_watched: false,
            is_contradictory: false,
            is_full: false,
            extension: Extension::new(alloc),
            stable: Stable::new(alloc, variables)?,
            is_stable: false,
            exchange: Exchange::new(alloc),
            log: None,
            variables,
        })
    }

    /// Adds a given clause, of different variables, whose number in the kernel is `number`.
    pub fn add(&mut self, literals: &[u32], number: u32) -> Result<(), AllocError> {
        match literals {
            [] => self.is_contradictory = true,
            [literal] => self.assign_given(*literal),
            _ => {
                let clause = self.store(literals, number)?;
                if clause != NO_CLAUSE {
                    self.clauses.push(clause)?;
                }
            }
        }
        Ok(())
    }

    /// Adds a given clause that has a literal twice in the kernel, and once here. `begin` has the
    /// kernel learn the shorter one.
    pub fn add_shorter(&mut self, literals: &[u32], number: u32) -> Result<(), AllocError> {
        let clause = self.store(literals, number)?;
        if clause != NO_CLAUSE {
            self.shorter.push(clause)?;
        }
        Ok(())
    }

    fn store(&mut self, literals: &[u32], number: u32) -> Result<u32, AllocError> {
        let clause = self.arena.push(literals, 0, 0, number)?;
        if clause == NO_CLAUSE {
            self.is_full = true;
        }
        Ok(clause)
    }

    fn assign_given(&mut self, literal: u32) {
        match self.trail.value(literal) {
            OPEN => self.trail.assign(literal, NO_CLAUSE),
            FALSE => self.is_contradictory = true,
            _ => {}
        }
        self.settled = self.trail.count();
    }

    /// Derives a clause. Returns its number, or `NO_CLAUSE` if it is refused or a unit.
    pub fn derive<F: Formula>(
        &mut self,
        kernel: &mut Kernel<F>,
        clause: &[u32],
        hints: &[u32],
    ) -> Result<u32, AllocError> {
        match kernel.learn(clause, hints)? {
            Some(number) => {
                note_learned(&mut self.log, clause)?;
                Ok(number)
            }
            None => {
                self.refused = self.refused.saturating_add(1);
                Ok(NO_CLAUSE)
            }
        }
    }

    /// Whether nothing is left to do: the clauses are refuted, or a step was refused.
    pub fn is_done<F: Formula>(&self, kernel: &Kernel<F>) -> bool {
        self.refused > 0 || kernel.is_refuted()
    }

    /// Has the kernel forget the clause with this number.
    pub fn forget<F: Formula>(&mut self, kernel: &mut Kernel<F>, number: u32) {
        if let Some(log) = &mut self.log {
            // (a clause that is not told as forgotten does no harm)
            let _ = log.note(kernel.clause(number), true);
        }
        kernel.forget(number);
    }

    pub fn drop_clause<F: Formula>(&mut self, kernel: &mut Kernel<F>, clause: u32) {
        self.arena.set_flag(clause, GONE);
        self.arena
            .waste(self.arena.size(clause).saturating_add(HEAD));
        let number = self.arena.number(clause);
        self.forget(kernel, number);
    }

    /// Gives the clauses up if the arena may grow beyond `words`. It never may: its limit is the
    /// search's own, and stays.
    pub fn keep_within(&mut self, words: usize)
        ensures { vec_len self.new.arena.words ≤ words }
    {
        if words < self.arena.most() {
            self.arena = Arena::new(self.alloc, words);
            self.refused = self.refused.saturating_add(1);
        }
    }

    pub fn propagate(&mut self) -> Result<u32, AllocError> {
        self.watches
            .propagate(&mut self.arena.words, &mut self.trail)
    }

    pub fn backtrack(&mut self, level: usize) -> Result<(), AllocError> {
        let before = self.trail.count();
        self.trail.backtrack(level, &mut self.queue);
        if self.is_stable {
            for place in self.trail.count()..before {
                let variable = self.trail.at(place) / 2;
                self.stable.insert(variable)?;
            }
        }
        Ok(())
    }

    fn bump(&mut self) -> Result<(), AllocError> {
        if self.is_stable {
            self.stable.bump(&self.analysis.analyzed);
        } else {
            self.analysis.bump(&mut self.queue, &self.trail)?;
        }
        self.analysis.forget_analyzed();
        Ok(())
    }

    /// Learns a clause from a conflict.
    pub fn learn<F: Formula>(
        &mut self,
        kernel: &mut Kernel<F>,
        conflict: u32,
    ) -> Result<(), AllocError> {
        if self.is_stable {
            let count = self.trail.last_limit();
            self.stable.note(&self.trail, count);
        }
        let Lesson { level, glue } = self
            .analysis
            .analyze(&mut self.arena, &self.trail, conflict)?;
        self.bump()?;
        self.fast.add(glue);
        self.slow.add(glue);
        let Some(number) = kernel.learn(&self.analysis.clause, &self.analysis.numbers)? else {
            self.refused = self.refused.saturating_add(1);
            return Ok(());
        };
        note_learned(&mut self.log, &self.analysis.clause)?;
        self.backtrack(level)?;
        let first = self.analysis.clause.first().copied().unwrap_or(0);
        if self.analysis.clause.len() < 2 {
            self.settle(kernel)?;
            self.trail.assign(first, NO_CLAUSE);
            return Ok(());
        }
        let clause = self
            .arena
            .push(&self.analysis.clause, LEARNED, glue, number)?;
        if clause == NO_CLAUSE {
            self.forget(kernel, number);
            self.is_crowded = true;
            return Ok(());
        }
        self.exchange.note(number, glue)?;
        self.subsume_last(kernel);
        self.learned.push(clause)?;
        self.watches.attach(&self.arena, clause)?;
        self.trail.assign(first, clause);
        Ok(())
    }

    /// Drops those of the last learned clauses that the new one subsumes.
    fn subsume_last<F: Formula>(&mut self, kernel: &mut Kernel<F>) {
        self.analysis.mark_clause();
        let from = self.learned.len().saturating_sub(LAST);
        for place in from..self.learned.len() {
            let clause = clause_at(&self.learned, place);
            if self.arena.size(clause) > 2
                && self.analysis.is_within(self.arena.literals(clause))
                && !self.is_reason(clause)
            {
                self.drop_clause(kernel, clause);
                self.arena.set_size(clause, 0);
            }
        }
    }

    /// Whether a literal of the trail follows by the clause.
    fn is_reason(&self, clause: u32) -> bool {
        let (one, other) = (self.arena.literal(clause, 0), self.arena.literal(clause, 1));
        self.trail.reason(one / 2) == clause && !self.trail.is_open(one / 2)
            || self.trail.reason(other / 2) == clause && !self.trail.is_open(other / 2)
    }

    fn is_restart_due(&mut self, conflicts: u64) -> bool {
        if self.trail.depth() == 0 {
            return false;
        }
        if self.is_stable {
            return self.stable.restarts();
        }
        self.restart_at <= conflicts && self.fast.value / 11 > self.slow.value / 10
    }

    /// Whether a variable is decided before another.
    fn is_before(&self, one: u32, other: u32) -> bool {
        if self.is_stable {
            self.stable.cost(one) < self.stable.cost(other)
        } else {
            self.queue.stamp(other) < self.queue.stamp(one)
        }
    }

    /// Goes back to the first decision that would be made otherwise now.
    fn restart(&mut self, conflicts: u64) -> Result<(), AllocError> {
        self.restart_at = conflicts.saturating_add(2);
        let next = self.next_open();
        let mut level = 0;
        for place in 0..self.trail.depth() {
            let decided = self.trail.decided(place);
            if self.is_before(next, decided) {
                break;
            }
            level = place + 1;
        }
        self.backtrack(level)
    }

    fn next_open(&mut self) -> u32 {
        if self.is_stable {
            return self.stable.next(&self.trail);
        }
        for _ in 0..u32::MAX {
            let next = self.queue.next();
            if next == NO_VARIABLE || self.trail.is_open(next) {
                break;
            }
            self.queue.pass();
        }
        self.queue.next()
    }

    fn decide(&mut self, variable: u32) -> Result<(), AllocError> {
        let literal = if self.is_stable {
            self.stable.literal(&self.trail, variable)
        } else {
            self.trail.saved_literal(variable)
        };
        self.trail.decide(literal)
    }

    fn change_phases(&mut self, conflicts: u64) -> Result<(), AllocError> {
        self.backtrack(0)?;
        self.stable
            .change_phases(&mut self.trail, self.variables, conflicts);
        Ok(())
    }

    /// Whether the search has begun.
    pub fn is_watched(&self) -> bool {
        self.is_watched
    }

    fn derive_shorter<F: Formula>(
        &mut self,
        kernel: &mut Kernel<F>,
        clause: u32,
    ) -> Result<(), AllocError> {
        let number = self.arena.number(clause);
        let Some(shorter) = kernel.learn(self.arena.literals(clause), &[number])? else {
            self.refused = self.refused.saturating_add(1);
            return Ok(());
        };
        note_learned(&mut self.log, self.arena.literals(clause))?;
        self.forget(kernel, number);
        self.arena.set_number(clause, shorter);
        if self.arena.size(clause) > 1 {
            self.clauses.push(clause)?;
            return Ok(());
        }
        let literal = self.arena.literal(clause, 0);
        if self.trail.value(literal) == OPEN {
            self.assign_settled(literal);
        }
        Ok(())
    }

    /// Cleans the given clauses of what the units among them decide.
    pub fn begin<F: Formula>(&mut self, kernel: &mut Kernel<F>) -> Result<(), AllocError> {
        if self.is_contradictory {
            self.derive(kernel, &[], &[])?;
        }
        for place in 0..self.shorter.len() {
            let clause = clause_at(&self.shorter, place);
            self.derive_shorter(kernel, clause)?;
        }
        self.shorter.clear();
        if self.is_done(kernel) {
            return Ok(());
        }
        self.clean(kernel)
    }

    /// Watches the clauses. The search begins.
    pub fn watch(&mut self) -> Result<(), AllocError> {
        self.is_watched = true;
        self.queue.reset();
        for variable in 0..self.variables {
            self.stable.insert(variable)?;
        }
        self.watch_all()
    }

    /// Reduces the learned clauses, and cleans all of what level 0 decided since.
    fn lighten<F: Formula>(
        &mut self,
        kernel: &mut Kernel<F>,
        conflicts: u64,
    ) -> Result<Progress, AllocError> {
        let is_crowded = self.is_crowded;
        self.is_crowded = false;
        self.reduce_at = conflicts.saturating_add(REDUCTION.saturating_mul(
            self.reductions.saturating_add(2),
        ));
        self.reduce(kernel, is_crowded)?;
        if self.trail.root_count() > self.cleaned {
            self.tidy(kernel)?;
        }
        let most = self.arena.most();
        if is_crowded && self.arena.words.len() > most.saturating_sub(most / 16) {
            self.is_crowded = true;
            return Ok(Progress::Full);
        }
        Ok(Progress::Goes)
    }

    /// Makes the next step behind a propagation without a conflict.
    pub fn step<F: Formula>(
        &mut self,
        kernel: &mut Kernel<F>,
        conflicts: u64,
    ) -> Result<Progress, AllocError> {
        if self.is_full {
            return Ok(Progress::Full);
        }
        if self.trail.depth() == 0 {
            self.settle(kernel)?;
        }
        if self.is_restart_due(conflicts) {
            self.restart(conflicts)?;
            return Ok(Progress::Goes);
        }
        if self.is_crowded || self.reduce_at <= conflicts {
            return self.lighten(kernel, conflicts);
        }
        if self.is_stable && self.stable.changes_phases(conflicts) {
            self.change_phases(conflicts)?;
            return Ok(Progress::Goes);
        }
        let next = self.next_open();
        if next == NO_VARIABLE {
            return Ok(Progress::Ends);
        }
        self.decide(next)?;
        Ok(Progress::Goes)
    }
}
