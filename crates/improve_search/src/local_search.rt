//! A search that looks for better schedules, step by step.
ghost use Rattle.std.specs.Prelude.{◌≡◌, ◌⊎◌, ◌+◌, ◌<◌, ◌≤◌, true, false, IsTrue, IsFalse, IfOk, IfSome, option_map};
ghost use Rattle.std.specs.Option.{option_copied};
ghost use Rattle.mrcpsp.specs.Schedule.{IsFeasible, makespan};
ghost use Rattle.improve_search.specs.LocalSearch.{fresh, is_over, is_shortest, IsNoLonger};

use crate::annealing::{Annealing, Stocks};
use crate::best::{BestChecked, better};
use crate::budget::Budget;
use measures::Measures;
use mrcpsp::{Project, Schedule};
use std::alloc::{AllocError, Global};
use std::marker::Model;
use std::mem;

/// The most schedules of a candidate.
const MOST_OF_STEP: u64 = 3;

/// Runs that keep the nonrenewable capacities get one schedule among this number.
const STRICT_SHARE: u64 = 4;

/// The schedules of such a run for each activity.
const STRICT_LENGTH: u64 = 1_000;

/// The last run, which may exceed the nonrenewable capacities.
const LAST_RUN: u64 = u64::MAX;

/// A `LocalSearch` is a search for better schedules of a project by simulated annealing. It has a
/// number of schedules that it may generate.
#[derive(Drop)]
pub struct LocalSearch {
    alloc: Global,
    project: Project,
    annealing: Annealing,
    budget: Budget,
    strict: u64,
    length: u64,
    begun: Option<u64>,
    best: BestChecked,
    /// The longest chain of activities by shortest durations, in periods.
    bound: u32,
}

impl Model for LocalSearch {
    ghost use Rattle.std.specs.Prelude.{◌≡◌};
    ghost use Rattle.mrcpsp.specs.Values.{bound as chain_of};
    ghost use Rattle.improve_search.specs.LocalSearch.{LocalSearchData};
    ghost use Rattle.improve_search.specs.Best.{best_in, IsKept};

    ghost Value = { LocalSearchData };

    ghost view = { λ s. record { project = s.project; most = s.budget.most; spent = s.budget.spent; best = best_in s.best } };

    ghost invariant = { λ s. IsKept s.project s.best × (s.bound ≡ chain_of s.project) };
}

impl LocalSearch {
    /// A search that may generate `most` schedules, or `None` if an activity has no mode that may
    /// run. A seed gives equal schedules anywhere. The search takes no memory later on.
    pub fn new(
        alloc: Global,
        project: &Project,
        seed: u64,
        most: u64,
    ) -> Result<Option<LocalSearch>, AllocError>
        ensures { IfOk result (λ made. IfSome made (λ search. search ≡ fresh project.now most)) }
    {
        let Some(annealing) = Annealing::new(alloc, project, seed)? else {
            return Ok(None);
        };
        let best = BestChecked::none(alloc, project.size())?;
        let bound = Measures::of(alloc, project)?.bound();
        let strict = if annealing.has_ample_stocks() {
            0
        } else {
            most / STRICT_SHARE
        };
        Ok(Some(LocalSearch {
            alloc,
            project: project.clone_in(alloc)?,
            annealing,
            budget: Budget::new(most),
            strict,
            length: STRICT_LENGTH.wrapping_mul(project.size() as u64),
            begun: None,
            best,
            bound,
        }))
    }

    /// How many schedules were generated.
    pub fn spent(&self) -> u64
        ensures exact { result ≡ self.now.spent }
        ensures within { result ≤ self.now.most }
    {
        self.budget.spent
    }

    /// The best schedule, which was checked.
    pub fn best(&self) -> Option<&Schedule>
        ensures best { option_copied result ≡ self.now.best }
        ensures feasible { IfSome self.now.best (IsFeasible self.now.project) }
    {
        self.best.schedule()
    }

    /// The makespan of the best schedule, in periods.
    pub fn makespan(&self) -> Option<u32>
        ensures { result ≡ option_map (makespan self.now.project) self.now.best }
    {
        self.best.makespan()
    }

    /// Whether the best schedule is as short as the longest chain of activities by shortest
    /// durations, so that it is optimal.
    pub fn is_shortest(&self) -> bool
        ensures exact { result ≡ is_shortest self.now.project self.now.best }
    {
        match self.best.makespan() {
            Some(makespan) => makespan <= self.bound,
            None => false,
        }
    }

    /// Whether the search generates no more schedules: the best one is as short as the longest
    /// chain, or fewer are left than a candidate may need.
    pub fn is_over(&self) -> bool
        ensures exact { result ≡ is_over self.now }
    {
        self.is_shortest() || self.budget.left() < MOST_OF_STEP
    }

    /// The runs that keep the nonrenewable capacities come first, and then the last one.
    fn due(&self) -> u64 {
        if self.budget.spent < self.strict {
            self.budget.spent / self.length.max(1)
        } else {
            LAST_RUN
        }
    }

    fn is_promising(&self) -> bool {
        let makespan = self.annealing.current().makespan;
        let is_shorter = match self.best.makespan() {
            Some(shortest) => makespan < shortest,
            None => true,
        };
        is_shorter && self.annealing.keeps_stocks()
    }

    fn keep(&mut self)
        ensures project { self.new.project ≡ self.old.project }
        ensures spent { self.new.spent ≡ self.old.spent }
        ensures most { self.new.most ≡ self.old.most }
        ensures no_longer { IsNoLonger self.old.project self.old.best self.new.best }
    {
        let best = mem::replace(&mut self.best, BestChecked::empty(self.alloc));
        self.best = better(best, &self.project, &self.annealing);
    }

    fn walk(&mut self) -> bool
        requires { self.old.spent + MOST_OF_STEP ≤ self.old.most }
        ensures project { self.new.project ≡ self.old.project }
        ensures spent { self.old.spent < self.new.spent }
        ensures few { self.new.spent ≤ self.old.spent + MOST_OF_STEP }
        ensures most { self.new.most ≡ self.old.most }
        ensures best { self.new.best ≡ self.old.best }
    {
        let due = self.due();
        if self.begun == Some(due) {
            return self.annealing.step(&mut self.budget);
        }
        self.begun = Some(due);
        let (stocks, schedules) = if due == LAST_RUN {
            (Stocks::Priced, self.budget.left())
        } else {
            (Stocks::Kept, self.strict.min(self.length))
        };
        self.annealing.begin(stocks, schedules, &mut self.budget);
        true
    }

    fn step(&mut self)
        requires { self.old.spent + MOST_OF_STEP ≤ self.old.most }
        ensures project { self.new.project ≡ self.old.project }
        ensures spent { self.old.spent < self.new.spent }
        ensures few { self.new.spent ≤ self.old.spent + MOST_OF_STEP }
        ensures most { self.new.most ≡ self.old.most }
        ensures no_longer { IsNoLonger self.old.project self.old.best self.new.best }
    {
        if self.walk() && self.is_promising() {
            self.keep();
        }
    }

    /// Generates `schedules` more, and at most two besides, unless the search is over before that.
    /// A search that is over stays as it is. Returns whether it has generated any and is not over.
    #[tactic(auto, using(crate::proofs::LongerLemmas::longer_self, crate::proofs::LongerLemmas::longer_then))]
    pub fn run(&mut self, schedules: u64) -> bool
        ensures project { self.new.project ≡ self.old.project }
        ensures spent { self.old.spent ≤ self.new.spent }
        ensures few { self.new.spent ≤ self.old.spent + schedules + 2 }
        ensures most { self.new.most ≡ self.old.most }
        ensures no_longer { IsNoLonger self.old.project self.old.best self.new.best }
        ensures over { is_over self.old ≡ true → self.new ≡ self.old }
        ensures enough { is_over self.new ≡ false → self.old.spent + schedules ≤ self.new.spent }
        ensures going { IsTrue result → self.old.spent < self.new.spent × (is_over self.new ≡ false) }
        ensures still { IsFalse result → (self.new.spent ≡ self.old.spent) ⊎ (is_over self.new ≡ true) }
    {
        let begin = self.budget.spent;
        for _ in 0..schedules {
            if self.is_over() || self.budget.spent - begin >= schedules {
                break;
            }
            self.step();
        }
        begin < self.budget.spent && !self.is_over()
    }

    /// The best schedule, at the end.
    pub fn into_best(self) -> Option<Schedule>
        ensures best { result ≡ self.best }
        ensures feasible { IfSome result (IsFeasible self.project) }
    {
        self.best.into_schedule()
    }
}
