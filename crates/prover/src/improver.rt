//! Local search in runs, each twice as long as the one before, and within a time limit a last one
//! as long as the limit allows: a schedule gets shorter if it cools more slowly.

use crate::task::Pace;
use improve_search::LocalSearch;
use mrcpsp::{Project, Schedule};
use std::alloc::{AllocError, Global};
use std::time::Duration;

/// The schedules of the first run.
const FIRST_RUN: u64 = 40_000;

/// The most schedules of a run.
const LONGEST_RUN: u64 = 1_000_000_000;

fn millis(time: Duration) -> u64 {
    let seconds = time.as_secs().saturating_mul(1_000);
    seconds.saturating_add(u64::from(time.subsec_millis()))
}

/// Runs double in length until this part of the time limit is spent.
const DOUBLING_PART: u64 = 16;

/// An `Improver` is a local search that begins again, with another seed, when a run has ended.
#[derive(Drop)]
pub(crate) struct Improver {
    seed: u64,
    length: u64,
    run: Option<LocalSearch>,
    is_ended: bool,
    /// The schedules of all runs that have ended.
    made: u64,
    /// What was spent of the time limit when the first run began.
    begun: Option<Duration>,
    /// The makespan of the last news.
    shortest: u32,
    has_news: bool,
}

impl Improver {
    pub(crate) fn new(seed: u64) -> Improver {
        Improver {
            seed,
            length: FIRST_RUN,
            run: None,
            is_ended: true,
            made: 0,
            begun: None,
            shortest: u32::MAX,
            has_news: false,
        }
    }

    /// Whether the next work begins a run.
    pub(crate) fn is_ended(&self) -> bool {
        self.is_ended
    }

    /// The schedules of the next run, given the pace if there is a time limit.
    fn next_length(&mut self, pace: Option<Pace>) -> u64 {
        let Some(pace) = pace else {
            return self.length;
        };
        let begun = *self.begun.get_or_insert(pace.spent);
        let spent = millis(pace.spent.saturating_sub(begun));
        let left = millis(pace.left);
        if spent.saturating_mul(DOUBLING_PART - 1) < left {
            return self.length;
        }
        let likely = self.made.saturating_mul(left) / spent.max(1);
        (likely - likely / 8).clamp(FIRST_RUN, LONGEST_RUN)
    }

    fn begin(
        &mut self,
        alloc: Global,
        project: &Project,
        pace: Option<Pace>,
    ) -> Result<(), AllocError> {
        let length = self.next_length(pace);
        self.run = LocalSearch::new(alloc, project, self.seed, length)?;
        self.seed = self.seed.wrapping_add(1);
        self.length = self.length.saturating_mul(2).min(LONGEST_RUN);
        self.shortest = u32::MAX;
        self.is_ended = false;
        Ok(())
    }

    /// Generates `schedules` more. A run that begins is planned by `pace`, if there is a time limit.
    /// Returns false if there is nothing to search.
    pub(crate) fn work(
        &mut self,
        alloc: Global,
        project: &Project,
        schedules: u64,
        pace: Option<Pace>,
    ) -> Result<bool, AllocError> {
        self.has_news = false;
        if self.is_ended {
            self.begin(alloc, project, pace)?;
        }
        let Some(run) = &mut self.run else {
            return Ok(false);
        };
        self.is_ended = !run.run(schedules);
        if self.is_ended {
            self.made = self.made.saturating_add(run.spent());
        }
        if let Some(makespan) = run.makespan()
            && makespan < self.shortest
        {
            self.shortest = makespan;
            self.has_news = true;
        }
        Ok(true)
    }

    /// The best schedule of the run, if the last work has made it shorter.
    pub(crate) fn news(&self) -> Option<&Schedule> {
        match &self.run {
            Some(run) if self.has_news => run.best(),
            _ => None,
        }
    }
}
