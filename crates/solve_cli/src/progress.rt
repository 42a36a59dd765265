//! How far a search has come, written on standard error at most once a second.
use crate::reasons::chain_of;
use crate::search_result::Observer;
use mrcpsp::{Project, Schedule, check};
use std::fmt;
use std::io::Eprint;
use std::rt::Runtime;
use std::time::Instant;

#[derive(Clone, Copy, Debug, PartialEq, Eq)]
pub(crate) enum Telling {
    Nothing,
    /// The nodes, the rate and the best makespan.
    Nodes,
    /// Also the percent of the most nodes, the seconds, and the longest chain of activities.
    All,
}

#[derive(Drop)]
pub(crate) struct ProgressLine<'a, R> {
    rt: &'a R,
    telling: Telling,
    /// The most nodes of all searches.
    most: u64,
    start: Option<Instant>,
    /// The seconds at which the last line was written.
    written: u64,
    ended: u64,
    /// The longest chain of activities, once it was looked for.
    chain: Option<u32>,
}

#[derive(Clone, Copy, Debug)]
struct Periods(Option<u32>);

impl fmt::Display for Periods {
    fn fmt<W: fmt::Write>(&self, f: &mut fmt::Formatter<W>) -> fmt::Result {
        match self.0 {
            Some(periods) => write!(f, "{periods}"),
            None => write!(f, "none"),
        }
    }
}

fn makespan_of(project: &Project, best: Option<&Schedule>) -> Option<u32> {
    match best {
        Some(schedule) => check(project, schedule).ok(),
        None => None,
    }
}

impl<'a, R: Runtime + AllocGlobal> ProgressLine<'a, R> {
    /// Writes nothing if it is not asked to, or if the clock cannot be read.
    pub(crate) fn new(rt: &'a R, telling: Telling, most: u64) -> ProgressLine<'a, R> {
        let start = if telling == Telling::Nothing {
            None
        } else {
            Instant::now(rt).ok()
        };
        ProgressLine {
            rt,
            telling,
            most,
            start,
            written: 0,
            ended: 0,
            chain: None,
        }
    }

    /// The whole seconds since the start, if a line is due.
    fn due(&self) -> Option<u64> {
        let start = self.start?;
        let seconds = start.elapsed(self.rt).ok()?.as_secs();
        if seconds > self.written {
            Some(seconds)
        } else {
            None
        }
    }

    fn tell_all(&mut self, project: &Project, nodes: u64, seconds: u64, makespan: Option<u32>) {
        if self.chain.is_none() {
            self.chain = chain_of(self.rt.alloc(), project).ok();
        }
        let rate = nodes / seconds.max(1);
        let percent = nodes / (self.most / 100).max(1);
        let (best, chain) = (Periods(makespan), Periods(self.chain));
        let _ = eprintln!(self.rt;
            "nodes {nodes} {percent} % seconds {seconds} rate {rate} best {best} chain {chain}"
        );
    }
}

impl<'a, R: Runtime + AllocGlobal> Observer for ProgressLine<'a, R> {
    fn look(&mut self, project: &Project, nodes: u64, best: Option<&Schedule>) {
        let Some(seconds) = self.due() else {
            return;
        };
        self.written = seconds;
        let nodes = self.ended.saturating_add(nodes);
        let makespan = makespan_of(project, best);
        if self.telling == Telling::All {
            self.tell_all(project, nodes, seconds, makespan);
            return;
        }
        let rate = nodes / seconds.max(1);
        let best = Periods(makespan);
        let _ = eprintln!(self.rt; "nodes {nodes} rate {rate} best {best}");
    }

    fn end(&mut self, nodes: u64) {
        self.ended = self.ended.saturating_add(nodes);
    }
}
