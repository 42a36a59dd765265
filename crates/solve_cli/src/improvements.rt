//! Better schedules, printed when they are found.
use crate::output::{tell_better, tell_better_json};
use crate::progress::ProgressLine;
use crate::search_result::Observer;
use mrcpsp::{Project, Schedule, check};
use std::alloc::{AllocError, Global};
use std::io::Print;
use std::rt::Runtime;

#[derive(Clone, Copy, Debug, PartialEq, Eq)]
pub(crate) enum Style {
    Silent,
    Lines,
    Json,
}

#[derive(Drop)]
pub(crate) struct Improvements<'a, R> {
    rt: &'a R,
    style: Style,
    shortest: Option<u32>,
    ended: u64,
    progress: ProgressLine<'a, R>,
}

impl<'a, R: Runtime + AllocGlobal> Improvements<'a, R> {
    pub(crate) fn new(
        rt: &'a R,
        style: Style,
        progress: ProgressLine<'a, R>,
    ) -> Improvements<'a, R> {
        Improvements {
            rt,
            style,
            shortest: None,
            ended: 0,
            progress,
        }
    }

    fn line_of(
        &self,
        alloc: Global,
        nodes: u64,
        makespan: u32,
        best: &Schedule,
    ) -> Option<Result<String, AllocError>> {
        match self.style {
            Style::Silent => None,
            Style::Lines => Some(tell_better(alloc, makespan, best)),
            Style::Json => Some(tell_better_json(alloc, nodes, makespan, best)),
        }
    }

    fn is_better(&self, makespan: u32) -> bool {
        match self.shortest {
            Some(shortest) => makespan < shortest,
            None => true,
        }
    }

    fn take(&mut self, project: &Project, nodes: u64, best: &Schedule) {
        let Ok(makespan) = check(project, best) else {
            return;
        };
        if !self.is_better(makespan) {
            return;
        }
        self.shortest = Some(makespan);
        let nodes = self.ended.saturating_add(nodes);
        if let Some(Ok(text)) = self.line_of(self.rt.alloc(), nodes, makespan, best) {
            let _ = print!(self.rt; "{text}");
        }
    }
}

impl<'a, R: Runtime + AllocGlobal> Observer for Improvements<'a, R> {
    fn look(&mut self, project: &Project, nodes: u64, best: Option<&Schedule>) {
        self.progress.look(project, nodes, best);
        if let Some(schedule) = best {
            self.take(project, nodes, schedule);
        }
    }

    fn end(&mut self, nodes: u64) {
        self.progress.end(nodes);
        self.ended = self.ended.saturating_add(nodes);
    }
}
