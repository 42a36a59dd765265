//! Few chains of precedences, so that at most one activity of each runs in a period. Hints alone.
use crate::activities::{Activities, add_all, add_one, is_among};
use crate::diagram::Demand;
use mrcpsp::Project;
use std::alloc::{AllocError, Global};

/// For each activity all that come before it, right before it or by others between.
#[derive(Drop)]
pub(crate) struct Chains {
    before: Vec<Activities>,
}

impl Chains {
    pub(crate) fn new(alloc: Global, project: &Project) -> Result<Chains, AllocError> {
        let mut chains = Chains {
            before: Vec::new(alloc),
        };
        for activity in 0..project.size() {
            let before = chains.before_next(project, activity);
            chains.before.push(before)?;
        }
        Ok(chains)
    }

    fn before_next(&self, project: &Project, activity: usize) -> Activities {
        let mut before = [0; 4];
        for other in 0..self.before.len() {
            if other < project.size()
                && activity < project.size()
                && project.precedes(other, activity)
            {
                add_all(&mut before, self.before[other]);
                add_one(&mut before, other);
            }
        }
        before
    }

    fn does_precede(&self, before: usize, after: usize) -> bool {
        match self.before.get(after) {
            Some(activities) => is_among(*activities, before),
            None => false,
        }
    }

    /// The first chain whose last activity comes before this one, or a new chain.
    fn place(&self, lasts: &mut Vec<usize>, activity: usize) -> Result<usize, AllocError> {
        for place in 0..lasts.len() {
            if self.does_precede(lasts[place], activity) {
                lasts[place] = activity;
                return Ok(place);
            }
        }
        lasts.push(activity)?;
        Ok(lasts.len() - 1)
    }

    /// `demands` is sorted by activity. Each level is one chain.
    pub(crate) fn in_levels(
        &self,
        alloc: Global,
        demands: Vec<Demand>,
    ) -> Result<Vec<Demand>, AllocError> {
        let mut demands = demands;
        let mut lasts = Vec::new(alloc);
        for at in 0..demands.len() {
            let activity = demands[at].activity;
            let level = if at > 0 && demands[at - 1].activity == activity {
                demands[at - 1].level
            } else {
                self.place(&mut lasts, activity)?
            };
            demands[at].level = level;
        }
        demands.sort_by_key(|demand| demand.level)?;
        Ok(demands)
    }
}
