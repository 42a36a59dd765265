ghost use Rattle.std.specs.Prelude.{◌≡◌, ℕ, ◌↔◌, ◌<◌, ◌≤◌, ◌+◌, Some, None, IsTrue, IfOk, All, length, get_or, slice_index, if◌then◌else◌};
ghost use Rattle.mrcpsp.specs.Limits.{IsLimited, IsProject};
ghost use Rattle.mrcpsp.specs.Project.{ProjectData, is_project, horizon, no_activity, no_mode, modes, size, renewables, nonrenewables, mode_count, successors, precedes, duration, request, consumption, capacity, stock};

use crate::limits::{
    MOST_ACTIVITIES, MOST_AMOUNT, MOST_DURATION, MOST_HORIZON, MOST_MODES, MOST_RESOURCES,
    all_keep, are_small, horizon_of,
};
use crate::parts::{Parts, same_parts};
use crate::{Activity, Mode, Sequence};
use std::alloc::{AllocError, Global};
use std::marker::Model;
use std::sync::Arc;

#[derive(Debug, Drop)]
pub(crate) enum Lists {
    Own(Parts),
    Shared(Arc<Parts, Global>),
}

/// A `Project` is a set of activities and resource capacities within the limits: 1 to 202
/// activities of 1 to 10 modes, and 0 to 8 resources of either kind. Durations are at most 1,000
/// periods, amounts 1,000,000 units, the horizon 20,000 periods. A mode has one number for each
/// resource. Successors are distinct, and their numbers are above their activity's.
#[derive(Debug, Drop)]
pub struct Project {
    lists: Lists,
}

impl Model for Project {
    ghost use Rattle.mrcpsp.specs.Project.{ProjectData};
    ghost use Rattle.mrcpsp.specs.Lists.{parts_in};

    ghost Value = { ProjectData };

    ghost view = { λ p. parts_in p.lists };
}

impl Project {
    /// Returns `None` if a limit, a list's length or the rule on successors is broken. The lists
    /// are then dropped. Takes no memory.
    pub fn new(
        activities: Sequence<Activity>,
        renewable: Sequence<u32>,
        nonrenewable: Sequence<u32>,
    ) -> Option<Project>
        ensures { let given : ProjectData =
            record { activities = activities; renewable = renewable; nonrenewable = nonrenewable } in
            result ≡ (if is_project given then Some given else None) }
    {
        let all = activities.as_slice();
        let kinds = (renewable.as_slice(), nonrenewable.as_slice());
        let holds = (1..=MOST_ACTIVITIES).contains(&all.len())
            && kinds.0.len() <= MOST_RESOURCES
            && kinds.1.len() <= MOST_RESOURCES
            && are_small(kinds.0)
            && are_small(kinds.1)
            && all_keep(all, kinds.0.len(), kinds.1.len())
            && horizon_of(all) <= MOST_HORIZON;
        if holds {
            let lists = Lists::Own(Parts {
                activities,
                renewable,
                nonrenewable,
            });
            Some(Project { lists })
        } else {
            None
        }
    }

    /// Returns an equal project whose copies share its lists. Without memory it fails, and the
    /// project is dropped.
    pub fn share(self, alloc: Global) -> Result<Project, AllocError>
        ensures { IfOk result (λ shared. shared ≡ self) }
    {
        let lists = match self.lists {
            Lists::Own(parts) => match Arc::new(alloc, parts) {
                Ok(parts) => Lists::Shared(parts),
                Err(_) => return Err(AllocError),
            },
            Lists::Shared(parts) => Lists::Shared(parts),
        };
        Ok(Project { lists })
    }

    /// The copy of a shared project shares its lists, and takes no memory of its own.
    pub fn clone_in(&self, alloc: Global) -> Result<Project, AllocError>
        ensures { IfOk result (λ copy. copy ≡ self.now) }
    {
        let lists = match &self.lists {
            Lists::Own(parts) => Lists::Own(parts.clone_in(alloc)?),
            Lists::Shared(parts) => Lists::Shared(Arc::try_clone(parts)?),
        };
        Ok(Project { lists })
    }

    fn parts(&self) -> &Parts
        ensures { result.now ≡ self.now }
    {
        match &self.lists {
            Lists::Own(parts) => parts,
            Lists::Shared(parts) => parts,
        }
    }

    /// In the order of their numbers.
    pub fn activities(&self) -> &[Activity]
        ensures all { result.now ≡ self.now.activities }
        ensures project { IsTrue (is_project self.now) }
    {
        self.parts().activities()
    }

    /// The capacity of each renewable resource in each period.
    pub fn renewable(&self) -> &[u32]
        ensures all { result.now ≡ self.now.renewable }
        ensures project { IsTrue (is_project self.now) }
    {
        self.parts().renewable()
    }

    /// The capacity of each nonrenewable resource in all.
    pub fn nonrenewable(&self) -> &[u32]
        ensures all { result.now ≡ self.now.nonrenewable }
        ensures project { IsTrue (is_project self.now) }
    {
        self.parts().nonrenewable()
    }

    /// The sum of the activities' longest durations, in periods.
    pub fn horizon(&self) -> u32
        ensures sum { result ≡ horizon self.now.activities }
        ensures project { IsTrue (is_project self.now) }
    {
        horizon_of(self.activities()) as u32
    }

    #[tactic(auto, unfolding(crate::specs::Project::size))]
    fn activity(&self, activity: usize) -> &Activity
        requires { activity < size self.now }
        ensures exact { result.now ≡ get_or self.now.activities activity no_activity }
        ensures kept { IsProject self.now }
    {
        &self.activities()[activity]
    }

    #[tactic(auto, unfolding(crate::specs::Project::modes, crate::specs::Project::mode_count))]
    fn mode(&self, activity: usize, mode: usize) -> &Mode
        requires activity { activity < size self.now }
        requires mode { mode < mode_count self.now activity }
        ensures exact { result.now ≡ get_or (modes self.now activity) mode no_mode }
        ensures limited { IsLimited self.now activity mode }
    {
        let activity = self.activity(activity);
        &activity.modes.as_slice()[mode]
    }

    /// The number of activities: 1 to 202.
    #[tactic(auto, unfolding(crate::specs::Project::size))]
    pub fn size(&self) -> usize
        ensures exact { result ≡ size self.now }
        ensures some { 0 < result }
        ensures few { result ≤ MOST_ACTIVITIES }
    {
        self.activities().len()
    }

    /// The number of renewable resources: 0 to 8.
    #[tactic(auto, unfolding(crate::specs::Project::renewables))]
    pub fn renewables(&self) -> usize
        ensures exact { result ≡ renewables self.now }
        ensures few { result ≤ MOST_RESOURCES }
    {
        self.renewable().len()
    }

    /// The number of nonrenewable resources: 0 to 8.
    #[tactic(auto, unfolding(crate::specs::Project::nonrenewables))]
    pub fn nonrenewables(&self) -> usize
        ensures exact { result ≡ nonrenewables self.now }
        ensures few { result ≤ MOST_RESOURCES }
    {
        self.nonrenewable().len()
    }

    /// The capacity in each period.
    #[tactic(auto, unfolding(crate::specs::Project::capacity, crate::specs::Project::renewables))]
    pub fn capacity(&self, resource: usize) -> u32
        requires { resource < renewables self.now }
        ensures exact { result ≡ capacity self.now resource }
        ensures most { result ≤ MOST_AMOUNT }
    {
        self.renewable()[resource]
    }

    /// The capacity of nonrenewable `resource` in all.
    #[tactic(auto, unfolding(crate::specs::Project::stock, crate::specs::Project::nonrenewables))]
    pub fn stock(&self, resource: usize) -> u32
        requires { resource < nonrenewables self.now }
        ensures exact { result ≡ stock self.now resource }
        ensures most { result ≤ MOST_AMOUNT }
    {
        self.nonrenewable()[resource]
    }

    /// The number of modes: 1 to 10.
    #[tactic(auto, unfolding(crate::specs::Project::mode_count, crate::specs::Project::modes))]
    pub fn mode_count(&self, activity: usize) -> usize
        requires { activity < size self.now }
        ensures exact { result ≡ mode_count self.now activity }
        ensures some { 0 < result }
        ensures few { result ≤ MOST_MODES }
    {
        self.activity(activity).modes.as_slice().len()
    }

    /// The numbers of the direct successors, counted from 1, as they were given.
    #[tactic(auto, unfolding(crate::specs::Project::successors))]
    pub fn successors(&self, activity: usize) -> &[u32]
        requires { activity < size self.now }
        ensures exact { result.now ≡ successors self.now activity }
        ensures later { All (λ s. (activity + 1 < s) × (s ≤ size self.now)) result.now }
    {
        self.activity(activity).successors.as_slice()
    }

    /// Whether `after` is a direct successor of `before`.
    #[tactic(auto, unfolding(crate::specs::Project::precedes))]
    pub fn precedes(&self, before: usize, after: usize) -> bool
        requires before { before < size self.now }
        requires after { after < size self.now }
        ensures { result ≡ precedes self.now before after }
    {
        let size = self.size();
        prove!(after < size);
        self.successors(before).contains(&(after as u32 + 1))
    }

    /// In periods.
    #[tactic(auto, unfolding(crate::specs::Project::duration))]
    pub fn duration(&self, activity: usize, mode: usize) -> u32
        requires activity { activity < size self.now }
        requires mode { mode < mode_count self.now activity }
        ensures exact { result ≡ duration self.now activity mode }
        ensures most { result ≤ MOST_DURATION }
    {
        self.mode(activity, mode).duration
    }

    /// The use of a renewable resource in each period of the activity.
    #[tactic(auto, unfolding(crate::specs::Project::request))]
    pub fn request(&self, activity: usize, mode: usize, resource: usize) -> u32
        requires activity { activity < size self.now }
        requires mode { mode < mode_count self.now activity }
        requires resource { resource < renewables self.now }
        ensures exact { result ≡ request self.now activity mode resource }
        ensures most { result ≤ MOST_AMOUNT }
    {
        self.mode(activity, mode).renewable.as_slice()[resource]
    }

    #[tactic(auto, unfolding(crate::specs::Project::request))]
    pub(crate) fn requests(&self, activity: usize, mode: usize) -> &[u32]
        requires activity { activity < size self.now }
        requires mode { mode < mode_count self.now activity }
        ensures each { (r : ℕ) → slice_index result.now r ≡ request self.now activity mode r }
        ensures count { length result.now ≡ renewables self.now }
        ensures most { All (λ a. a ≤ MOST_AMOUNT) result.now }
    {
        self.mode(activity, mode).renewable.as_slice()
    }

    /// The consumption of a nonrenewable resource in all.
    #[tactic(auto, unfolding(crate::specs::Project::consumption))]
    pub fn consumption(&self, activity: usize, mode: usize, resource: usize) -> u32
        requires activity { activity < size self.now }
        requires mode { mode < mode_count self.now activity }
        requires resource { resource < nonrenewables self.now }
        ensures exact { result ≡ consumption self.now activity mode resource }
        ensures most { result ≤ MOST_AMOUNT }
    {
        self.mode(activity, mode).nonrenewable.as_slice()[resource]
    }
}

/// Whether two projects are equal in every number. Takes no memory.
pub fn same(one: &Project, other: &Project) -> bool
    ensures { IsTrue result ↔ (one.now ≡ other.now) }
{
    same_parts(one.parts(), other.parts())
}
