//! A schedule with a start and one of its modes for each activity of a project.
ghost use Rattle.std.specs.Prelude.{◌≡◌, ℕ, ◌+◌, ◌*◌, ◌<◌, ◌≤◌, ◌↔◌, get_or, slice_index, IsTrue, IfSome, IfNone};
ghost use Rattle.mrcpsp.specs.Project.{size, renewables, nonrenewables, mode_count, request};
ghost use Rattle.mrcpsp.specs.Schedule.{start_of, finish, mode_of, use_of, consumed, makespan};
ghost use Rattle.mrcpsp.specs.Breach.{HasShape, HasModes, AreFinishes};

use crate::feasibility::{MOST_START, has_shape, missing_mode};
use crate::{MOST_ACTIVITIES, MOST_AMOUNT, MOST_DURATION, MOST_RESOURCES, Project, Schedule};

/// A `Fitting` is a schedule with a start, and one of its modes, for each activity of a project.
#[derive(Clone, Copy)]
pub struct Fitting<'a> {
    pub project: &'a Project,
    pub schedule: &'a Schedule,
    pub ghost shape: { HasShape project.now schedule.now },
    pub ghost modes: { HasModes project.now schedule.now },
}

fn is_running(start: u32, finish: u32, period: u32) -> bool
    ensures { IsTrue result ↔ ((start ≤ period) × (period < finish)) }
{
    start <= period && period < finish
}

impl<'a> Fitting<'a> {
    /// Returns `None` if the schedule lacks a start or a mode of an activity.
    pub fn of(project: &'a Project, schedule: &'a Schedule) -> Option<Fitting<'a>>
        ensures project { IfSome result (λ fitting. fitting.project.now ≡ project.now) }
        ensures schedule { IfSome result (λ fitting. fitting.schedule.now ≡ schedule.now) }
        ensures none { IfNone result (HasShape project.now schedule.now → HasModes project.now schedule.now → ⊥) }
    {
        if !has_shape(project, schedule) || missing_mode(project, schedule).is_some() {
            return None;
        }
        Some(Fitting { project, schedule })
    }

    /// The number of the mode of `activity`, from 1.
    pub fn mode(&self, activity: usize) -> u32
        requires { activity < size self.now.project.now }
        ensures { result ≡ get_or self.now.schedule.now.modes activity 0 }
    {
        self.schedule.mode(activity)
    }

    /// The place of the mode of `activity`, from 0.
    #[tactic(auto, unfolding(crate::specs::Schedule::mode_of))]
    pub fn mode_place(&self, activity: usize) -> usize
        requires { activity < size self.now.project.now }
        ensures exact { result ≡ mode_of self.now.schedule.now activity }
        ensures exists { result < mode_count self.now.project.now activity }
    {
        self.schedule.mode(activity) as usize - 1
    }

    /// The period in which `activity` starts.
    pub fn start(&self, activity: usize) -> u32
        requires { activity < size self.now.project.now }
        ensures exact { result ≡ start_of self.now.schedule.now activity }
        ensures early { result ≤ MOST_START }
    {
        self.schedule.start(activity)
    }

    /// The period before which `activity` ends.
    #[tactic(auto, unfolding(crate::specs::Schedule::finish))]
    pub fn finish(&self, activity: usize) -> u32
        requires { activity < size self.now.project.now }
        ensures exact { result ≡ finish self.now.project.now self.now.schedule.now activity }
        ensures early { result ≤ MOST_START + MOST_DURATION }
    {
        let mode = self.mode_place(activity);
        self.start(activity) + self.project.duration(activity, mode)
    }

    /// The latest finish of an activity, in periods.
    #[tactic(auto, unfolding(crate::specs::Schedule::makespan))]
    pub fn makespan(&self) -> u32
        ensures { result ≡ makespan self.now.project.now self.now.schedule.now }
    {
        let mut latest = 0;
        for activity in 0..self.project.size() {
            latest = latest.max(self.finish(activity));
        }
        latest
    }

    /// The finish of each activity, at its place.
    pub(crate) fn finishes(&self) -> [u32; MOST_ACTIVITIES]
        ensures { AreFinishes self.now.project.now self.now.schedule.now result }
    {
        let mut finishes = [0; MOST_ACTIVITIES];
        for activity in 0..self.project.size() {
            finishes[activity] = self.finish(activity);
        }
        finishes
    }

    #[tactic(auto, unfolding(crate::specs::Schedule::use_of, crate::specs::Schedule::load, crate::specs::Schedule::finish))]
    pub(crate) fn use_at(
        &self,
        finishes: &[u32; MOST_ACTIVITIES],
        resource: usize,
        period: u32,
    ) -> u64
        requires finishes { AreFinishes self.now.project.now self.now.schedule.now finishes.now }
        requires resource { resource < renewables self.now.project.now }
        ensures { result ≡ use_of self.now.project.now self.now.schedule.now resource period }
    {
        let mut total = 0;
        for activity in 0..self.project.size() {
            if is_running(self.start(activity), finishes[activity], period) {
                let mode = self.mode_place(activity);
                total += u64::from(self.project.request(activity, mode, resource));
            }
        }
        total
    }

    fn add_requests(&self, uses: &mut [u32; MOST_RESOURCES], activity: usize)
        requires activity { activity < size self.now.project.now }
        requires few { (r : ℕ) → slice_index uses.old r ≤ MOST_ACTIVITIES * MOST_AMOUNT }
        ensures sums { (r : ℕ) → r < renewables self.now.project.now → slice_index uses.new r
            ≡ slice_index uses.old r + request self.now.project.now activity (mode_of self.now.schedule.now activity) r }
        ensures few { (r : ℕ) → slice_index uses.new r ≤ slice_index uses.old r + MOST_AMOUNT }
    {
        let requests = self.project.requests(activity, self.mode_place(activity));
        for resource in 0..self.project.renewables() {
            uses[resource] += requests[resource];
        }
    }

    /// The use of each renewable resource in `period`.
    #[tactic(auto, unfolding(crate::specs::Schedule::use_of, crate::specs::Schedule::load, crate::specs::Schedule::finish))]
    pub(crate) fn uses_at(
        &self,
        finishes: &[u32; MOST_ACTIVITIES],
        period: u32,
    ) -> [u32; MOST_RESOURCES]
        requires { AreFinishes self.now.project.now self.now.schedule.now finishes.now }
        ensures { (r : ℕ) → r < renewables self.now.project.now
            → slice_index result r ≡ use_of self.now.project.now self.now.schedule.now r period }
    {
        let mut uses = [0; MOST_RESOURCES];
        for activity in 0..self.project.size() {
            if is_running(self.start(activity), finishes[activity], period) {
                self.add_requests(&mut uses, activity);
            }
        }
        uses
    }

    /// What the activities consume of a nonrenewable resource.
    #[tactic(auto, unfolding(crate::specs::Schedule::consumed))]
    pub fn consumption(&self, resource: usize) -> u64
        requires { resource < nonrenewables self.now.project.now }
        ensures { result ≡ consumed self.now.project.now self.now.schedule.now resource }
    {
        let mut total = 0;
        for activity in 0..self.project.size() {
            let mode = self.mode_place(activity);
            total += u64::from(self.project.consumption(activity, mode, resource));
        }
        total
    }
}
