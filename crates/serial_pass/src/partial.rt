ghost use Rattle.std.specs.Prelude.{◌≡◌, ℕ, ◌<◌, [], true, false, IfOk, IfSome, IsSome, IsSomeAnd, Some, None, is_none, option_map, option_and_then, length};
ghost use Rattle.mrcpsp.specs.Project.{size};
ghost use Rattle.mrcpsp.specs.Schedule.{makespan};
ghost use Rattle.mrcpsp.specs.Placed.{latest, is_eligible, schedule_of};
ghost use Rattle.measures.specs.Measures.{measures_of};
ghost use Rattle.strategy.specs.Candidate.{eligible_ones, allowed_modes};
ghost use Rattle.strategy.specs.Pass.{drawn_activity, drawn_mode};

use crate::Candidate;
use crate::amounts::{is_covered, take_off};
use crate::points::{begin, first_point, occupy};
use crate::schedule::{blank, schedule_by};
use crate::state::PassState;
use crate::tables::{PassTables, nobody};
use crate::waiting::{Wait, tell_all};
use measures::Measures;
use mrcpsp::{MOST_MODES, Project, Schedule};
use serial_sgs::Placement;
use std::alloc::{AllocError, Global};
use std::marker::Model;

fn copied(alloc: Global, waits: &[Wait]) -> Result<Vec<Wait>, AllocError>
    ensures { IfOk result (λ copy. copy.items ≡ waits.now) }
{
    waits.to_vec(alloc)
}

/// A `PartialSchedule` is a pass that is not asked for lists: a partial schedule that grows by one
/// activity a node, or void. Contracts see what they see of a [`crate::SerialPass`].
#[derive(Drop)]
pub struct PartialSchedule {
    project: Project,
    tables: PassTables,
    state: PassState,
    void: bool,
}

impl Model for PartialSchedule {
    ghost use Rattle.std.specs.Prelude.{Some, None, if◌then◌else◌};
    ghost use Rattle.serial_pass.specs.Pass.{PassData};
    ghost use Rattle.serial_pass.specs.Partial.{AreTables, IsState};

    ghost Value = { PassData };

    ghost view = { λ a. record { project = a.project; placed = (if a.void then None else Some a.state.placed.items) } };

    ghost invariant = { λ a. AreTables a.project a.tables × IsState a.project a.state.placed.items a.void a.state };
}

impl PartialSchedule {
    ghost use Rattle.serial_pass.specs.Pass.{fresh, grown, blank_schedule, eligible_in, allowed_in, MayComeNext, HasRoom};

    /// No node has run yet. It copies the project and takes all memory here: no other call but
    /// `blank` takes any. Fails only without memory.
    pub fn new(
        alloc: Global,
        project: &Project,
        measures: &Measures,
    ) -> Result<PartialSchedule, AllocError>
        requires { measures.now ≡ measures_of project.now }
        ensures { IfOk result (λ pass. pass ≡ fresh project.now) }
    {
        let size = project.activities().len();
        let tables = PassTables::of(alloc, project, measures)?;
        let placed = Vec::with_capacity(alloc, size)?;
        let mut points = Vec::with_capacity(alloc, size + 2)?;
        begin(&mut points, &tables.rows.capacities);
        let waiting = copied(alloc, &tables.first)?;
        let eligible = tables.sources;
        let slack = tables.slack;
        let project = project.clone_in(alloc)?;
        Ok(PartialSchedule {
            project,
            tables,
            state: PassState {
                placed,
                points,
                waiting,
                eligible,
                slack,
                latest: 0,
            },
            void: false,
        })
    }

    /// The project, as it was given to `new`.
    pub fn project(&self) -> &Project
        ensures { result.now ≡ self.now.project }
    {
        &self.project
    }

    /// Whether the pass has given up, and is no schedule.
    pub fn is_void(&self) -> bool
        ensures { result ≡ is_none self.now.placed }
    {
        self.void
    }

    /// The latest finish, in periods; `None` if the pass is void.
    pub fn makespan(&self) -> Option<u32>
        ensures exact { result ≡ option_map (latest self.now.project) self.now.placed }
        ensures whole { IfSome self.now.placed (λ placed.
            length placed ≡ size self.now.project
            → result ≡ Some (makespan self.now.project (schedule_of (size self.now.project) placed))) }
    {
        if self.void {
            None
        } else {
            Some(self.state.latest)
        }
    }

    /// The eligible activity that a word draws, by the weights of their latest finish times.
    #[inline(always)]
    pub fn draw_activity(&self, word: u32) -> Option<usize>
        ensures { result ≡ drawn_activity self.now.project word (eligible_in self.now.project self.now.placed) }
    {
        self.state.eligible.drawn(word, &self.tables.lfts)
    }

    /// Places the candidate at its earliest start from 0. Takes no memory.
    #[inline(always)]
    pub fn place(&mut self, candidate: Candidate)
        requires { IsSomeAnd self.old.placed (λ placed. MayComeNext self.old.project placed candidate) }
        ensures { self.new ≡ record self.old {
          placed = option_map (grown self.old.project candidate) self.old.placed;
        } }
    {
        let Candidate { activity, mode } = candidate;
        let row = self.tables.rows.row(activity, mode);
        let ready = self.state.waiting[activity].point as usize;
        let start = first_point(&self.state.points, ready, &row.request, row.duration);
        let time = self.state.points[start].time;
        let point = occupy(&mut self.state.points, start, &row.request, row.duration);
        let finish = time + row.duration;
        take_off(&mut self.state.slack, &row.extra);
        self.state.latest = self.state.latest.max(finish);
        self.state.placed.push_reserved(Placement {
            activity,
            mode,
            start: time,
        });
        self.state.eligible.remove(activity, &self.tables.lfts);
        tell_all(
            &mut self.state.waiting,
            &mut self.state.eligible,
            self.tables.after[activity].as_slice(),
            finish,
            point as u16,
            &self.tables.lfts,
        );
    }

    /// Makes the pass void: further nodes place nothing.
    pub fn give_up(&mut self)
        ensures { self.new ≡ record self.old { placed = None } }
    {
        self.void = true;
        self.state.eligible = nobody();
    }

    /// Places `chosen`, or gives up if it is `None`.
    #[inline(always)]
    pub fn run(&mut self, chosen: Option<Candidate>)
        requires { IfSome chosen (λ c. IsSomeAnd self.old.placed (λ placed. MayComeNext self.old.project placed c)) }
        ensures { self.new ≡ record self.old {
          placed = option_and_then (λ c. option_map (grown self.old.project c) self.old.placed) chosen;
        } }
    {
        match chosen {
            Some(candidate) => self.place(candidate),
            None => self.give_up(),
        }
    }

    /// The allowed mode of an eligible activity that a word draws, its place from 0.
    #[inline(always)]
    pub fn draw_mode(&self, activity: usize, word: u32) -> Option<usize>
        requires { IsSomeAnd self.now.placed (λ placed. (activity < size self.now.project)
            × (is_eligible self.now.project placed activity ≡ true)) }
        ensures { result ≡ drawn_mode word (allowed_in self.now.project self.now.placed activity) }
    {
        let mut places = [0u8; MOST_MODES];
        let mut count: usize = 0;
        for mode in 0..self.tables.rows.count(activity) {
            let row = self.tables.rows.row(activity, mode);
            places[count] = mode as u8;
            count += usize::from(row.is_executable & is_covered(&row.extra, &self.state.slack));
        }
        if count == 0 {
            return None;
        }
        Some(usize::from(places[(word % count as u32) as usize]))
    }

    /// Takes no memory and gives back none.
    pub fn restart(&mut self)
        ensures { self.new ≡ fresh self.old.project }
    {
        self.void = false;
        self.state.placed.clear();
        begin(&mut self.state.points, &self.tables.rows.capacities);
        self.state.waiting.copy_from_slice(&self.tables.first);
        self.state.eligible = self.tables.sources;
        self.state.slack = self.tables.slack;
        self.state.latest = 0;
    }

    /// A schedule with room for all activities. Fails only without memory.
    pub fn blank(&self, alloc: Global) -> Result<Schedule, AllocError>
        ensures blank { IfOk result (λ schedule. schedule ≡ blank_schedule (size self.now.project)) }
        ensures room { IfOk result (λ schedule. HasRoom (size self.now.project) schedule) }
    {
        blank(alloc, self.project.size())
    }

    /// The pass's schedule, in the memory of `room`; `None` if the pass is void.
    pub fn schedule(&self, room: Schedule) -> Option<Schedule>
        requires { HasRoom (size self.now.project) room }
        ensures exact { result ≡ option_map (schedule_of (size self.now.project)) self.now.placed }
        ensures room { IfSome result (λ schedule. HasRoom (size self.now.project) schedule) }
    {
        if self.void {
            None
        } else {
            Some(schedule_by(&self.state.placed, self.project.size(), room))
        }
    }
}
