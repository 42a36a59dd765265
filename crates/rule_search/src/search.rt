ghost use Rattle.std.specs.Prelude.{◌≡◌, IfOk, IsSomeAnd, nat_le, option_map};
ghost use Rattle.mrcpsp.specs.Project.{size};
ghost use Rattle.mrcpsp.specs.Placed.{schedule_of};
ghost use Rattle.serial_pass.specs.Pass.{HasRoom};
ghost use Rattle.rule_search.specs.Rule.{IsRule};
ghost use Rattle.rule_search.specs.Search.{StandsAt};

use crate::choice::run_node;
use measures::Measures;
use mrcpsp::Schedule;
use paid_search::{Nodes, Paid};
use serial_pass::SerialPass;
use std::alloc::{AllocError, Global};
use strategy::{Kind, Plan};

/// A `RuleSearch` is a search of one pass by latest finish time, total successors or shortest
/// duration. It is over after a node for each activity.
pub type RuleSearch = Paid<RulePass>;

/// A `RulePass` is the pass of a rule, and its schedule once it is whole.
#[derive(Drop)]
pub struct RulePass {
    kind: Kind,
    measures: Measures,
    pass: SerialPass,
    room: Option<Schedule>,
    best: Option<Schedule>,
    size: usize,
    nodes: usize,
}

/// What a search takes memory for.
#[derive(Drop)]
struct Workspace {
    measures: Measures,
    pass: SerialPass,
    room: Schedule,
}

impl Workspace {
    ghost use Rattle.mrcpsp.specs.Project.{size};
    ghost use Rattle.measures.specs.Measures.{measures_of};
    ghost use Rattle.serial_pass.specs.Pass.{fresh as fresh_pass, HasRoom};

    fn new(alloc: Global, plan: &Plan) -> Result<Workspace, AllocError>
        ensures measures { IfOk result (λ space. space.measures ≡ measures_of plan.now.project) }
        ensures pass { IfOk result (λ space. space.pass ≡ fresh_pass plan.now.project) }
        ensures room { IfOk result (λ space. HasRoom (size plan.now.project) space.room) }
    {
        let measures = Measures::of(alloc, &plan.project)?;
        let pass = SerialPass::new(alloc, &plan.project, &measures)?;
        let room = pass.blank(alloc)?;
        Ok(Workspace {
            measures,
            pass,
            room,
        })
    }
}

fn is_whole(size: usize, nodes: usize) -> bool
    ensures { result ≡ nat_le size nodes }
{
    size <= nodes
}

/// Writes into `room`; `None` if the pass is void.
fn write_best(best: &mut Option<Schedule>, pass: &SerialPass, room: Option<Schedule>)
    requires { IsSomeAnd room (HasRoom (size pass.now.project)) }
    ensures { best.new ≡ option_map (schedule_of (size pass.now.project)) pass.now.placed }
{
    if let Some(room) = room {
        *best = pass.schedule(room);
    }
}

impl Nodes for RulePass {
    ghost serves = { IsRule };

    ghost stands = { StandsAt };

    fn of(alloc: Global, plan: &Plan) -> Result<RulePass, AllocError> {
        let Workspace {
            measures,
            pass,
            room,
        } = Workspace::new(alloc, plan)?;
        Ok(RulePass {
            kind: plan.kind,
            measures,
            pass,
            room: Some(room),
            best: None,
            size: plan.project.size(),
            nodes: 0,
        })
    }

    fn bound(&self) -> u32 {
        self.measures.bound()
    }

    fn all_run(&self) -> bool {
        is_whole(self.size, self.nodes)
    }

    fn makespan(&self) -> Option<u32> {
        if is_whole(self.size, self.nodes) {
            self.pass.makespan()
        } else {
            None
        }
    }

    fn best(&self) -> Option<&Schedule> {
        self.best.as_ref()
    }

    fn advance(&mut self) {
        run_node(&mut self.pass, &self.measures, self.kind);
        self.nodes += 1;
        if is_whole(self.size, self.nodes) {
            write_best(&mut self.best, &self.pass, self.room.take());
        }
    }

    fn take_best(&mut self) -> Option<Schedule> {
        self.best.take()
    }
}
