ghost use Rattle.std.specs.Prelude.{◌≡◌, false, length, IfOk, IfSome, option_map};
ghost use Rattle.mrcpsp.specs.Project.{size};
ghost use Rattle.mrcpsp.specs.Placed.{schedule_of};
ghost use Rattle.measures.specs.Measures.{measures_of};
ghost use Rattle.strategy.specs.Outcome.{better};
ghost use Rattle.strategy.specs.declared.kind.Kind.TheVariants.{Sample};
ghost use Rattle.serial_pass.specs.Pass as passes;
ghost use Rattle.sample_search.specs.Best.{best_in, is_taken, IsKept};
ghost use Rattle.sample_search.specs.Search.{IsSample, StandsAt};

use crate::best::{BestPass, better};
use crate::node::run_node;
use crate::words::RandomWords;
use measures::Measures;
use mrcpsp::{Project, Schedule};
use paid_search::{Nodes, Paid};
use serial_pass::PartialSchedule;
use std::alloc::{AllocError, Global};
use std::mem;
use strategy::{Kind, Plan};

/// A `SampleSearch` is a search whose passes are drawn from a seed. Node `i`, counted through all
/// passes, draws the words `2i` and `2i + 1`. A pass has a node for each activity.
pub type SampleSearch = Paid<SamplePasses>;

/// A `SamplePasses` is the passes of a seed, and the best schedule of the whole ones.
#[derive(Drop)]
pub struct SamplePasses {
    measures: Measures,
    words: RandomWords,
    pass: PartialSchedule,
    size: usize,
    /// The nodes that the pass has left.
    left: usize,
    best: BestPass,
}

/// What takes the memory of a search.
#[derive(Drop)]
struct Tools {
    measures: Measures,
    pass: PartialSchedule,
    room: Schedule,
}

fn make_tools(alloc: Global, project: &Project) -> Result<Tools, AllocError>
    ensures measures { IfOk result (λ tools. tools.measures ≡ measures_of project.now) }
    ensures pass { IfOk result (λ tools. tools.pass ≡ passes.fresh project.now) }
    ensures room { IfOk result (λ tools. passes.HasRoom (size project.now) tools.room) }
{
    let measures = Measures::of(alloc, project)?;
    let pass = PartialSchedule::new(alloc, project, &measures)?;
    let room = pass.blank(alloc)?;
    Ok(Tools {
        measures,
        pass,
        room,
    })
}

fn seed(kind: Kind) -> u64
    requires { IsSample kind }
    ensures { kind ≡ Sample result }
{
    match kind {
        Kind::Sample(seed) => seed,
        _ => unreachable!(),
    }
}

/// Keeps the pass's schedule if it is the best so far, and begins the next pass.
fn end_pass(pass: &mut PartialSchedule, best: &mut BestPass)
    requires kept { IsKept pass.old.project best.old }
    requires whole { IfSome pass.old.placed (λ placed. length placed ≡ size pass.old.project) }
    ensures pass { pass.new ≡ passes.fresh pass.old.project }
    ensures kept { IsKept pass.old.project best.new }
    ensures taken { is_taken best.new ≡ is_taken best.old }
    ensures best { is_taken best.old ≡ false
        → best_in best.new ≡ better pass.old.project (best_in best.old)
        (option_map (schedule_of (size pass.old.project)) pass.old.placed) }
{
    let last = mem::replace(best, BestPass::Taken);
    *best = better(last, pass);
    pass.restart();
}

impl Nodes for SamplePasses {
    ghost serves = { IsSample };

    ghost stands = { StandsAt };

    fn of(alloc: Global, plan: &Plan) -> Result<SamplePasses, AllocError> {
        let Tools {
            measures,
            pass,
            room,
        } = make_tools(alloc, &plan.project)?;
        let words = RandomWords::new(seed(plan.kind));
        let size = plan.project.size();
        Ok(SamplePasses {
            measures,
            words,
            pass,
            size,
            left: size,
            best: BestPass::Unknown(room),
        })
    }

    fn bound(&self) -> u32 {
        self.measures.bound()
    }

    fn all_run(&self) -> bool {
        false
    }

    fn makespan(&self) -> Option<u32> {
        self.best.makespan()
    }

    fn best(&self) -> Option<&Schedule> {
        self.best.schedule()
    }

    #[inline(always)]
    fn advance(&mut self) {
        run_node(&mut self.pass, &mut self.words);
        self.left -= 1;
        if self.left == 0 {
            self.left = self.size;
            end_pass(&mut self.pass, &mut self.best);
        }
    }

    fn take_best(&mut self) -> Option<Schedule> {
        self.best.take()
    }
}
