ghost use Rattle.std.specs.Prelude.{◌≡◌, ◌<◌, [], length, IfOk};
ghost use Rattle.farm_core.specs.Turn.{IsTurn};
ghost use Rattle.farm_pool.specs.Calls.{MayAsk, AnswersOn, DoesOn};

use crate::image::{AnswerImage, CallImage};
use crate::query::{Query, query_on};
use farm_core::{Command, Config, Entry, Farm, NoTurn, Reply, Stranger, Turn};
use std::alloc::{AllocError, Global};
use std::marker::Model;
use strategy::Strategy;
use turn_lock::{Kept, Queries, Runs};

/// A `FarmCall` is a call under the lock: a tenant's command, a take with its slice, or a give.
pub enum FarmCall<J> {
    Asked(u32, Command<J>),
    Next(u64),
    Back(Turn<J>),
}

/// A `FarmAnswer` is the answer to a `FarmCall`. `Stray` hands back a turn of no job of the farm.
pub enum FarmAnswer<J> {
    Replied(Reply),
    Sent(Turn<J>),
    Idle,
    NoMemory,
    Gave(Reply),
    Stray(Turn<J>),
}

/// A `LockedFarm` is a boxed farm. Boxed, so that the lock moves a pointer; a type of its own, since
/// `Kept` cannot be implemented for a foreign type.
#[derive(Drop)]
pub struct LockedFarm<J> {
    pub(crate) farm: Box<Farm<J>>,
}

impl<J> Model for LockedFarm<J> {
    ghost use Rattle.farm_core.specs.World.{World};

    ghost Value = { World };

    ghost view = { λ locked. locked.farm.value };
}

impl<J: Drop> LockedFarm<J> {
    #[tactic(auto, unfolding(farm_core::specs::World::opened))]
    pub(crate) fn new(alloc: Global, config: &Config) -> Result<LockedFarm<J>, AllocError>
        ensures opening { IfOk result (λ locked. locked.config ≡ config.now) }
        ensures empty { IfOk result (λ locked. locked.journal ≡ []) }
    {
        match Box::new(alloc, Farm::new(alloc, config)?) {
            Ok(farm) => Ok(LockedFarm { farm }),
            Err(_) => Err(AllocError),
        }
    }
}

// No bound on `J`: a lock of a farm of boxed searches is then a type like any other.
impl<J> Kept for LockedFarm<J> {
    type Said = CallImage;

    type Told = AnswerImage;

    type Event = Entry;

    type Opening = Config;

    ghost use Rattle.farm_pool.specs.Served.{Served};

    ghost opening = { λ locked. locked.config };

    ghost events = { λ locked. locked.journal };

    ghost relation = { Served };

    fn events(&self) -> u64 {
        self.farm.journal().len() as u64
    }
}

fn next_of<J: Strategy>(farm: &mut Farm<J>, slice: u64) -> FarmAnswer<J>
    ensures { AnswersOn J.meaning farm.old (FarmCall.Next slice) result farm.new }
{
    farm.journal();
    match farm.take_next(slice) {
        Ok(turn) => FarmAnswer::Sent(turn),
        Err(NoTurn::None) => FarmAnswer::Idle,
        Err(NoTurn::NoMemory) => FarmAnswer::NoMemory,
    }
}

fn back_to<J: Strategy>(farm: &mut Farm<J>, turn: Turn<J>) -> FarmAnswer<J>
    requires known { turn.tenant < length farm.old.config.tenants }
    requires turn { IsTurn turn.slice turn.ran (J.meaning turn.search) }
    ensures { AnswersOn J.meaning farm.old (FarmCall.Back turn) result farm.new }
{
    farm.journal();
    match farm.give(turn) {
        Ok(reply) => FarmAnswer::Gave(reply),
        Err(Stranger(turn)) => FarmAnswer::Stray(turn),
    }
}

/// Makes `call`. The farm is reachable before and after it: `journal` shows that to the prover.
pub(crate) fn serve_on<J: Strategy>(farm: &mut Farm<J>, call: FarmCall<J>) -> FarmAnswer<J>
    requires { MayAsk J.meaning farm.old.config call }
    ensures { DoesOn J.meaning farm.old call result farm.new }
{
    farm.journal();
    match call {
        FarmCall::Asked(tenant, command) => {
            let reply = farm.command(tenant, command);
            farm.journal();
            FarmAnswer::Replied(reply)
        }
        FarmCall::Next(slice) => {
            let given = next_of(farm, slice);
            farm.journal();
            given
        }
        FarmCall::Back(turn) => {
            let given = back_to(farm, turn);
            farm.journal();
            given
        }
    }
}

impl Runs for LockedFarm<Box<dyn Strategy>> {
    type Call = FarmCall<Box<dyn Strategy>>;

    type Answer = FarmAnswer<Box<dyn Strategy>>;

    type Says = CallImage;

    type Tells = AnswerImage;

    ghost use Rattle.farm_pool.specs.Calls.{call_image, answer_image, MayAsk, DoesOn};

    ghost said = { λ call. call_image (λ b. (Strategy-box b).meaning b.value) call };

    ghost told = { λ answer. answer_image (λ b. (Strategy-box b).meaning b.value) answer };

    ghost may = { λ locked call. MayAsk (λ b. (Strategy-box b).meaning b.value) locked.config call };

    ghost does = { λ old call answer new.
        DoesOn (λ b. (Strategy-box b).meaning b.value) old call answer new };

    fn apply(&mut self, call: FarmCall<Box<dyn Strategy>>) -> FarmAnswer<Box<dyn Strategy>> {
        serve_on(&mut self.farm, call)
    }
}

impl Queries for LockedFarm<Box<dyn Strategy>> {
    type Query = Query;

    type Reply = Reply;

    type Says = CallImage;

    type Tells = AnswerImage;

    ghost use Rattle.farm_pool.specs.Calls.{DoesOn};
    ghost use Rattle.farm_pool.specs.Query.{command_about, query_image};
    ghost use Rattle.farm_pool.specs.declared.image.AnswerImage.TheVariants as told;
    ghost use Rattle.farm_pool.specs.declared.locked_farm.FarmAnswer.TheVariants as given;
    ghost use Rattle.farm_pool.specs.declared.locked_farm.FarmCall.TheVariants as asked;
    ghost use Rattle.std.specs.Prelude.{◌<◌, length};

    ghost asked = { query_image };

    ghost replied = { λ reply. told.Replied reply };

    ghost can = { λ locked query. query.tenant < length locked.config.tenants };

    ghost gives = { λ old query reply new.
        DoesOn (λ b. (Strategy-box b).meaning b.value) old
        (asked.Asked query.tenant (command_about query.about)) (given.Replied reply) new };

    fn answer(&mut self, query: &Query) -> Reply {
        query_on(&mut self.farm, query)
    }
}
