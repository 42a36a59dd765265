//! The farm of a script, and the turns that the script holds.
ghost use Rattle.std.specs.Prelude.{◌≡◌, ◌≢◌, ℕ, ◌<◌, ◌-◌, [], length, position, None, false, IfOk, IfErr};
ghost use Rattle.farm_core.specs.Tenant.{find_job};
ghost use Rattle.farm_core.specs.World.{opened, purse, view, Follows};
ghost use Rattle.farm_core.specs.Step.{Sent};
ghost use Rattle.farm_core.specs.Turn.{IsNotTaken};
ghost use Rattle.farm_core.specs.Held.{is_out_of};
ghost use Rattle.farm_core.specs.Tills.{AreTillsOf};
ghost use Rattle.farm_session.specs.TillDesk.{tills_of, HasLeasedTo};
ghost use Rattle.farm_session.specs.Ready.{MakesFresh};
ghost use Rattle.farm_replay.specs.Closing.{all_back};
ghost use Rattle.farm_replay.specs.ScriptFarm.{IsScriptFarm, IsTold, is_turn_of, untaken};

use farm_core::{Config, Event, Farm, Line, NoTurn, Reply, Stranger, Turn};
use farm_session::{Ask, Ready, TillDesk, TurnAsk, Workshop, command_of};
use session_lines::Said;
use std::alloc::{AllocError, Global};
use strategy::Strategy;

pub(crate) struct ScriptFarm<J> {
    pub(crate) farm: Farm<J>,
    pub(crate) held: Vec<Turn<J>>,
}

fn place_of<J: Strategy>(turns: &[Turn<J>], tenant: u32, seq: u64) -> Option<usize>
    ensures { result ≡ position (is_turn_of tenant seq) turns.now }
{
    turns
        .iter()
        .position(|turn| turn.tenant() == tenant && turn.seq() == seq)
}

fn untaken(why: NoTurn) -> Said
    ensures { result ≡ untaken why }
{
    match why {
        NoTurn::None => Said::NoTurn,
        NoTurn::NoMemory => Said::Reply(Reply::NoMemory),
    }
}

impl<J: Strategy> ScriptFarm<J> {
    pub(crate) fn new(alloc: Global, config: &Config) -> Result<ScriptFarm<J>, AllocError>
        ensures farm { IfOk result (λ script_farm. script_farm.farm ≡ opened config.now) }
        ensures script_farm { IfOk result (λ script_farm. IsScriptFarm J.meaning script_farm.farm script_farm.held.items) }
    {
        let farm = Farm::new(alloc, config)?;
        Ok(ScriptFarm {
            farm,
            held: Vec::new(alloc),
        })
    }

    /// Reserves memory first, so that no turn is taken that cannot be held.
    fn hold(&mut self, tenant: u32, seq: u64, slice: u64) -> Result<Line, NoTurn>
        requires known { tenant < length self.old.farm.config.tenants }
        requires script_farm { IsScriptFarm J.meaning self.old.farm self.old.held.items }
        ensures held { IfOk result (λ line.
            Follows self.old.farm tenant (Event.Take seq slice) (Sent line) self.new.farm) }
        ensures refused { IfErr result (λ why. IsNotTaken self.old.farm tenant seq slice why self.new.farm) }
        ensures script_farm { IsScriptFarm J.meaning self.new.farm self.new.held.items }
    {
        let Ok(()) = self.held.reserve(1) else {
            return Err(NoTurn::NoMemory);
        };
        let turn = self.farm.take(tenant, seq, slice)?;
        self.held.push_reserved(turn);
        let Some(line) = self.farm.snapshot(tenant, seq) else {
            return Err(NoTurn::None);
        };
        Ok(line)
    }

    fn take(&mut self, tenant: u32, seq: u64, slice: u64) -> Said
        requires known { tenant < length self.old.farm.config.tenants }
        requires script_farm { IsScriptFarm J.meaning self.old.farm self.old.held.items }
        ensures told { IsTold self.old.farm tenant (Ask.Turn (TurnAsk.Take seq slice)) result self.new.farm }
        ensures script_farm { IsScriptFarm J.meaning self.new.farm self.new.held.items }
    {
        match self.hold(tenant, seq, slice) {
            Ok(line) => Said::Reply(Reply::Line(line)),
            Err(why) => untaken(why),
        }
    }

    fn give(&mut self, tenant: u32, seq: u64) -> Said
        requires known { tenant < length self.old.farm.config.tenants }
        requires script_farm { IsScriptFarm J.meaning self.old.farm self.old.held.items }
        ensures told { IsTold self.old.farm tenant (Ask.Turn (TurnAsk.Give seq)) result self.new.farm }
        ensures script_farm { IsScriptFarm J.meaning self.new.farm self.new.held.items }
    {
        let Some(place) = place_of(&self.held, tenant, seq) else {
            return Said::NoTurn;
        };
        let mut turn = self.held.remove(place);
        turn.run();
        match self.farm.give(turn) {
            Ok(reply) => Said::Reply(reply),
            Err(Stranger(turn)) => {
                turn.abandon();
                Said::NoTurn
            }
        }
    }

    fn turn(&mut self, tenant: u32, seq: u64, slice: u64) -> Said
        requires known { tenant < length self.old.farm.config.tenants }
        requires script_farm { IsScriptFarm J.meaning self.old.farm self.old.held.items }
        ensures told { IsTold self.old.farm tenant (Ask.Turn (TurnAsk.Whole seq slice)) result self.new.farm }
        ensures script_farm { IsScriptFarm J.meaning self.new.farm self.new.held.items }
    {
        match self.hold(tenant, seq, slice) {
            Ok(_) => self.give(tenant, seq),
            Err(why) => untaken(why),
        }
    }

    fn play_turn(&mut self, tenant: u32, asked: TurnAsk) -> Said
        requires known { tenant < length self.old.farm.config.tenants }
        requires script_farm { IsScriptFarm J.meaning self.old.farm self.old.held.items }
        ensures told { IsTold self.old.farm tenant (Ask.Turn asked) result self.new.farm }
        ensures script_farm { IsScriptFarm J.meaning self.new.farm self.new.held.items }
    {
        match asked {
            TurnAsk::Take { seq, slice } => self.take(tenant, seq, slice),
            TurnAsk::Give(seq) => self.give(tenant, seq),
            TurnAsk::Whole { seq, slice } => self.turn(tenant, seq, slice),
        }
    }

    pub(crate) fn answer<M: Fn(Ready) -> Option<J>>(
        &mut self,
        shop: &Workshop<'_, M>,
        till_desks: &mut [TillDesk<'_>],
        tenant: u32,
        asked: Ask,
    ) -> Said
        requires config { self.old.farm.config ≡ shop.now.config.now }
        requires known { tenant < length shop.now.config.now.tenants }
        requires tills { AreTillsOf shop.now.config.now (tills_of till_desks.old) }
        requires make { M.IsAlwaysCallable shop.now.make.now }
        requires fresh { MakesFresh J.meaning J.lease (M.post shop.now.make.now) }
        requires script_farm { IsScriptFarm J.meaning self.old.farm self.old.held.items }
        ensures leased { HasLeasedTo (M.post shop.now.make.now)
            shop.now.config.now tenant asked till_desks.old till_desks.new }
        ensures told { IsTold self.old.farm tenant asked result self.new.farm }
        ensures script_farm { IsScriptFarm J.meaning self.new.farm self.new.held.items }
    {
        match asked {
            Ask::Call(call) => match command_of(shop, till_desks, tenant, call) {
                Some(command) => Said::Reply(self.farm.command(tenant, command)),
                None => Said::Reply(Reply::NoMemory),
            },
            Ask::Turn(turn) => self.play_turn(tenant, turn),
        }
    }

    fn give_last(&mut self)
        requires { IsScriptFarm J.meaning self.old.farm self.old.held.items }
        ensures script_farm { IsScriptFarm J.meaning self.new.farm self.new.held.items }
        ensures fewer { length self.new.held.items ≡ length self.old.held.items - 1 }
        ensures unrun { (t : ℕ) → (view t self.new.farm).spent ≡ (view t self.old.farm).spent }
        ensures parts { (p : ℕ) → all_back (purse p self.new.farm) ≡ all_back (purse p self.old.farm) }
    {
        let Some(turn) = self.held.pop() else {
            return;
        };
        match self.farm.give(turn) {
            Ok(reply) => drop(reply),
            Err(Stranger(turn)) => turn.abandon(),
        }
    }

    fn give_all(&mut self)
        requires { IsScriptFarm J.meaning self.old.farm self.old.held.items }
        ensures none { self.new.held.items ≡ [] }
        ensures unrun { (t : ℕ) → (view t self.new.farm).spent ≡ (view t self.old.farm).spent }
        ensures back { (t s : ℕ) → is_out_of (find_job s (view t self.new.farm).jobs) ≡ false }
        ensures parts { (p : ℕ) → purse p self.new.farm ≡ all_back (purse p self.old.farm) }
    {
        for _given in 0..self.held.len() {
            self.give_last();
        }
    }

    pub(crate) fn close(self) -> Farm<J>
        requires { IsScriptFarm J.meaning self.farm self.held.items }
        ensures unrun { (t : ℕ) → (view t result).spent ≡ (view t self.farm).spent }
        ensures back { (t s : ℕ) → is_out_of (find_job s (view t result).jobs) ≡ false }
        ensures parts { (p : ℕ) → purse p result ≡ all_back (purse p self.farm) }
    {
        let mut script_farm = self;
        script_farm.give_all();
        let ScriptFarm { farm, held } = script_farm;
        held.destroy_empty();
        farm
    }
}
