//! A script's farm, with the desks at which its searches draw.
ghost use Rattle.std.specs.Prelude.{◌≡◌, ◌<◌, length};
ghost use Rattle.farm_core.specs.Tills.{AreTillsOf};
ghost use Rattle.farm_session.specs.TillDesk.{tills_of, HasLeasedTo};
ghost use Rattle.farm_session.specs.Ready.{MakesFresh};
ghost use Rattle.farm_replay.specs.ScriptFarm.{IsScriptFarm, IsTold};

use crate::script_farm::ScriptFarm;
use farm_session::{Ask, Ready, TillDesk, Workshop};
use session_lines::Said;
use strategy::Strategy;

/// A `Stage` is a script's farm, and a till desk for each purse.
pub(crate) struct Stage<'a, J> {
    pub(crate) script_farm: ScriptFarm<J>,
    pub(crate) till_desks: Vec<TillDesk<'a>>,
}

impl<'a, J: Strategy> Stage<'a, J> {
    pub(crate) fn answer<M: Fn(Ready) -> Option<J>>(
        &mut self,
        shop: &Workshop<'_, M>,
        tenant: u32,
        asked: Ask,
    ) -> Said
        requires config { self.old.script_farm.farm.config ≡ shop.now.config.now }
        requires known { tenant < length shop.now.config.now.tenants }
        requires tills { AreTillsOf shop.now.config.now (tills_of self.old.till_desks.items) }
        requires make { M.IsAlwaysCallable shop.now.make.now }
        requires fresh { MakesFresh J.meaning J.lease (M.post shop.now.make.now) }
        requires script_farm { IsScriptFarm J.meaning self.old.script_farm.farm self.old.script_farm.held.items }
        ensures leased { HasLeasedTo (M.post shop.now.make.now) shop.now.config.now
            tenant asked self.old.till_desks.items self.new.till_desks.items }
        ensures told { IsTold self.old.script_farm.farm tenant asked result self.new.script_farm.farm }
        ensures script_farm { IsScriptFarm J.meaning self.new.script_farm.farm self.new.script_farm.held.items }
    {
        self.script_farm
            .answer(shop, self.till_desks.as_mut_slice(), tenant, asked)
    }
}
