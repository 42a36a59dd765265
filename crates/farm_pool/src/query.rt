//! Questions of tenants, of which many are answered in one turn of the lock.
ghost use Rattle.std.specs.Prelude.{◌<◌, length};
ghost use Rattle.farm_core.specs.Farm.{IsReply};
ghost use Rattle.farm_pool.specs.Calls.{DoesOn};
ghost use Rattle.farm_pool.specs.Query.{event_about, command_about};
ghost use Rattle.farm_pool.specs.declared.locked_farm.FarmAnswer.TheVariants.{Replied};
ghost use Rattle.farm_pool.specs.declared.locked_farm.FarmCall.TheVariants.{Asked};

use farm_core::{Farm, Reply};
use strategy::Strategy;

/// An `About` is what a tenant asks to see. The number is a job's.
#[derive(Clone, Copy, Debug, PartialEq, Eq)]
pub enum About {
    Status(u64),
    Fetch(u64),
    Ledger,
}

/// A `Query` is a tenant's call that changes no job and no purse.
#[derive(Clone, Copy, Debug, PartialEq, Eq)]
pub struct Query {
    pub tenant: u32,
    pub about: About,
}

fn reply_to<J: Strategy>(farm: &mut Farm<J>, query: &Query) -> Reply
    requires { query.now.tenant < length farm.old.config.tenants }
    ensures { IsReply farm.old query.now.tenant (event_about query.now.about) result farm.new }
{
    match query.about {
        About::Status(seq) => farm.status(query.tenant, seq),
        About::Fetch(seq) => farm.result(query.tenant, seq),
        About::Ledger => farm.ledger(query.tenant),
    }
}

/// Answers `query`. The farm is reachable before and after it: `journal` shows that to the prover.
pub(crate) fn query_on<J: Strategy>(farm: &mut Farm<J>, query: &Query) -> Reply
    requires { query.now.tenant < length farm.old.config.tenants }
    ensures { DoesOn J.meaning farm.old
        (Asked query.now.tenant (command_about query.now.about)) (Replied result) farm.new }
{
    farm.journal();
    let reply = reply_to(farm, query);
    farm.journal();
    reply
}
