//! What is asked for, sorted once by who may ask for it, and the farm's call for it.
ghost use Rattle.std.specs.Prelude.{◌≡◌, ◌<◌, length, slice_get, IfSome};
ghost use Rattle.quanta_till.specs.Lease.{LeaseValue};
ghost use Rattle.strategy.specs.Search.{Meaning};
ghost use Rattle.farm_core.specs.Command.{IsFresh};
ghost use Rattle.farm_core.specs.Tills.{AreTillsOf};
ghost use Rattle.farm_core.specs.World.{purse_in};
ghost use Rattle.farm_session.specs.Ask.{ask_of, IsCommandOf, search_in};
ghost use Rattle.farm_session.specs.TillDesk.{tills_of, lease_at, HasLeasedFor};
ghost use Rattle.farm_session.specs.Ready.{MakesFresh};

use crate::ready::{Ready, search_of};
use crate::tills::TillDesk;
use farm_core::{Command, Config};
use session_lines::What;
use std::alloc::Global;
use strategy::Plan;

/// A `TurnAsk` asks for a turn of a job. `slice` is the most nodes of the turn.
#[derive(Debug, Drop)]
pub enum TurnAsk {
    /// That a turn be taken.
    Take { seq: u64, slice: u64 },
    /// That the job's turn be run and given back.
    Give(u64),
    /// That a turn be taken, run and given back.
    Whole { seq: u64, slice: u64 },
}

/// An `Ask` is what is asked for.
#[derive(Drop)]
pub enum Ask {
    /// A call of the farm, which each tenant may ask for. A submit has no search yet.
    Call(Command<()>),
    /// A turn, which only a script may ask for.
    Turn(TurnAsk),
}

pub(crate) fn ask_of(what: What) -> Ask
    ensures { result ≡ ask_of what }
{
    match what {
        What::Submit {
            kind,
            quanta,
            project,
        } => Ask::Call(Command::Submit {
            plan: Plan { project, kind },
            quanta,
            search: (),
        }),
        What::Fund { seq, quanta } => Ask::Call(Command::Fund { seq, quanta }),
        What::Status(seq) => Ask::Call(Command::Status(seq)),
        What::Fetch(seq) => Ask::Call(Command::Fetch(seq)),
        What::Cancel(seq) => Ask::Call(Command::Cancel(seq)),
        What::Forget(seq) => Ask::Call(Command::Forget(seq)),
        What::Ledger => Ask::Call(Command::Ledger),
        What::Take { seq, slice } => Ask::Turn(TurnAsk::Take { seq, slice }),
        What::Give(seq) => Ask::Turn(TurnAsk::Give(seq)),
        What::Turn { seq, slice } => Ask::Turn(TurnAsk::Whole { seq, slice }),
    }
}

/// A `Workshop` is what the searches of a farm's submits are made with.
#[derive(Drop)]
pub struct Workshop<'a, M> {
    pub alloc: Global,
    pub config: &'a Config,
    pub make: &'a M,
}

/// The command of a tenant's call. For a submit it makes the search, with a new lease of the
/// purse's till, on which the search draws. `None` if there is no memory for that search.
pub fn command_of<J, M: Fn(Ready) -> Option<J>>(
    shop: &Workshop<'_, M>,
    till_desks: &mut [TillDesk<'_>],
    tenant: u32,
    call: Command<()>,
) -> Option<Command<J>>
    requires known { tenant < length shop.now.config.now.tenants }
    requires tills { AreTillsOf shop.now.config.now (tills_of till_desks.old) }
    requires make { M.IsAlwaysCallable shop.now.make.now }
    ensures exact { IsCommandOf call result }
    ensures fresh { (meaning : J → Meaning) (lease : J → LeaseValue)
        → MakesFresh meaning lease (M.post shop.now.make.now)
        → IfSome result (IsFresh meaning tenant) }
    ensures drawn { (meaning : J → Meaning) (lease : J → LeaseValue)
        → MakesFresh meaning lease (M.post shop.now.make.now)
        → IfSome (slice_get till_desks.old (purse_in shop.now.config.now tenant))
        (λ till_desk. IfSome (search_in result) (λ search. lease search ≡ lease_at till_desk tenant)) }
    ensures leased { HasLeasedFor (M.post shop.now.make.now)
        shop.now.config.now tenant call (search_in result) till_desks.old till_desks.new }
{
    match call {
        Command::Submit {
            plan,
            quanta,
            search: (),
        } => {
            let purse = shop.config.purse_of(tenant);
            let till_desk = &mut till_desks[purse as usize];
            match search_of(shop.alloc, till_desk, tenant, &plan, shop.make) {
                Some(search) => Some(Command::Submit {
                    plan,
                    quanta,
                    search,
                }),
                None => None,
            }
        }
        Command::Fund { seq, quanta } => Some(Command::Fund { seq, quanta }),
        Command::Status(seq) => Some(Command::Status(seq)),
        Command::Fetch(seq) => Some(Command::Fetch(seq)),
        Command::Cancel(seq) => Some(Command::Cancel(seq)),
        Command::Forget(seq) => Some(Command::Forget(seq)),
        Command::Ledger => Some(Command::Ledger),
    }
}
